use super::*;

#[test]
fn a_request_is_read(rt: HostRuntime) {
    let head: &[u8] = b"GET /map.fgb HTTP/1.1\r\nHost: 127.0.0.1\r\nrange: bytes=90-200\r\n\r\n";
    let Some(request) = Request::read(head) else {
        return assert!(rt; false);
    };
    assert_eq!(rt; request.method(), b"GET".as_slice());
    assert_eq!(rt; request.target(), b"/map.fgb".as_slice());
    assert_eq!(rt;
        request.only_value(b"Range"),
        Some(b"bytes=90-200".as_slice())
    );
    assert!(rt; request.has_one_host());
    assert!(rt; request.has_no_body());
    assert!(rt; !request.asks_to_close());
}
