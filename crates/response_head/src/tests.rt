use super::*;

#[test]
fn a_response_is_read(rt: HostRuntime) {
    let head: &[u8] =
        b"HTTP/1.1 206 Partial Content\r\nAccept-Ranges: bytes\r\ncontent-range: bytes 90-99/100\r\nContent-Length: 10\r\n\r\n";
    let Some(response) = Response::read(head) else {
        return assert!(rt; false);
    };
    assert_eq!(rt; response.status(), 206);
    assert_eq!(rt;
        response.only_value(b"Content-Range"),
        Some(b"bytes 90-99/100".as_slice())
    );
    assert_eq!(rt;
        response.only_value(b"content-length"),
        Some(b"10".as_slice())
    );
}
