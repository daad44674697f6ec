use super::*;

const REQUEST: &[u8] = b"GET /map.fgb HTTP/1.1\r\nHost: 127.0.0.1\r\nRange: bytes=90-200\r\n\r\n";

#[test]
fn a_range_is_answered(rt: HostRuntime) {
    let reply = answer(100, REQUEST);
    let text: &[u8] =
        b"HTTP/1.1 206 Partial Content\r\nAccept-Ranges: bytes\r\nContent-Range: bytes 90-99/100\r\nContent-Length: 10\r\n\r\n";
    assert_eq!(rt; reply.head(), text);
    assert_eq!(rt; reply.head().len(), 106);
    assert_eq!(rt; reply.body(), (90, 10));
    assert!(rt; !reply.closes());
}
