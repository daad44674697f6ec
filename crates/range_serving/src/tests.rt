use super::*;
use byte_links::MemoryAccept;
use std::alloc::AllocError;

const REQUEST: &[u8] = b"GET /map.fgb HTTP/1.1\r\nHost: 127.0.0.1\r\nRange: bytes=90-200\r\n\r\n";

const IMAGE: &[u8] =
    b"0123456789012345678901234567890123456789012345678901234567890123456789012345678901234567890123456789";

const REPLY: &[u8] =
    b"HTTP/1.1 206 Partial Content\r\nAccept-Ranges: bytes\r\nContent-Range: bytes 90-99/100\r\nContent-Length: 10\r\n\r\n0123456789";

#[test]
fn one_connection_is_served(rt: HostRuntime) -> Result<(), AllocError> {
    let mut listener = MemoryAccept::new(rt.alloc(), 4000, &[])?;
    listener.add(REQUEST)?;
    let result = serve_connections(rt.alloc(), IMAGE, &mut listener, 1);
    let receipt = Receipt {
        requests: 1,
        sent: 116,
    };
    assert!(rt; result == Ok(receipt));
    let [link] = listener.ended() else {
        return Ok(assert!(rt; false));
    };
    assert_eq!(rt; link.sent(), REPLY);
    Ok(())
}

#[test]
fn a_second_connection_does_not_come(rt: HostRuntime) -> Result<(), AllocError> {
    let mut listener = MemoryAccept::new(rt.alloc(), 4000, &[])?;
    listener.add(REQUEST)?;
    let result = serve_connections(rt.alloc(), IMAGE, &mut listener, 2);
    assert!(rt; result == Err(ServingError::AcceptFailed));
    assert_eq!(rt; listener.ended().len(), 1);
    Ok(())
}
