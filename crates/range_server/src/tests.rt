use super::*;
use byte_links::MemoryLink;
use std::alloc::AllocError;

const REQUEST: &[u8] = b"GET /map.fgb HTTP/1.1\r\nHost: 127.0.0.1\r\nRange: bytes=90-200\r\n\r\n";

const IMAGE: &[u8] =
    b"0123456789012345678901234567890123456789012345678901234567890123456789012345678901234567890123456789";

#[test]
fn a_head_in_two_pieces_is_answered(rt: HostRuntime) {
    let mut core = ServerCore::new(100);
    let first = core.take(&REQUEST[..30]);
    assert_eq!(rt; first.used, 30);
    assert!(rt; first.reply.is_none());
    let second = core.take(&REQUEST[30..]);
    assert_eq!(rt; second.used, REQUEST.len() - 30);
    let Some(reply) = second.reply else {
        return assert!(rt; false);
    };
    assert_eq!(rt; reply.head().len(), 106);
    assert_eq!(rt; reply.body(), (90, 10));
    assert!(rt; !core.is_closed());
}

#[test]
fn too_long_a_head_is_bad(rt: HostRuntime) {
    let mut core = ServerCore::new(100);
    for _ in 0..8191 {
        assert!(rt; core.take(b"a").reply.is_none());
    }
    let taken = core.take(b"aa");
    assert_eq!(rt; taken.used, 1);
    assert!(rt; taken.reply.is_some());
    assert!(rt; core.is_closed());
    assert_eq!(rt; core.take(REQUEST).used, 0);
}

#[test]
fn a_connection_is_served(rt: HostRuntime) -> Result<(), AllocError> {
    let mut link = MemoryLink::new(rt.alloc(), REQUEST, 40, &[])?;
    let result = serve_connection(rt.alloc(), IMAGE, &mut link);
    let receipt = Receipt {
        requests: 1,
        sent: 116,
    };
    assert!(rt; result == Ok(receipt));
    assert_eq!(rt; link.sent().len(), 116);
    Ok(())
}

#[test]
fn a_first_write_fails(rt: HostRuntime) -> Result<(), AllocError> {
    let mut link = MemoryLink::new(rt.alloc(), REQUEST, 4000, &[2])?;
    let result = serve_connection(rt.alloc(), IMAGE, &mut link);
    let nothing = Receipt {
        requests: 0,
        sent: 0,
    };
    assert!(rt; result == Err(ServeError::LinkFailed(nothing)));
    assert_eq!(rt; link.sent().len(), 0);
    Ok(())
}

#[test]
fn a_closing_reply_is_the_last(rt: HostRuntime) -> Result<(), AllocError> {
    let input =
        b"GET /map.fgb HTTP/1.1\r\nHost: 127.0.0.1\r\nRange: bytes=90-200\r\nConnection: close\r\n\r\nGET /map.fgb HTTP/1.1\r\n";
    let mut link = MemoryLink::new(rt.alloc(), input, 4000, &[])?;
    let result = serve_connection(rt.alloc(), IMAGE, &mut link);
    let receipt = Receipt {
        requests: 1,
        sent: 116 + 19,
    };
    assert!(rt; result == Ok(receipt));
    Ok(())
}
