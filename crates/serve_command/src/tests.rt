use super::*;
use byte_links::{Accept, MemoryAccept, TcpAccept};
use fgb_outside::MemorySink;
use range_server::{Receipt, serve_connection};
use std::io::{Read, Write};
use std::net::{TcpListener, TcpStream};
use std::test::Fail;

const IMAGE: &[u8] =
    b"0123456789012345678901234567890123456789012345678901234567890123456789012345678901234567890123456789";

#[test]
fn one_connection_is_served(rt: HostRuntime) -> Result<(), Fail> {
    let mut listener = MemoryAccept::new(rt.alloc(), 4000, &[])?;
    listener.add(b"GET /map.fgb HTTP/1.1\r\nHost: 127.0.0.1\r\nRange: bytes=90-200\r\n\r\n")?;
    let mut out = MemorySink::new(rt.alloc(), &[])?;
    let mut err = MemorySink::new(rt.alloc(), &[])?;
    let words = ["serve", "map.fgb", "--port=8080", "--connections=1"];
    assert_eq!(rt;
        serve_run(rt.alloc(), &words, IMAGE, &mut listener, &mut out, &mut err),
        0
    );
    assert_eq!(rt; out.bytes(), b"served 1 requests 1 sent 116\n".as_slice());
    assert!(rt; err.bytes().is_empty());
    let [link] = listener.ended() else {
        return Err(Fail::new("one link was given back"));
    };
    assert_eq!(rt;
        link.sent(),
        b"HTTP/1.1 206 Partial Content\r\nAccept-Ranges: bytes\r\nContent-Range: bytes 90-99/100\r\nContent-Length: 10\r\n\r\n0123456789".as_slice()
    );
    Ok(())
}

#[test]
fn a_connection_is_served_over_tcp(rt: HostRuntime) -> Result<(), Fail> {
    let listener = TcpListener::bind(&rt, "127.0.0.1:0")?;
    let mut near = TcpStream::connect(&rt, listener.local_addr()?)?;
    near.write_all(
        b"GET /map.fgb HTTP/1.1\r\nHost: 127.0.0.1\r\nRange: bytes=-4\r\nConnection: close\r\n\r\n",
    )?;
    let mut links = TcpAccept::new(listener);
    let mut far = links.accept()?;
    let receipt = Receipt {
        requests: 1,
        sent: 128,
    };
    assert!(rt; serve_connection(rt.alloc(), IMAGE, &mut far) == Ok(receipt));
    assert_eq!(rt; links.done(far), Ok(()));
    let mut reply = Vec::new(rt.alloc());
    near.read_to_end(&mut reply)?;
    assert_eq!(rt;
        reply.as_slice(),
        b"HTTP/1.1 206 Partial Content\r\nAccept-Ranges: bytes\r\nContent-Range: bytes 96-99/100\r\nContent-Length: 4\r\nConnection: close\r\n\r\n6789".as_slice()
    );
    Ok(())
}
