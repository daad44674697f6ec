ghost use Rattle.std.specs.Prelude.{◌<◌};

use super::*;
use byte_links::MemoryLink;
use fgb_outside::{RangeSource, SourceError};
use std::alloc::Global;
use std::test::Fail;

const CONNECT: &[u8] = b"GET /map.fgb HTTP/1.1\r\nHost: 127.0.0.1\r\nRange: bytes=0-0\r\n\r\n";

const FIRST: &[u8] =
    b"HTTP/1.1 206 Partial Content\r\nAccept-Ranges: bytes\r\nContent-Range: bytes 0-0/100\r\nContent-Length: 1\r\n\r\nf";

const EMPTY: &[u8] =
    b"HTTP/1.1 416 Range Not Satisfiable\r\nAccept-Ranges: bytes\r\nContent-Range: bytes */0\r\nContent-Length: 0\r\n\r\n";

const PART: &[u8] =
    b"HTTP/1.1 206 Partial Content\r\nAccept-Ranges: bytes\r\nContent-Range: bytes 90-99/100\r\nContent-Length: 10\r\n\r\n0123456789";

const WHOLE: &[u8] =
    b"HTTP/1.1 200 OK\r\nAccept-Ranges: bytes\r\nContent-Length: 10\r\n\r\n0123456789";

// A client over a link that receives the two replies, which reads this part at 90.
fn read_part<'a>(
    alloc: Global,
    input: &'a [u8],
    piece: usize,
    part: &mut [u8; 10],
) -> Option<(RangeClient<MemoryLink<'a>>, Result<(), SourceError>)>
    requires { 0 < piece }
{
    let link = MemoryLink::new(alloc, input, piece, &[]).ok()?;
    let mut client = RangeClient::connect(alloc, link, "/map.fgb").ok()?;
    if client.size() != 100 {
        return None;
    }
    let result = client.read_at(90, part);
    Some((client, result))
}

fn two(alloc: Global, first: &[u8], second: &[u8]) -> Result<Vec<u8>, Fail> {
    let mut both = Vec::new(alloc);
    both.extend_from_slice(first)?;
    both.extend_from_slice(second)?;
    Ok(both)
}

#[test]
fn a_part_is_read(rt: HostRuntime) -> Result<(), Fail> {
    let input = two(rt.alloc(), FIRST, PART)?;
    let mut part = [0; 10];
    let Some((client, result)) = read_part(rt.alloc(), &input, 7, &mut part) else {
        return Err(Fail::new("a client"));
    };
    assert_eq!(rt; result, Ok(()));
    assert_eq!(rt; part, *b"0123456789");
    assert_eq!(rt; client.last_head(), &PART[..106]);
    assert_eq!(rt; client.asked(), [(90, 10)].as_slice());
    Ok(())
}

// The kind of the bad reply, and how long its head is. The link has sent the request.
fn bad_kind(alloc: Global, input: &[u8]) -> Option<(BadKind, usize)> {
    let link = MemoryLink::new(alloc, input, 50, &[]).ok()?;
    let ConnectRefused { link, error } = RangeClient::connect(alloc, link, "/map.fgb").err()?;
    if link.sent() != CONNECT {
        return None;
    }
    match error {
        ConnectError::BadReply(kind, head) => Some((kind, head.len())),
        _ => None,
    }
}

#[test]
fn bad_replies_are_named(rt: HostRuntime) -> Result<(), Fail> {
    let alloc = rt.alloc();
    let long = vec![in alloc; b'a'; 9000]?;
    assert_eq!(rt; bad_kind(alloc, &FIRST[..60]), Some((BadKind::Ended, 60)));
    assert_eq!(rt; bad_kind(alloc, &FIRST[..103]), Some((BadKind::Ended, 103)));
    assert_eq!(rt; bad_kind(alloc, &long), Some((BadKind::Head, 8192)));
    assert_eq!(rt;
        bad_kind(alloc, b"HTTP/2 206 OK\r\n\r\n"),
        Some((BadKind::Head, 17))
    );
    assert_eq!(rt; bad_kind(alloc, WHOLE), Some((BadKind::Status, 61)));
    assert_eq!(rt; bad_kind(alloc, PART), Some((BadKind::ContentRange, 106)));
    let none = b"HTTP/1.1 206 OK\r\nContent-Range: bytes 0-0/9\r\n\r\n";
    assert_eq!(rt; bad_kind(alloc, none), Some((BadKind::Length, 47)));
    Ok(())
}

#[test]
fn an_empty_file_has_no_bytes(rt: HostRuntime) -> Result<(), Fail> {
    let link = MemoryLink::new(rt.alloc(), EMPTY, 50, &[])?;
    let Ok(client) = RangeClient::connect(rt.alloc(), link, "/map.fgb") else {
        return Err(Fail::new("a client"));
    };
    assert_eq!(rt; client.size(), 0);
    assert_eq!(rt; client.last_head(), EMPTY);
    Ok(())
}

#[test]
fn a_client_that_failed_fails_again(rt: HostRuntime) -> Result<(), Fail> {
    let input = two(rt.alloc(), FIRST, WHOLE)?;
    let mut part = [0; 10];
    let Some((mut client, result)) = read_part(rt.alloc(), &input, 200, &mut part) else {
        return Err(Fail::new("a client"));
    };
    assert_eq!(rt; result, Err(SourceError::Failed));
    assert_eq!(rt; client.last_head(), &WHOLE[..61]);
    if client.size() < 4 {
        return Err(Fail::new("a short file"));
    }
    assert_eq!(rt; client.read_at(0, &mut part[..4]), Err(SourceError::Failed));
    assert_eq!(rt; client.asked(), [(90, 10), (0, 4)].as_slice());
    Ok(())
}

// What comes where this call of the link fails.
fn failing(alloc: Global, input: &[u8], call: u64) -> Option<Result<(), SourceError>> {
    let link = MemoryLink::new(alloc, input, 1000, &[call]).ok()?;
    match RangeClient::connect(alloc, link, "/map.fgb") {
        Ok(mut client) => {
            let mut part = [0; 10];
            if client.size() < 100 {
                return None;
            }
            Some(client.read_at(90, &mut part))
        }
        Err(refused) => match refused.error {
            ConnectError::LinkFailed => None,
            _ => Some(Ok(())),
        },
    }
}

#[test]
fn each_call_of_the_link_fails(rt: HostRuntime) -> Result<(), Fail> {
    let input = two(rt.alloc(), FIRST, PART)?;
    assert_eq!(rt; failing(rt.alloc(), &input, 1), None);
    assert_eq!(rt; failing(rt.alloc(), &input, 2), None);
    assert_eq!(rt; failing(rt.alloc(), &input, 105), None);
    assert_eq!(rt;
        failing(rt.alloc(), &input, 106),
        Some(Err(SourceError::Failed))
    );
    assert_eq!(rt;
        failing(rt.alloc(), &input, 107),
        Some(Err(SourceError::Failed))
    );
    assert_eq!(rt; failing(rt.alloc(), &input, 1000), Some(Ok(())));
    Ok(())
}
