ghost use Rattle.std.specs.Prelude.{◌≡◌, List, ℕ, length, IfOk, IsErrOf, Ok};
ghost use Rattle.fgb_outside.specs.Source.{Rose, added};
ghost use Rattle.byte_links.specs.Link.{IfServes};

use super::*;
use std::net::{TcpListener, TcpStream};
use std::test::Fail;

// Reads a piece and sends it back.
fn echo<L: Link>(link: &mut L) -> Result<usize, LinkError>
    ensures ok { IfOk result (λ n. (piece : List ℕ) × (length piece ≡ n) × ((L.shown link.new).received ≡ added (L.shown link.old).received piece) × ((L.shown link.new).sent ≡ added (L.shown link.old).sent piece)) }
    ensures failed { IsErrOf result LinkError.Failed → Rose (L.shown link.old).faults (L.shown link.new).faults }
    ensures ended { result ≡ Ok 0 → Rose (L.shown link.old).ends (L.shown link.new).ends }
    ensures served { IfServes (L.shown link.old) (λ _. ¬ IsErrOf result LinkError.Failed) }
{
    let mut piece = [0; 16];
    let count = link.read(&mut piece)?;
    link.write(&piece[..count])?;
    Ok(count)
}

#[test]
fn a_link_gives_its_input_in_pieces(rt: HostRuntime) -> Result<(), Fail> {
    let mut link = MemoryLink::new(rt.alloc(), b"abc", 2, &[])?;
    let mut piece = [b'-'; 3];
    assert_eq!(rt; link.read(&mut piece), Ok(2));
    assert_eq!(rt; piece, *b"ab-");
    assert_eq!(rt; link.write(b"one "), Ok(()));
    assert_eq!(rt; link.read(&mut piece), Ok(1));
    assert_eq!(rt; piece, *b"cb-");
    assert_eq!(rt; link.read(&mut piece), Ok(0));
    assert_eq!(rt; link.write(b"two"), Ok(()));
    assert_eq!(rt; link.sent(), b"one two".as_slice());
    Ok(())
}

#[test]
fn the_second_call_fails(rt: HostRuntime) -> Result<(), Fail> {
    let mut link = MemoryLink::new(rt.alloc(), b"abc", 8, &[2])?;
    let mut piece = [0u8; 8];
    assert_eq!(rt; link.write(b"one"), Ok(()));
    assert_eq!(rt; link.read(&mut piece), Err(LinkError::Failed));
    assert_eq!(rt; link.read(&mut piece), Ok(3));
    assert_eq!(rt; link.sent(), b"one".as_slice());
    Ok(())
}

#[test]
fn links_are_handed_out_and_taken_back(rt: HostRuntime) -> Result<(), Fail> {
    let mut links = MemoryAccept::new(rt.alloc(), 2, &[2])?;
    links.add(b"abc")?;
    links.add(b"d")?;
    let mut first = links.accept()?;
    assert!(rt; links.accept().is_err());
    let mut second = links.accept()?;
    assert!(rt; links.accept().is_err());
    assert_eq!(rt; echo(&mut second), Ok(1));
    assert_eq!(rt; echo(&mut first), Ok(2));
    assert_eq!(rt; echo(&mut first), Ok(1));
    assert_eq!(rt; echo(&mut first), Ok(0));
    assert_eq!(rt; links.done(first), Ok(()));
    assert_eq!(rt; links.done(second), Ok(()));
    let [one, other] = links.ended() else {
        return Err(Fail::new("two links were taken back"));
    };
    assert_eq!(rt; one.sent(), b"abc".as_slice());
    assert_eq!(rt; other.sent(), b"d".as_slice());
    Ok(())
}

#[test]
fn bytes_go_both_ways_over_tcp(rt: HostRuntime) -> Result<(), Fail> {
    let listener = TcpListener::bind(&rt, "127.0.0.1:0")?;
    let address = listener.local_addr()?;
    let mut links = TcpAccept::new(listener);
    let mut near = TcpLink::new(TcpStream::connect(&rt, address)?);
    assert_eq!(rt; near.write(b"hello"), Ok(()));
    let mut far = links.accept()?;
    assert_eq!(rt; echo(&mut far), Ok(5));
    assert_eq!(rt; links.done(far), Ok(()));
    let mut piece = [0u8; 5];
    assert_eq!(rt; near.read(&mut piece), Ok(5));
    assert_eq!(rt; piece, *b"hello");
    assert_eq!(rt; near.read(&mut piece), Ok(0));
    Ok(())
}
