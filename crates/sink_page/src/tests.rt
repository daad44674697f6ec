use super::*;
use fgb_outside::{MemorySink, SinkError};
use std::test::Fail;

#[test]
fn small_pieces_are_gathered(rt: HostRuntime) -> Result<(), Fail> {
    let mut out = MemorySink::new(rt.alloc(), &[])?;
    let mut page = Page::new(rt.alloc());
    assert_eq!(rt; page.put(&mut out, b"one "), Ok(()));
    assert_eq!(rt; page.put(&mut out, b"two"), Ok(()));
    assert!(rt; out.bytes().is_empty());
    assert_eq!(rt; page.write(&mut out), Ok(()));
    assert_eq!(rt; out.bytes(), b"one two".as_slice());
    assert_eq!(rt; page.write(&mut out), Ok(()));
    assert_eq!(rt; out.bytes(), b"one two".as_slice());
    Ok(())
}

#[test]
fn a_large_piece_is_passed_on(rt: HostRuntime) -> Result<(), Fail> {
    let mut out = MemorySink::new(rt.alloc(), &[3])?;
    let mut page = Page::new(rt.alloc());
    assert_eq!(rt; page.put(&mut out, b"one "), Ok(()));
    assert_eq!(rt; page.put(&mut out, &[7; 65536]), Ok(()));
    assert_eq!(rt; out.bytes().len(), 65540);
    assert_eq!(rt; page.put(&mut out, b"two"), Ok(()));
    assert_eq!(rt; page.write(&mut out), Err(SinkError::Failed));
    assert_eq!(rt; out.bytes().len(), 65540);
    Ok(())
}
