use super::*;
use fgb_outside::MemorySink;
use std::test::Fail;

/// The line of a Point (0, 0) that is the only feature.
const FOUND: &[u8] =
    b"0 0 100 0000000000000000 0000000000000000 0000000000000000 0000000000000000\n";

#[test]
fn a_point_inside_is_found(rt: HostRuntime) -> Result<(), Fail> {
    let mut out = MemorySink::new(rt.alloc(), &[])?;
    assert_eq!(rt; make_text(rt.alloc(), 1, 32_670, &mut out), Ok(()));
    let mut text = Vec::from_slice(rt.alloc(), FOUND)?;
    text.extend_from_slice(b"features 1 nodes 2 bytes 288 found 1 asked 288\n")?;
    assert_eq!(rt; out.bytes(), text.as_slice());
    Ok(())
}

#[test]
fn a_point_outside_is_not_found(rt: HostRuntime) -> Result<(), Fail> {
    let mut out = MemorySink::new(rt.alloc(), &[])?;
    assert_eq!(rt; make_text(rt.alloc(), 1, 0, &mut out), Ok(()));
    assert_eq!(rt;
        out.bytes(),
        b"features 1 nodes 2 bytes 288 found 0 asked 144\n".as_slice()
    );
    Ok(())
}

#[test]
fn no_features_are_made(rt: HostRuntime) -> Result<(), Fail> {
    let mut out = MemorySink::new(rt.alloc(), &[])?;
    assert_eq!(rt; make_text(rt.alloc(), 0, 0, &mut out), Ok(()));
    assert_eq!(rt;
        out.bytes(),
        b"features 0 nodes 0 bytes 88 found 0 asked 88\n".as_slice()
    );
    Ok(())
}

#[test]
fn a_sink_fails(rt: HostRuntime) -> Result<(), Fail> {
    let mut out = MemorySink::new(rt.alloc(), &[1])?;
    assert_eq!(rt;
        make_text(rt.alloc(), 1, 32_670, &mut out),
        Err(Stop::SinkFailed)
    );
    assert!(rt; out.bytes().is_empty());
    Ok(())
}
