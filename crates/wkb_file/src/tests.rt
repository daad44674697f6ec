use super::*;
use fgb_outside::MemorySource;
use flat_views::{Broken, Rule};
use geometry_view::Kind;
use read_stop::ReadStop;
use std::alloc::Global;
use std::test::Fail;

/// The Point (1, 2), the lowest byte first.
const LITTLE: [u8; 21] = [
    1, 1, 0, 0, 0, 0, 0, 0, 0, 0, 0, 0xf0, 0x3f, 0, 0, 0, 0, 0, 0, 0, 0x40,
];

/// An empty GeometryCollection, the highest byte first.
const EMPTY: [u8; 9] = [0, 0, 0, 0, 7, 0, 0, 0, 0];

/// Bytes in front of others.
fn joined(alloc: Global, front: &[u8], rest: &[u8]) -> Result<Vec<u8>, Fail> {
    let mut bytes = Vec::from_slice(alloc, front)?;
    bytes.extend_from_slice(rest)?;
    Ok(bytes)
}

/// What a file of these bytes is refused with, or a failure.
fn refusal(alloc: Global, bytes: &[u8]) -> Result<Broken, Fail> {
    let mut source = MemorySource::new(alloc, bytes, &[])?;
    match read_values(alloc, &mut source) {
        Err(ReadStop::Refused(broken)) => Ok(broken),
        Err(_) => Err(Fail::new("no refusal")),
        Ok(_) => Err(Fail::new("read")),
    }
}

#[test]
fn values_are_read(rt: HostRuntime) -> Result<(), Fail> {
    let bytes = joined(rt.alloc(), &EMPTY, &LITTLE)?;
    let mut source = MemorySource::new(rt.alloc(), &bytes, &[])?;
    let Ok(shapes) = read_values(rt.alloc(), &mut source) else {
        return Err(Fail::new("not read"));
    };
    assert_eq!(rt; shapes.len(), 2);
    assert_eq!(rt; shapes[0].kind(), Kind::GeometryCollection);
    assert_eq!(rt; shapes[1].kind(), Kind::Point);
    assert_eq!(rt; shapes[1].points(), 1);
    assert_eq!(rt; source.asked(), [(0, 30)].as_slice());
    Ok(())
}

#[test]
fn no_bytes_are_no_values(rt: HostRuntime) -> Result<(), Fail> {
    let Ok(none) = values_in(rt.alloc(), &[]) else {
        return Err(Fail::new("not read"));
    };
    assert_eq!(rt; none.len(), 0);
    Ok(())
}

#[test]
fn the_second_value_is_cut(rt: HostRuntime) -> Result<(), Fail> {
    let cut = joined(rt.alloc(), &EMPTY, &LITTLE[..20])?;
    let end = Broken {
        place: 22,
        rule: Rule::WkbEnd,
    };
    assert_eq!(rt; refusal(rt.alloc(), &cut)?, end);
    Ok(())
}

#[test]
fn behind_a_value_stands_no_order(rt: HostRuntime) -> Result<(), Fail> {
    let more = joined(rt.alloc(), &LITTLE, &[2])?;
    let order = Broken {
        place: 21,
        rule: Rule::WkbOrder,
    };
    assert_eq!(rt; refusal(rt.alloc(), &more)?, order);
    Ok(())
}

#[test]
fn a_source_fails(rt: HostRuntime) -> Result<(), Fail> {
    let mut source = MemorySource::new(rt.alloc(), &LITTLE, &[1])?;
    assert_eq!(rt;
        read_values(rt.alloc(), &mut source).err(),
        Some(ReadStop::SourceFailed)
    );
    Ok(())
}
