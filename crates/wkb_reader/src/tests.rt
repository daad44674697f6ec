use super::*;
use flat_views::{Broken, Rule};
use geometry_view::{Kind, Ordinate};
use order_keys::Coord;
use owned_shape::Shape;
use std::alloc::Global;
use std::test::Fail;
use wkb_writer::WkbError;

/// The patterns of 1 and 2.
const N1: Coord = Coord(0x3ff0_0000_0000_0000);

const N2: Coord = Coord(0x4000_0000_0000_0000);

/// The Point (1, 2), the lowest byte first.
const LITTLE: [u8; 21] = [
    1, 1, 0, 0, 0, 0, 0, 0, 0, 0, 0, 0xf0, 0x3f, 0, 0, 0, 0, 0, 0, 0, 0x40,
];

/// The same, the highest byte first.
const BIG: [u8; 21] = [
    0, 0, 0, 0, 1, 0x3f, 0xf0, 0, 0, 0, 0, 0, 0, 0x40, 0, 0, 0, 0, 0, 0, 0,
];

/// The empty Point.
const EMPTY: [u8; 21] = [
    1, 1, 0, 0, 0, 0, 0, 0, 0, 0, 0, 0xf8, 0x7f, 0, 0, 0, 0, 0, 0, 0xf8, 0x7f,
];

/// A Point with z.
const HIGH: [u8; 29] = [
    1, 0xe9, 3, 0, 0, 0, 0, 0, 0, 0, 0, 0xf0, 0x3f, 0, 0, 0, 0, 0, 0, 0, 0x40, 0, 0, 0, 0, 0, 0,
    0xf0, 0x3f,
];

/// The Point (1, 2) in the reference system 4326, as EWKB.
const REFERENCED: [u8; 25] = [
    1, 1, 0, 0, 0x20, 0xe6, 0x10, 0, 0, 0, 0, 0, 0, 0, 0, 0xf0, 0x3f, 0, 0, 0, 0, 0, 0, 0, 0x40,
];

/// A Point with z, as EWKB.
const FLAGGED: [u8; 29] = [
    1, 1, 0, 0, 0x80, 0, 0, 0, 0, 0, 0, 0xf0, 0x3f, 0, 0, 0, 0, 0, 0, 0, 0x40, 0, 0, 0, 0, 0, 0,
    0xf0, 0x3f,
];

/// What stands in front of the one part of a GeometryCollection in the reference system 4326.
const REFERENCED_COLLECTION: [u8; 13] = [1, 7, 0, 0, 0x20, 0xe6, 0x10, 0, 0, 1, 0, 0, 0];

/// What stands in front of the one part of a GeometryCollection.
const COLLECTION: [u8; 9] = [1, 7, 0, 0, 0, 1, 0, 0, 0];

/// The shape that the bytes are read as, or a failure.
fn read(alloc: Global, bytes: &[u8]) -> Result<Shape, Fail> {
    read_wkb(alloc, bytes).map_err(|_| Fail::new("not read"))
}

/// What the bytes are refused with, or a failure.
fn refusal(alloc: Global, bytes: &[u8]) -> Result<(u64, Rule), Fail> {
    match read_wkb(alloc, bytes) {
        Err(WkbError::Refused(Broken { place, rule })) => Ok((place, rule)),
        Err(WkbError::Memory) => Err(Fail::new("no memory")),
        Ok(_) => Err(Fail::new("read")),
    }
}

/// The shape that the bytes are read as by EWKB, or a failure.
fn read_extended(alloc: Global, bytes: &[u8]) -> Result<Shape, Fail> {
    read_ewkb(alloc, bytes).map_err(|_| Fail::new("not read"))
}

/// What the bytes are refused with by EWKB, or a failure.
fn extended_refusal(alloc: Global, bytes: &[u8]) -> Result<(u64, Rule), Fail> {
    match read_ewkb(alloc, bytes) {
        Err(WkbError::Refused(Broken { place, rule })) => Ok((place, rule)),
        Err(WkbError::Memory) => Err(Fail::new("no memory")),
        Ok(_) => Err(Fail::new("read")),
    }
}

/// The i-th point of a shape, if it has so many.
fn point(shape: &Shape, i: usize) -> Option<(Coord, Coord)> {
    if i < shape.points() {
        Some(shape.xy(i))
    } else {
        None
    }
}

/// Bytes in front of others.
fn joined(alloc: Global, front: &[u8], rest: &[u8]) -> Result<Vec<u8>, Fail> {
    let mut bytes = Vec::from_slice(alloc, front)?;
    bytes.extend_from_slice(rest)?;
    Ok(bytes)
}

#[test]
fn points(rt: HostRuntime) -> Result<(), Fail> {
    let little = read(rt.alloc(), &LITTLE)?;
    assert_eq!(rt; little.kind(), Kind::Point);
    assert_eq!(rt; point(&little, 0), Some((N1, N2)));
    let big = read(rt.alloc(), &BIG)?;
    assert_eq!(rt; big.kind(), Kind::Point);
    assert_eq!(rt; point(&big, 0), Some((N1, N2)));
    let empty = read(rt.alloc(), &EMPTY)?;
    assert_eq!(rt; empty.kind(), Kind::Point);
    assert_eq!(rt; empty.points(), 0);
    let high = read(rt.alloc(), &HIGH)?;
    assert_eq!(rt; point(&high, 0), Some((N1, N2)));
    assert_eq!(rt; high.ordinates(Ordinate::Z), [N1.0].as_slice());
    assert_eq!(rt; high.ordinates(Ordinate::M).len(), 0);
    Ok(())
}

#[test]
fn members(rt: HostRuntime) -> Result<(), Fail> {
    let both = joined(rt.alloc(), &LITTLE, &BIG)?;
    let bytes = joined(rt.alloc(), &[0, 0, 0, 0, 4, 0, 0, 0, 2], &both)?;
    let shape = read(rt.alloc(), &bytes)?;
    assert_eq!(rt; shape.kind(), Kind::MultiPoint);
    assert_eq!(rt; shape.points(), 2);
    assert_eq!(rt; point(&shape, 0), Some((N1, N2)));
    assert_eq!(rt; point(&shape, 1), Some((N1, N2)));
    let bytes = joined(rt.alloc(), &COLLECTION, &LITTLE)?;
    let shape = read(rt.alloc(), &bytes)?;
    assert_eq!(rt; shape.kind(), Kind::GeometryCollection);
    assert_eq!(rt; shape.parts(), 1);
    Ok(())
}

#[test]
fn refusals(rt: HostRuntime) -> Result<(), Fail> {
    let Some(cut) = LITTLE.get(..20) else {
        return Err(Fail::new("not cut"));
    };
    assert_eq!(rt; refusal(rt.alloc(), cut)?, (13, Rule::WkbEnd));
    let mut deep = Vec::new(rt.alloc());
    for _ in 0..15 {
        deep.extend_from_slice(&COLLECTION)?;
    }
    read(rt.alloc(), &joined(rt.alloc(), &deep, &LITTLE)?)?;
    deep.extend_from_slice(&COLLECTION)?;
    let deeper = joined(rt.alloc(), &deep, &LITTLE)?;
    assert_eq!(rt; refusal(rt.alloc(), &deeper)?, (144, Rule::WkbDepth));
    let more = joined(rt.alloc(), &LITTLE, &[0])?;
    assert_eq!(rt; refusal(rt.alloc(), &more)?, (21, Rule::WkbRest));
    let Ok((shape, length)) = read_wkb_front(rt.alloc(), &more) else {
        return Err(Fail::new("not read"));
    };
    assert_eq!(rt; length, 21);
    assert_eq!(rt; point(&shape, 0), Some((N1, N2)));
    Ok(())
}

#[test]
fn extended(rt: HostRuntime) -> Result<(), Fail> {
    let plain = read_extended(rt.alloc(), &LITTLE)?;
    assert_eq!(rt; point(&plain, 0), Some((N1, N2)));
    let referenced = read_extended(rt.alloc(), &REFERENCED)?;
    assert_eq!(rt; referenced.kind(), Kind::Point);
    assert_eq!(rt; point(&referenced, 0), Some((N1, N2)));
    assert_eq!(rt; referenced.ordinates(Ordinate::Z).len(), 0);
    let flagged = read_extended(rt.alloc(), &FLAGGED)?;
    assert_eq!(rt; point(&flagged, 0), Some((N1, N2)));
    assert_eq!(rt; flagged.ordinates(Ordinate::Z), [N1.0].as_slice());
    let bytes = joined(rt.alloc(), &REFERENCED_COLLECTION, &REFERENCED)?;
    let collection = read_extended(rt.alloc(), &bytes)?;
    assert_eq!(rt; collection.kind(), Kind::GeometryCollection);
    assert_eq!(rt; collection.parts(), 1);
    Ok(())
}

#[test]
fn extended_refusals(rt: HostRuntime) -> Result<(), Fail> {
    let Some(cut) = REFERENCED.get(..8) else {
        return Err(Fail::new("not cut"));
    };
    assert_eq!(rt; extended_refusal(rt.alloc(), cut)?, (5, Rule::WkbEnd));
    let mixed = joined(rt.alloc(), &REFERENCED_COLLECTION, &FLAGGED)?;
    assert_eq!(rt;
        extended_refusal(rt.alloc(), &mixed)?,
        (13, Rule::WkbDimension)
    );
    assert_eq!(rt; refusal(rt.alloc(), &REFERENCED)?, (1, Rule::WkbType));
    assert_eq!(rt; refusal(rt.alloc(), &FLAGGED)?, (1, Rule::WkbType));
    Ok(())
}
