use super::*;
use fgb_outside::MemorySource;
use flat_views::{Broken, Rule};
use node_items::NodeItem;
use order_keys::{Bounds, Coord};
use std::alloc::{AllocError, Global};
use std::test::Fail;

/// The start and the header of a file of type Point.
const EMPTY: [u8; 36] = [
    102, 103, 98, 3, 102, 103, 98, 1, 24, 0, 0, 0, 16, 0, 0, 0, 10, 0, 5, 0, 0, 0, 0, 0, 4, 0, 0,
    0, 12, 0, 0, 0, 1, 0, 0, 0,
];

/// The same of three features, with an index.
const THREE: [u8; 60] = [
    102, 103, 98, 3, 102, 103, 98, 1, 48, 0, 0, 0, 32, 0, 0, 0, 22, 0, 13, 0, 0, 0, 0, 0, 12, 0, 0,
    0, 0, 0, 0, 0, 0, 0, 0, 0, 4, 0, 0, 0, 0, 0, 0, 0, 28, 0, 0, 0, 3, 0, 0, 0, 0, 0, 0, 0, 1, 0,
    0, 0,
];

/// The feature with the point (1, 2), and its size prefix.
const POINT: [u8; 88] = [
    84, 0, 0, 0, 16, 0, 0, 0, 6, 0, 8, 0, 4, 0, 0, 0, 0, 0, 0, 0, 12, 0, 0, 0, 28, 0, 0, 0, 18, 0,
    9, 0, 0, 0, 4, 0, 0, 0, 0, 0, 0, 0, 0, 0, 8, 0, 0, 0, 0, 0, 0, 0, 24, 0, 0, 0, 12, 0, 0, 0, 1,
    0, 0, 0, 0, 0, 0, 0, 2, 0, 0, 0, 0, 0, 0, 0, 0, 0, 240, 63, 0, 0, 0, 0, 0, 0, 0, 64,
];

/// A feature without geometry, and its size prefix.
const NOWHERE: [u8; 16] = [12, 0, 0, 0, 8, 0, 0, 0, 4, 0, 4, 0, 4, 0, 0, 0];

/// A point, a feature without geometry, and the same point.
fn three(alloc: Global) -> Result<Vec<u8>, AllocError> {
    let mut file = Vec::from_slice(alloc, &EMPTY)?;
    file.extend_from_slice(&POINT)?;
    file.extend_from_slice(&NOWHERE)?;
    file.extend_from_slice(&POINT)?;
    Ok(file)
}

/// Two points and a feature without geometry, behind an index: a root and three leaves.
fn indexed(alloc: Global) -> Result<Vec<u8>, AllocError> {
    let point = Bounds::of_point(Coord(0x3FF0_0000_0000_0000), Coord(0x4000_0000_0000_0000));
    let nodes = [(point, 1), (point, 0), (point, 88), (Bounds::empty(), 176)];
    let mut file = Vec::from_slice(alloc, &THREE)?;
    for (bounds, offset) in nodes {
        file.extend_from_slice(&NodeItem { bounds, offset }.encode())?;
    }
    file.extend_from_slice(&POINT)?;
    file.extend_from_slice(&POINT)?;
    file.extend_from_slice(&NOWHERE)?;
    Ok(file)
}

#[test]
fn a_file_is_read(rt: HostRuntime) -> Result<(), Fail> {
    let bytes = three(rt.alloc())?;
    let mut source = MemorySource::new(rt.alloc(), &bytes, &[])?;
    let file = read_features(rt.alloc(), &mut source)?;
    assert_eq!(rt; file.header.geometry_type(), 1);
    assert_eq!(rt; file.places.as_slice(), [36, 124, 140].as_slice());
    assert_eq!(rt; file.features.len(), 3);
    let point = file.features[0].to_bytes(rt.alloc())?;
    assert_eq!(rt; point.as_slice(), &POINT[4..]);
    let nowhere = file.features[1].to_bytes(rt.alloc())?;
    assert_eq!(rt; nowhere.as_slice(), &NOWHERE[4..]);
    Ok(())
}

#[test]
fn features_stand_behind_an_index(rt: HostRuntime) -> Result<(), Fail> {
    let bytes = indexed(rt.alloc())?;
    let mut source = MemorySource::new(rt.alloc(), &bytes, &[])?;
    let file = read_features(rt.alloc(), &mut source)?;
    assert_eq!(rt; file.places.as_slice(), [220, 308, 396].as_slice());
    assert_eq!(rt; file.features.len(), 3);
    assert!(rt; file.features[2].geometry().is_none());
    Ok(())
}

/// Why such a file is not read.
fn stop(rt: &HostRuntime, bytes: &[u8], fail: &[u64]) -> Result<Option<ReadStop>, Fail> {
    let mut source = MemorySource::new(rt.alloc(), bytes, fail)?;
    Ok(read_features(rt.alloc(), &mut source).err())
}

#[test]
fn reading_stops(rt: HostRuntime) -> Result<(), Fail> {
    let bytes = three(rt.alloc())?;
    assert_eq!(rt; stop(&rt, &bytes, &[1])?, Some(ReadStop::SourceFailed));
    let past_end = Broken {
        place: 140,
        rule: Rule::FeaturePastEnd,
    };
    let Some(front) = bytes.get(..200) else {
        return Err(Fail::new("a file of 228 bytes"));
    };
    assert_eq!(rt; stop(&rt, front, &[])?, Some(ReadStop::Refused(past_end)));
    Ok(())
}
