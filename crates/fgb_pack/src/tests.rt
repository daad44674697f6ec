use super::*;
use fgb_outside::{MemorySink, MemorySource};
use flat_views::{Broken, Rule};
use node_items::NodeItem;
use order_keys::{Bounds, Coord};
use std::alloc::{AllocError, Global};
use std::test::Fail;

/// The start and the header of a file of type Point.
const EMPTY: [u8; 36] = [
    102, 103, 98, 3, 102, 103, 98, 1, 24, 0, 0, 0, 16, 0, 0, 0, 10, 0, 5, 0, 0, 0, 0, 0, 4, 0, 0,
    0, 12, 0, 0, 0, 1, 0, 0, 0,
];

/// The same of three features, with an index.
const THREE: [u8; 60] = [
    102, 103, 98, 3, 102, 103, 98, 1, 48, 0, 0, 0, 32, 0, 0, 0, 22, 0, 13, 0, 0, 0, 0, 0, 12, 0, 0,
    0, 0, 0, 0, 0, 0, 0, 0, 0, 4, 0, 0, 0, 0, 0, 0, 0, 28, 0, 0, 0, 3, 0, 0, 0, 0, 0, 0, 0, 1, 0,
    0, 0,
];

/// The feature with the point (1, 2), and its size prefix.
const POINT: [u8; 88] = [
    84, 0, 0, 0, 16, 0, 0, 0, 6, 0, 8, 0, 4, 0, 0, 0, 0, 0, 0, 0, 12, 0, 0, 0, 28, 0, 0, 0, 18, 0,
    9, 0, 0, 0, 4, 0, 0, 0, 0, 0, 0, 0, 0, 0, 8, 0, 0, 0, 0, 0, 0, 0, 24, 0, 0, 0, 12, 0, 0, 0, 1,
    0, 0, 0, 0, 0, 0, 0, 2, 0, 0, 0, 0, 0, 0, 0, 0, 0, 240, 63, 0, 0, 0, 0, 0, 0, 0, 64,
];

/// A feature without geometry, and its size prefix.
const NOWHERE: [u8; 16] = [12, 0, 0, 0, 8, 0, 0, 0, 4, 0, 4, 0, 4, 0, 0, 0];

/// A point, a feature without geometry, and the same point.
fn three(alloc: Global) -> Result<Vec<u8>, AllocError> {
    let mut file = Vec::from_slice(alloc, &EMPTY)?;
    file.extend_from_slice(&POINT)?;
    file.extend_from_slice(&NOWHERE)?;
    file.extend_from_slice(&POINT)?;
    Ok(file)
}

/// Their packing: a root and three leaves, and both points in front.
fn packed(alloc: Global) -> Result<Vec<u8>, AllocError> {
    let point = Bounds::of_point(Coord(0x3FF0_0000_0000_0000), Coord(0x4000_0000_0000_0000));
    let nodes = [(point, 1), (point, 0), (point, 88), (Bounds::empty(), 176)];
    let mut file = Vec::from_slice(alloc, &THREE)?;
    for (bounds, offset) in nodes {
        file.extend_from_slice(&NodeItem { bounds, offset }.encode())?;
    }
    file.extend_from_slice(&POINT)?;
    file.extend_from_slice(&POINT)?;
    file.extend_from_slice(&NOWHERE)?;
    Ok(file)
}

#[test]
fn three_features_are_packed(rt: HostRuntime) -> Result<(), Fail> {
    let file = three(rt.alloc())?;
    let mut source = MemorySource::new(rt.alloc(), &file, &[])?;
    let mut out = MemorySink::new(rt.alloc(), &[])?;
    let done = PackDone {
        features: 3,
        nodes: 4,
        bytes: 412,
    };
    assert_eq!(rt; pack(rt.alloc(), &mut source, 16, &mut out), Ok(done));
    assert_eq!(rt; out.bytes(), packed(rt.alloc())?.as_slice());
    Ok(())
}

#[test]
fn a_broken_file_is_refused(rt: HostRuntime) -> Result<(), Fail> {
    let file = three(rt.alloc())?;
    let Some(front) = file.get(..200) else {
        return Err(Fail::new("a file of 228 bytes"));
    };
    let mut source = MemorySource::new(rt.alloc(), front, &[])?;
    let mut out = MemorySink::new(rt.alloc(), &[])?;
    let refusal = Broken {
        place: 140,
        rule: Rule::FeaturePastEnd,
    };
    assert_eq!(rt;
        pack(rt.alloc(), &mut source, 16, &mut out),
        Err(PackError::Refused(refusal))
    );
    assert!(rt; out.bytes().is_empty());
    Ok(())
}

#[test]
fn packing_stops(rt: HostRuntime) -> Result<(), Fail> {
    let file = three(rt.alloc())?;
    let mut source = MemorySource::new(rt.alloc(), &file, &[1])?;
    let mut out = MemorySink::new(rt.alloc(), &[2])?;
    assert_eq!(rt;
        pack(rt.alloc(), &mut source, 16, &mut out),
        Err(PackError::SourceFailed)
    );
    assert!(rt; out.bytes().is_empty());
    assert_eq!(rt;
        pack(rt.alloc(), &mut source, 16, &mut out),
        Err(PackError::SinkFailed)
    );
    assert_eq!(rt; out.bytes(), &THREE[..12]);
    Ok(())
}
