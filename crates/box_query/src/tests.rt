use super::*;
use box_list::read_boxes;
use fgb_outside::{MemorySource, RangeSource};
use order_keys::{Bounds, Coord};
use std::alloc::{AllocError, Global};
use std::test::Fail;

/// The start and the header of a file of type Point.
const EMPTY: [u8; 36] = [
    102, 103, 98, 3, 102, 103, 98, 1, 24, 0, 0, 0, 16, 0, 0, 0, 10, 0, 5, 0, 0, 0, 0, 0, 4, 0, 0,
    0, 12, 0, 0, 0, 1, 0, 0, 0,
];

/// The same, with two features and an index of the default node size.
const INDEXED: [u8; 60] = [
    102, 103, 98, 3, 102, 103, 98, 1, 48, 0, 0, 0, 32, 0, 0, 0, 22, 0, 13, 0, 0, 0, 0, 0, 12, 0, 0,
    0, 0, 0, 0, 0, 0, 0, 0, 0, 4, 0, 0, 0, 0, 0, 0, 0, 28, 0, 0, 0, 2, 0, 0, 0, 0, 0, 0, 0, 1, 0,
    0, 0,
];

/// A node around the point (0, 0) but for its offset.
const NODE: [u8; 32] = [0; 32];

/// A feature with the point (0, 0), behind its size prefix 84.
const FEATURE: [u8; 88] = [
    84, 0, 0, 0, 16, 0, 0, 0, 6, 0, 8, 0, 4, 0, 0, 0, 0, 0, 0, 0, 12, 0, 0, 0, 28, 0, 0, 0, 18, 0,
    9, 0, 0, 0, 4, 0, 0, 0, 0, 0, 0, 0, 0, 0, 8, 0, 0, 0, 0, 0, 0, 0, 24, 0, 0, 0, 12, 0, 0, 0, 1,
    0, 0, 0, 0, 0, 0, 0, 2, 0, 0, 0, 0, 0, 0, 0, 0, 0, 0, 0, 0, 0, 0, 0, 0, 0, 0, 0,
];

/// The box of the point (0, 0).
fn origin() -> Bounds {
    Bounds::of_point(Coord(0), Coord(0))
}

/// Two features behind an index of a root and two leaves.
fn indexed(alloc: Global) -> Result<Vec<u8>, AllocError> {
    let mut file = Vec::from_slice(alloc, &INDEXED)?;
    file.extend_from_slice(&NODE)?;
    file.extend_from_slice(&[1, 0, 0, 0, 0, 0, 0, 0])?;
    file.extend_from_slice(&NODE)?;
    file.extend_from_slice(&[0, 0, 0, 0, 0, 0, 0, 0])?;
    file.extend_from_slice(&NODE)?;
    file.extend_from_slice(&[88, 0, 0, 0, 0, 0, 0, 0])?;
    file.extend_from_slice(&FEATURE)?;
    file.extend_from_slice(&FEATURE)?;
    Ok(file)
}

/// The number 0, and the number 1.
const ZERO: [u8; 8] = [0; 8];

const ONE: [u8; 8] = [0, 0, 0, 0, 0, 0, 240, 63];

/// Adds a node around the points from (from, 0) to (to, 0).
fn add_node(
    file: &mut Vec<u8>,
    from: &[u8; 8],
    to: &[u8; 8],
    offset: u8,
) -> Result<(), AllocError> {
    file.extend_from_slice(from)?;
    file.extend_from_slice(&ZERO)?;
    file.extend_from_slice(to)?;
    file.extend_from_slice(&ZERO)?;
    file.extend_from_slice(&[offset, 0, 0, 0, 0, 0, 0, 0])
}

/// Three features behind an index of a root and three leaves, of which the second is the point (1, 0).
fn spaced(alloc: Global) -> Result<Vec<u8>, AllocError> {
    let mut file = Vec::from_slice(alloc, &INDEXED[..48])?;
    file.push(3)?;
    file.extend_from_slice(&INDEXED[49..])?;
    add_node(&mut file, &ZERO, &ONE, 1)?;
    add_node(&mut file, &ZERO, &ZERO, 0)?;
    add_node(&mut file, &ONE, &ONE, 88)?;
    add_node(&mut file, &ZERO, &ZERO, 176)?;
    file.extend_from_slice(&FEATURE)?;
    file.extend_from_slice(&FEATURE[..72])?;
    file.extend_from_slice(&ONE)?;
    file.extend_from_slice(&ZERO)?;
    file.extend_from_slice(&FEATURE)?;
    Ok(file)
}

#[test]
fn an_index_is_searched(rt: HostRuntime) -> Result<(), Fail> {
    let alloc = rt.alloc();
    let file = indexed(alloc)?;
    let mut source = MemorySource::new(alloc, &file, &[])?;
    assert_eq!(rt; source.size(), 356);
    let mut visitor = Collect::new(alloc);
    let boxes = read_boxes("0,0,0,0")?;
    let done = query(alloc, &mut source, &boxes, 0, &mut visitor);
    assert_eq!(rt; done, Ok(QueryDone { found: 2 }));
    assert_eq!(rt; visitor.len(), 2);
    assert_eq!(rt; visitor.item(1), (1, 88, &FEATURE[4..], origin()));
    // The start and the header, the root, its leaves, and both features: up to the last size prefix, and then the rest.
    let reads = [(0, 12), (12, 48), (60, 40), (100, 80), (180, 92), (272, 84)];
    assert_eq!(rt; source.asked(), reads.as_slice());

    let away = read_boxes("1,0,1,0")?;
    let mut nothing = Collect::new(alloc);
    let done = query(alloc, &mut source, &away, 0, &mut nothing);
    assert_eq!(rt; done, Ok(QueryDone { found: 0 }));
    Ok(())
}

#[test]
fn a_file_without_an_index_is_scanned(rt: HostRuntime) -> Result<(), Fail> {
    let alloc = rt.alloc();
    let mut file = Vec::from_slice(alloc, &EMPTY)?;
    file.extend_from_slice(&FEATURE)?;
    let mut source = MemorySource::new(alloc, &file, &[])?;
    let mut visitor = Collect::new(alloc);
    let boxes = read_boxes("0,0,0,0")?;
    let done = query(alloc, &mut source, &boxes, 0, &mut visitor);
    assert_eq!(rt; done, Ok(QueryDone { found: 1 }));
    assert_eq!(rt; source.asked(), [(0, 12), (12, 24), (36, 88)].as_slice());
    Ok(())
}

#[test]
fn a_feature_in_two_boxes_is_found_once(rt: HostRuntime) -> Result<(), Fail> {
    let alloc = rt.alloc();
    let file = spaced(alloc)?;
    let mut source = MemorySource::new(alloc, &file, &[])?;
    let mut visitor = Collect::new(alloc);
    let boxes = read_boxes("1,0,1,0+0,0,0,0+-1,-1,1,1")?;
    let done = query(alloc, &mut source, &boxes, 0, &mut visitor);
    assert_eq!(rt; done, Ok(QueryDone { found: 3 }));
    Ok(())
}

#[test]
fn a_hole_shorter_than_the_gap_is_read(rt: HostRuntime) -> Result<(), Fail> {
    let alloc = rt.alloc();
    let file = spaced(alloc)?;
    let boxes = read_boxes("0,0,0,0")?;
    // Between the features 0 and 2, which are found, are the 88 bytes of feature 1.
    let mut source = MemorySource::new(alloc, &file, &[])?;
    let mut visitor = Collect::new(alloc);
    let done = query(alloc, &mut source, &boxes, 88, &mut visitor);
    assert_eq!(rt; done, Ok(QueryDone { found: 2 }));
    let apart = [
        (0, 12),
        (12, 48),
        (60, 40),
        (100, 120),
        (220, 88),
        (396, 4),
        (400, 84),
    ];
    assert_eq!(rt; source.asked(), apart.as_slice());

    let mut source = MemorySource::new(alloc, &file, &[])?;
    let mut visitor = Collect::new(alloc);
    let done = query(alloc, &mut source, &boxes, 89, &mut visitor);
    assert_eq!(rt; done, Ok(QueryDone { found: 2 }));
    let together = [
        (0, 12),
        (12, 48),
        (60, 40),
        (100, 120),
        (220, 180),
        (400, 84),
    ];
    assert_eq!(rt; source.asked(), together.as_slice());
    Ok(())
}
