use super::*;

mod rows;

use box_list::Boxes;
use flat_views::{Broken, Rule};
use order_keys::{Bounds, Coord};
use std::alloc::{AllocError, Global};
use std::test::Fail;

/// The start and the header of a file of type Point.
const EMPTY: [u8; 36] = [
    102, 103, 98, 3, 102, 103, 98, 1, 24, 0, 0, 0, 16, 0, 0, 0, 10, 0, 5, 0, 0, 0, 0, 0, 4, 0, 0,
    0, 12, 0, 0, 0, 1, 0, 0, 0,
];

/// The same, with two features and an index of the default node size.
const INDEXED: [u8; 60] = [
    102, 103, 98, 3, 102, 103, 98, 1, 48, 0, 0, 0, 32, 0, 0, 0, 22, 0, 13, 0, 0, 0, 0, 0, 12, 0, 0,
    0, 0, 0, 0, 0, 0, 0, 0, 0, 4, 0, 0, 0, 0, 0, 0, 0, 28, 0, 0, 0, 2, 0, 0, 0, 0, 0, 0, 0, 1, 0,
    0, 0,
];

/// The boxes of the points (0, 0) and (1, 0) in a node.
const ZERO: [u8; 32] = [0; 32];

const ONE: [u8; 32] = [
    0, 0, 0, 0, 0, 0, 240, 63, 0, 0, 0, 0, 0, 0, 0, 0, 0, 0, 0, 0, 0, 0, 240, 63, 0, 0, 0, 0, 0, 0,
    0, 0,
];

/// A feature with the point (0, 0), behind its size prefix 84.
const FEATURE: [u8; 88] = [
    84, 0, 0, 0, 16, 0, 0, 0, 6, 0, 8, 0, 4, 0, 0, 0, 0, 0, 0, 0, 12, 0, 0, 0, 28, 0, 0, 0, 18, 0,
    9, 0, 0, 0, 4, 0, 0, 0, 0, 0, 0, 0, 0, 0, 8, 0, 0, 0, 0, 0, 0, 0, 24, 0, 0, 0, 12, 0, 0, 0, 1,
    0, 0, 0, 0, 0, 0, 0, 2, 0, 0, 0, 0, 0, 0, 0, 0, 0, 0, 0, 0, 0, 0, 0, 0, 0, 0, 0,
];

/// The box of the point (0, 0), alone.
fn origin() -> Boxes {
    Boxes::one(Bounds::of_point(Coord(0), Coord(0)))
}

/// Two features behind an index of a root and two leaves, with these boxes of the root and the second leaf.
fn indexed(alloc: Global, root: &[u8; 32], leaf: &[u8; 32]) -> Result<Vec<u8>, AllocError> {
    let mut file = Vec::from_slice(alloc, &INDEXED)?;
    file.extend_from_slice(root)?;
    file.extend_from_slice(&[1, 0, 0, 0, 0, 0, 0, 0])?;
    file.extend_from_slice(&ZERO)?;
    file.extend_from_slice(&[0, 0, 0, 0, 0, 0, 0, 0])?;
    file.extend_from_slice(leaf)?;
    file.extend_from_slice(&[88, 0, 0, 0, 0, 0, 0, 0])?;
    file.extend_from_slice(&FEATURE)?;
    file.extend_from_slice(&FEATURE)?;
    Ok(file)
}

/// The number, the offset and the size of the feature that comes next.
fn next_of(hits: &mut Hits) -> Result<(u64, u64, usize), Fail> {
    match hits.next() {
        Some(Ok(found)) => Ok((found.number, found.offset, found.bytes.len())),
        _ => Err(Fail::new("no feature comes next")),
    }
}

/// The refusal that comes next, if one does.
fn refusal_of(hits: &mut Hits) -> Option<Broken> {
    match hits.next() {
        Some(Err(broken)) => Some(broken),
        _ => None,
    }
}

#[test]
fn an_index_is_searched(rt: HostRuntime) -> Result<(), Fail> {
    let file = indexed(rt.alloc(), &ZERO, &ZERO)?;
    let mut hits = Hits::new(&file, origin())?;
    assert_eq!(rt; next_of(&mut hits)?, (0, 0, 84));
    assert_eq!(rt; next_of(&mut hits)?, (1, 88, 84));
    assert!(rt; hits.next().is_none());
    assert!(rt; hits.next().is_none());
    let away = Boxes::one(Bounds::of_point(Coord(1), Coord(0)));
    assert!(rt; Hits::new(&file, away)?.next().is_none());
    Ok(())
}

#[test]
fn damage_counts_where_it_is_met(rt: HostRuntime) -> Result<(), Fail> {
    // The root's box does not meet that of its leaves, which are not searched.
    let file = indexed(rt.alloc(), &ONE, &ZERO)?;
    assert!(rt; Hits::new(&file, origin())?.next().is_none());
    // It does not contain that of the second leaf.
    let file = indexed(rt.alloc(), &ZERO, &ONE)?;
    let mut hits = Hits::new(&file, origin())?;
    let outside = Broken {
        place: 60,
        rule: Rule::ParentBox,
    };
    assert_eq!(rt; refusal_of(&mut hits), Some(outside));
    assert!(rt; hits.next().is_none());
    Ok(())
}

#[test]
fn a_file_without_an_index_is_scanned(rt: HostRuntime) -> Result<(), Fail> {
    let mut file = Vec::from_slice(rt.alloc(), &EMPTY)?;
    file.extend_from_slice(&FEATURE)?;
    file.extend_from_slice(&[84, 0, 0])?;
    let mut hits = Hits::new(&file, origin())?;
    assert_eq!(rt; next_of(&mut hits)?, (0, 0, 84));
    let cut = Broken {
        place: 124,
        rule: Rule::FeaturePastEnd,
    };
    assert_eq!(rt; refusal_of(&mut hits), Some(cut));
    assert!(rt; hits.next().is_none());
    Ok(())
}

#[test]
fn a_cut_start_is_refused(rt: HostRuntime) {
    let short = Broken {
        place: 5,
        rule: Rule::Short,
    };
    assert_eq!(rt; Hits::new(&EMPTY[..5], origin()).err(), Some(short));
}
