use super::*;
use box_list::Boxes;
use fgb_header::HeaderView;
use fgb_outside::{MemorySource, RangeSource};
use flat_views::{Broken, Rule};
use found_features::{Collect, QueryError};
use order_keys::{Bounds, Coord};
use std::test::Fail;

/// The start and the header of a file of type Point.
const EMPTY: [u8; 36] = [
    102, 103, 98, 3, 102, 103, 98, 1, 24, 0, 0, 0, 16, 0, 0, 0, 10, 0, 5, 0, 0, 0, 0, 0, 4, 0, 0,
    0, 12, 0, 0, 0, 1, 0, 0, 0,
];

/// A feature with the point (0, 0): the size prefix 84, the feature's table and vtable, the geometry's, the count
/// of xy, and the point's two patterns.
const FEATURE: [u8; 88] = [
    84, 0, 0, 0, 16, 0, 0, 0, 6, 0, 8, 0, 4, 0, 0, 0, 0, 0, 0, 0, 12, 0, 0, 0, 28, 0, 0, 0, 18, 0,
    9, 0, 0, 0, 4, 0, 0, 0, 0, 0, 0, 0, 0, 0, 8, 0, 0, 0, 0, 0, 0, 0, 24, 0, 0, 0, 12, 0, 0, 0, 1,
    0, 0, 0, 0, 0, 0, 0, 2, 0, 0, 0, 0, 0, 0, 0, 0, 0, 0, 0, 0, 0, 0, 0, 0, 0, 0, 0,
];

#[test]
fn features_are_scanned(rt: HostRuntime) -> Result<(), Fail> {
    let alloc = rt.alloc();
    let mut file = Vec::from_slice(alloc, &EMPTY)?;
    file.extend_from_slice(&FEATURE)?;
    file.extend_from_slice(&FEATURE)?;
    file.extend_from_slice(&[84, 0, 0])?;
    let mut source = MemorySource::new(alloc, &file, &[])?;
    assert_eq!(rt; source.size(), 215);
    let header = HeaderView::read(&EMPTY[12..], 12)?;
    let origin = Bounds::of_point(Coord(0), Coord(0));
    let boxes = Boxes::one(origin);
    let mut visitor = Collect::new(alloc);
    let found = scan(alloc, &header, &boxes, 36, 212, &mut source, &mut visitor);
    assert_eq!(rt; found, Ok(2));
    assert_eq!(rt; visitor.len(), 2);
    assert_eq!(rt; visitor.item(1), (1, 88, &FEATURE[4..], origin));
    assert_eq!(rt; source.asked(), [(36, 176)].as_slice());
    let cut = Broken {
        place: 212,
        rule: Rule::FeaturePastEnd,
    };
    let mut visitor = Collect::new(alloc);
    let found = scan(alloc, &header, &boxes, 36, 215, &mut source, &mut visitor);
    assert_eq!(rt; found, Err(QueryError::Refused(cut)));
    assert_eq!(rt; visitor.len(), 2);
    Ok(())
}
