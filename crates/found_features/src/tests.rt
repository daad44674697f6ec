use super::*;
use fgb_header::HeaderView;
use order_keys::{Bounds, Coord};
use std::test::Fail;

/// A header of type Point.
const HEADER: [u8; 24] = [
    16, 0, 0, 0, 10, 0, 5, 0, 0, 0, 0, 0, 4, 0, 0, 0, 12, 0, 0, 0, 1, 0, 0, 0,
];

#[test]
fn features_are_kept(rt: HostRuntime) -> Result<(), Fail> {
    let alloc = rt.alloc();
    let header = HeaderView::read(&HEADER, 12)?;
    let mut visitor = Collect::new(alloc);
    visitor.begin(&header)?;
    let bounds = Bounds::of_point(Coord(1), Coord(2));
    visitor.take(&Found {
        number: 3,
        offset: 88,
        bytes: b"abc",
        bounds,
    })?;
    assert_eq!(rt; visitor.len(), 1);
    assert_eq!(rt; visitor.item(0), (3, 88, b"abc".as_slice(), bounds));
    Ok(())
}
