use super::*;
use std::test::Fail;

/// The second feature of the grid from 32670 on: the Point (37, 53), with the number 1.
const SECOND: [u8; 100] = [
    // the root, the vtable, and four bytes between
    16, 0, 0, 0, 8, 0, 12, 0, 4, 0, 8, 0, 0, 0, 0, 0,
    // the feature
    12, 0, 0, 0, 28, 0, 0, 0, 60, 0, 0, 0,
    // the vtable of the geometry, and two bytes between
    18, 0, 9, 0, 0, 0, 4, 0, 0, 0, 0, 0, 0, 0, 0, 0, 8, 0, 0, 0,
    // the geometry, and seven bytes between
    20, 0, 0, 0, 12, 0, 0, 0, 1, 0, 0, 0, 0, 0, 0, 0,
    // x and y
    2, 0, 0, 0, 0, 0, 0, 0, 0, 128, 66, 64, 0, 0, 0, 0, 0, 128, 74, 64,
    // the properties, and two bytes behind
    10, 0, 0, 0, 0, 0, 1, 0, 0, 0, 0, 0, 0, 0, 0, 0,
];

#[test]
fn points_go_round(rt: HostRuntime) -> Result<(), Fail> {
    let features = grid_features(rt.alloc(), 2, 32_670)?;
    let [_, second] = features.as_slice() else {
        return Err(Fail::new("two features"));
    };
    assert_eq!(rt; second.to_bytes(rt.alloc())?.as_slice(), SECOND.as_slice());
    Ok(())
}

#[test]
fn the_header_has_a_column(rt: HostRuntime) -> Result<(), Fail> {
    let header = grid_header(rt.alloc())?;
    assert_eq!(rt; (header.geometry_type(), header.columns()), (1, 1));
    Ok(())
}
