use super::*;
use order_keys::{Bounds, read_box};
use std::test::Fail;

#[test]
fn features_are_ordered(rt: HostRuntime) -> Result<(), Fail> {
    // a point, none, the same point, a point below it and one right of it: the middle cell of each corner
    let boxes = [
        read_box("1,2,1,2")?,
        Bounds::empty(),
        read_box("1,2,1,2")?,
        read_box("1,0,1,0")?,
        read_box("3,2,3,2")?,
    ];
    let numbers = order(rt.alloc(), &boxes)?;
    // along the curve: (1, 0) at its begin, then (1, 2), then (3, 2)
    assert_eq!(rt; numbers.as_slice(), [4, 0, 2, 3, 1].as_slice());
    Ok(())
}
