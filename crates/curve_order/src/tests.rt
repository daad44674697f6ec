ghost use Rattle.std.specs.Prelude.{◌≢◌};
ghost use Rattle.order_keys.specs.Boxes.{IsBox, empty};

use super::*;
use order_keys::{BoundFault, Bounds, read_box};

#[test]
fn corners_of_the_curve(rt: HostRuntime) {
    let rows = [
        ((0, 0), 0),
        ((1, 0), 1),
        ((1, 1), 2),
        ((0, 1), 3),
        ((0, 65535), 1431655765),
        ((65535, 65535), 2863311530),
        ((65535, 0), 4294967295),
    ];
    for ((x, y), number) in rows {
        assert_eq!(rt; curve(x, y), number);
        assert_eq!(rt; uncurve(number), (x, y));
    }
}

#[test]
fn cells_of_an_extent(rt: HostRuntime) -> Result<(), BoundFault> {
    let extent: Bounds = read_box("-1,2,1,2")?;
    assert_eq!(rt; cell_inside(read_box("-1,2,-1,2")?, extent), Some((0, 0)));
    assert_eq!(rt; cell_inside(read_box("1,2,1,2")?, extent), Some((65535, 0)));
    assert_eq!(rt; cell_inside(extent, extent), Some((32767, 0)));
    Ok(())
}

/// The cell of a box, where the extent contains the box.
fn cell_inside(bounds: Bounds, extent: Bounds) -> Option<(u16, u16)>
    requires is_box { IsBox bounds }
    requires some { bounds ≢ empty }
    requires is_extent { IsBox extent }
    requires some_extent { extent ≢ empty }
{
    if !extent.contains(bounds) {
        return None;
    }
    Some(cell(bounds, extent))
}
