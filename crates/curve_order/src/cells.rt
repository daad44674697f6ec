// Cells of an extent.
ghost use Rattle.std.specs.Prelude.{◌≡◌, ◌≢◌, ◌+◌, ◌*◌, ◌<◌, ◌≤◌, ◌^◌};
ghost use Rattle.order_keys.specs.Keys.{IsAtMost};
ghost use Rattle.order_keys.specs.Boxes.{Contains, IsBox, empty};
ghost use Rattle.curve_order.specs.Cells.{IsCellOf, IsMiddle, IsShare};

use order_keys::{Bounds, Coord};

/// The greatest number of a cell in x or y.
const LAST: u128 = 65535;

/// The cell of the middle of a box in an extent, which is the box of all features: the share of the way, by keys, from
/// the extent's min to its max, in 65,535ths, rounded down. Where the extent has no width the cell is 0.
pub fn cell(bounds: Bounds, extent: Bounds) -> (u16, u16)
    requires is_box { IsBox bounds }
    requires some { bounds ≢ empty }
    requires is_extent { IsBox extent }
    requires some_extent { extent ≢ empty }
    requires inside { Contains extent bounds }
    ensures { IsCellOf bounds extent result }
{
    (
        share(bounds.min_x, bounds.max_x, extent.min_x, extent.max_x),
        share(bounds.min_y, bounds.max_y, extent.min_y, extent.max_y),
    )
}

/// The share of the way from `from` to `to` at which the middle of `min` and `max` stands.
fn share(min: Coord, max: Coord, from: Coord, to: Coord) -> u16
    requires after_from { IsAtMost from.0 min.0 }
    requires is_ordered { IsAtMost min.0 max.0 }
    requires before_to { IsAtMost max.0 to.0 }
    ensures { IsShare min.0 max.0 from.0 to.0 result }
{
    let middle = middle_of(min, max);
    let from = from.key() as i128;
    let width = (to.key() as i128 - from) as u128;
    if width == 0 {
        return 0;
    }
    in_parts((middle - from) as u128, width)
}

/// The middle of two keys, rounded down.
fn middle_of(min: Coord, max: Coord) -> i128
    ensures { IsMiddle min.0 max.0 result }
{
    (min.key() as i128 + max.key() as i128).div_euclid(2)
}

/// How many 65,535ths of a width a way is, rounded down.
fn in_parts(way: u128, width: u128) -> u16
    requires some { 0 < width }
    requires inside { way ≤ width }
    requires small { width < 2 ^ 64 }
    ensures low { result * width ≤ 65535 * way }
    ensures high { 65535 * way < (result + 1) * width }
{
    (LAST * way / width) as u16
}
