// Features by where their boxes stand along the curve.
ghost use Rattle.std.specs.Prelude.{◌≡◌, IfOk, length, map};
ghost use Rattle.std.specs.List.{All, AllByRecursion, range_with_len};
ghost use Rattle.order_keys.specs.Boxes.{Contains, IsBox, join};
ghost use Rattle.feature_order.specs.Order.{IsOrder, IsRank, extent};
ghost use Rattle.feature_order.specs.Places.{IsPlace};

use curve_order::{cell, curve};
use order_keys::Bounds;
use std::alloc::{AllocError, Global};

/// How many cells the curve passes.
const CELLS: u64 = 1 << 32;

/// A feature and where its box stands.
#[derive(Clone, Copy, Drop)]
struct Place {
    rank: u64,
    number: usize,
}

/// The numbers of the features with these boxes, from 0 on, in their order: those whose boxes stand last along the curve
/// come first, those without a point come last, and features at one cell keep the order of their numbers.
pub fn order(alloc: Global, boxes: &[Bounds]) -> Result<Vec<usize>, AllocError>
    requires { AllByRecursion IsBox boxes.now }
    ensures { IfOk result (λ numbers. IsOrder boxes.now numbers.items) }
{
    let mut places = places(alloc, boxes)?;
    places.sort_by_key(|place| place.rank)?;
    numbers(alloc, &places)
}

/// The numbers of features in the order of their places.
fn numbers(alloc: Global, places: &[Place]) -> Result<Vec<usize>, AllocError>
    ensures { IfOk result (λ numbers. numbers.items ≡ map (λ (p : Place). p.number) places.now) }
{
    places.iter().map(|place| place.number).collect(alloc)
}

/// The features, by their numbers, and where their boxes stand.
fn places(alloc: Global, boxes: &[Bounds]) -> Result<Vec<Place>, AllocError>
    requires { AllByRecursion IsBox boxes.now }
    ensures numbers { IfOk result (λ places. map (λ (p : Place). p.number) places.items ≡ range_with_len 0 (length boxes.now)) }
    ensures ranks { IfOk result (λ places. All (IsPlace boxes.now) places.items) }
{
    let around = extent(boxes);
    let mut places = Vec::with_capacity(alloc, boxes.len())?;
    for (number, bounds) in boxes.iter().enumerate() {
        places.push(Place {
            rank: rank(*bounds, around),
            number,
        })?;
    }
    Ok(places)
}

/// The box around all boxes.
fn extent(boxes: &[Bounds]) -> Bounds
    requires { AllByRecursion IsBox boxes.now }
    ensures value { result ≡ extent boxes.now }
    ensures is_box { IsBox result }
    ensures around { All (Contains result) boxes.now }
{
    let mut around = Bounds::empty();
    for bounds in boxes {
        around = joined(around, *bounds);
    }
    around
}

/// The box around both boxes.
fn joined(first: Bounds, other: Bounds) -> Bounds
    requires is_first { IsBox first }
    requires is_other { IsBox other }
    ensures value { result ≡ join first other }
    ensures is_box { IsBox result }
{
    first.join(other)
}

/// Where a box stands: the number of its cell, counted back from the curve's last, or behind all cells where it is empty.
fn rank(bounds: Bounds, around: Bounds) -> u64
    requires is_box { IsBox bounds }
    requires is_extent { IsBox around }
    requires inside { Contains around bounds }
    ensures { IsRank around bounds result }
{
    if bounds == Bounds::empty() {
        return CELLS;
    }
    let (x, y) = cell(bounds, around);
    CELLS - 1 - curve(x, y) as u64
}
