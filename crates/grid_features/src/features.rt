// The features of a grid.
ghost use Rattle.std.specs.Prelude.{◌≡◌, ◌≤◌, ◌%◌, ◌-ℤ◌, pos, length, IfOk};
ghost use Rattle.std.specs.List.{AllByRecursion};
ghost use Rattle.feature_tables.specs.Records.{Fits};
ghost use Rattle.grid_features.specs.Grid.{AreGridFrom, IsGridFeature, IsPattern, across, grid_header, up};

use feature_info::FeatureInfo;
use fgb_values::Value;
use geometry_view::Kind;
use header_info::HeaderInfo;
use order_keys::Coord;
use owned_shape::Shape;
use std::alloc::{AllocError, Global};

/// The type ULong (FlatGeobuf, header.fbs, ColumnType).
const ULONG: u8 = 8;

/// The type Point (FlatGeobuf, header.fbs, GeometryType).
const POINT: u8 = 1;

/// The header of the features of a grid.
pub fn grid_header(alloc: Global) -> Result<HeaderInfo, AllocError>
    ensures { IfOk result (λ header. header ≡ grid_header) }
{
    let mut header = HeaderInfo::plain(alloc, POINT);
    header.push_column("id", ULONG)?;
    Ok(header)
}

/// So many features of the grid from this start on, in order. They are at most 1,000,000, and the start is at most
/// 1,000,000,000.
pub fn grid_features(alloc: Global, count: u64, start: u64) -> Result<Vec<FeatureInfo>, AllocError>
    requires few { count ≤ 1000000 }
    requires near { start ≤ 1000000000 }
    ensures grid { IfOk result (λ features. AreGridFrom start 0 features.items) }
    ensures counted { IfOk result (λ features. length features.items ≡ count) }
    ensures fits { IfOk result (λ features. AllByRecursion (Fits grid_header) features.items) }
{
    let mut features = Vec::with_capacity(alloc, count as usize)?;
    for i in 0..count {
        features.push(grid_feature(alloc, i, start)?)?;
    }
    Ok(features)
}

/// Feature i of the grid from this start on.
fn grid_feature(alloc: Global, i: u64, start: u64) -> Result<FeatureInfo, AllocError>
    requires few { i ≤ 1000000 }
    requires near { start ≤ 1000000000 }
    ensures grid { IfOk result (IsGridFeature start i) }
    ensures fits { IfOk result (Fits grid_header) }
{
    let x = coordinate(37 * i + start, 361, 180);
    let y = coordinate(53 * i + start, 181, 90);
    let mut point = Shape::new(alloc, Kind::Point);
    point.push_points(&[x.0, y.0])?;
    let mut feature = FeatureInfo::new(alloc, Some(point));
    feature.push_prop(0, Value::ULong(i))?;
    Ok(feature)
}

/// The pattern of what is left of a number on a circle of so many steps, from so far below 0 on.
fn coordinate(number: u64, steps: u64, below: u64) -> Coord
    requires some { 1 ≤ steps }
    requires few { steps ≤ 361 }
    requires low { below ≤ 180 }
    ensures { IsPattern (pos (number % steps) -ℤ pos below) result.0 }
{
    let whole = (number % steps) as i64 - below as i64;
    match Coord::of_whole(whole) {
        Some(coordinate) => coordinate,
        None => unreachable!(),
    }
}
