// How many bytes the WKB of a geometry has.
ghost use Rattle.std.specs.Prelude.{◌≡◌, ◌+◌, ◌*◌, ◌≤◌, length, map, All, MatchResult};
ghost use Rattle.std.specs.List.{concat};
ghost use Rattle.fgb_schema.specs.Shapes.{parts_in, points_in, rings_in, type_in};
ghost use Rattle.geometry_view.specs.Views.{geometry_shown};
ghost use Rattle.geometry_view.specs.Weights.{shape_weight};
ghost use Rattle.wkb_writer.specs.Dimensions.{Fits, tree};
ghost use Rattle.wkb_writer.specs.Levels.{rows_in};
ghost use Rattle.wkb_writer.specs.Refusals.{IsNoWkb};
ghost use Rattle.wkb_writer.specs.Wkb.{IsWkbSize, body, value};
ghost use Rattle.wkb_writer.specs.declared.dialect.Dialect.TheVariants.{Iso};

use crate::dimension::{Dimension, dimension_in};
use flat_views::Broken;
use geometry_view::{GeometryView, Kind};

/// How many bytes a byte order and a type have.
const HEAD: u64 = 5;

/// How many bytes a count has.
const COUNT: u64 = 4;

/// How many bytes the WKB of a geometry has that was read, without writing it. Refuses NoWkb at 0 where it has times,
/// or points of two dimensions.
pub fn wkb_size(view: &GeometryView<'_>) -> Result<u64, Broken>
    ensures { MatchResult result (IsWkbSize (geometry_shown view.now)) (IsNoWkb (geometry_shown view.now)) }
{
    let dimension = dimension_in(view)?;
    Ok(size_of(view, dimension))
}

/// How many bytes the value of a geometry has all of whose points are of this dimension.
fn size_of(view: &GeometryView<'_>, dimension: Dimension) -> u64
    requires fits { All (Fits dimension) (tree (geometry_shown view.now)) }
    ensures all { result ≡ length (value dimension (geometry_shown view.now)) }
    ensures small { result ≤ 16 * shape_weight (geometry_shown view.now) }
{
    let mut size = HEAD + body_size(view, dimension);
    for i in 0..view.parts() {
        size += size_of(&view.part(i), dimension);
    }
    size
}

/// How many bytes of its own stand behind its head, without the values of its parts.
fn body_size(view: &GeometryView<'_>, dimension: Dimension) -> u64
    requires fits { Fits dimension (geometry_shown view.now) }
    ensures all { let s = geometry_shown view.now in let parts = map (value dimension) (parts_in s) in
        result + length (concat parts) ≡ length (body Iso dimension (type_in s) (rows_in s) (rings_in s) parts) }
    ensures small { let s = geometry_shown view.now in
        result ≤ 32 + 9 * length (rings_in s) + 37 * length (points_in s) }
{
    let row = dimension.size() as u64;
    let points = view.points() as u64;
    let rings = view.rings() as u64;
    match view.kind() {
        Kind::Point => row,
        Kind::LineString => counted_size(points, row),
        Kind::Polygon => counted_size(rings, COUNT) + points * row,
        Kind::MultiPoint => counted_size(points, HEAD + row),
        Kind::MultiLineString => counted_size(rings, HEAD + COUNT) + points * row,
        Kind::MultiPolygon | Kind::GeometryCollection => COUNT,
    }
}

/// How many bytes things of one size have, and how many they are in front of them.
fn counted_size(count: u64, size: u64) -> u64
    requires few { count ≤ 268435456 }
    requires small { size ≤ 37 }
    ensures { result ≡ 4 + count * size }
{
    COUNT + count * size
}
