ghost use Rattle.std.specs.Prelude.{◌≡◌, IfOk};
ghost use Rattle.fgb_schema.specs.Shapes.{type_in};
ghost use Rattle.owned_shape.specs.Records.{depth};

use super::*;
use flat_builder::FlatTable;
use flat_views::{Buf, Meter};
use geometry_view::{GeometryView, Kind, Ordinate};
use order_keys::Coord;
use std::alloc::Global;
use std::test::Fail;

/// The patterns of 0, 1, 2, 3 and 4.
const N0: u64 = 0;

const N1: u64 = 0x3ff0_0000_0000_0000;

const N2: u64 = 0x4000_0000_0000_0000;

const N3: u64 = 0x4008_0000_0000_0000;

const N4: u64 = 0x4010_0000_0000_0000;

/// A feature with the Point (1, 2).
const POINT: [u8; 84] = [
    16, 0, 0, 0, 6, 0, 8, 0, 4, 0, 0, 0, 0, 0, 0, 0, 12, 0, 0, 0, 28, 0, 0, 0, 18, 0, 9, 0, 0, 0,
    4, 0, 0, 0, 0, 0, 0, 0, 0, 0, 8, 0, 0, 0, 0, 0, 0, 0, 24, 0, 0, 0, 12, 0, 0, 0, 1, 0, 0, 0, 0,
    0, 0, 0, 2, 0, 0, 0, 0, 0, 0, 0, 0, 0, 240, 63, 0, 0, 0, 0, 0, 0, 0, 64,
];

/// Its i-th point, if it has so many.
fn point(shape: &Shape, i: usize) -> Option<(Coord, Coord)> {
    if i < shape.points() {
        Some(shape.xy(i))
    } else {
        None
    }
}

/// Its i-th ring, if it has so many.
fn ring(shape: &Shape, i: usize) -> Option<(usize, usize)> {
    if i < shape.rings() {
        Some(shape.ring(i))
    } else {
        None
    }
}

/// Its i-th part, if it has so many.
fn part(shape: &Shape, i: usize) -> Result<&Shape, Fail> {
    if i < shape.parts() {
        Ok(shape.part(i))
    } else {
        Err(Fail::new("no part"))
    }
}

#[test]
fn rings(rt: HostRuntime) -> Result<(), Fail> {
    let mut polygon = Shape::new(rt.alloc(), Kind::Polygon);
    assert_eq!(rt; polygon.rings(), 0);
    polygon.push_points(&[N0, N0, N4, N0, N0, N4])?;
    polygon.push_points(&[N1, N2, N2, N1])?;
    assert_eq!(rt; polygon.kind(), Kind::Polygon);
    assert_eq!(rt; polygon.points(), 5);
    assert_eq!(rt; polygon.rings(), 2);
    assert_eq!(rt; ring(&polygon, 0), Some((0, 3)));
    assert_eq!(rt; ring(&polygon, 1), Some((3, 5)));
    assert_eq!(rt; point(&polygon, 1), Some((Coord(N4), Coord(N0))));
    assert_eq!(rt; point(&polygon, 3), Some((Coord(N1), Coord(N2))));
    assert_eq!(rt; polygon.parts(), 0);
    Ok(())
}

/// A polygon of one ring.
fn square(alloc: Global) -> Result<Shape, Fail>
    ensures kind { IfOk result (λ s. type_in s ≡ 3) }
    ensures flat { IfOk result (λ s. depth s ≡ 1) }
{
    let mut polygon = Shape::new(alloc, Kind::Polygon);
    polygon.push_points(&[N0, N0, N1, N1])?;
    Ok(polygon)
}

#[test]
fn parts(rt: HostRuntime) -> Result<(), Fail> {
    let mut polygons = Shape::new(rt.alloc(), Kind::MultiPolygon);
    polygons.push_part(square(rt.alloc())?)?;
    polygons.push_part(Shape::new(rt.alloc(), Kind::Polygon))?;
    assert_eq!(rt; polygons.parts(), 2);
    assert_eq!(rt; part(&polygons, 0)?.points(), 2);
    assert_eq!(rt; part(&polygons, 1)?.points(), 0);
    let mut collection = Shape::new(rt.alloc(), Kind::GeometryCollection);
    collection.push_part(polygons)?;
    collection.push_part(Shape::new(rt.alloc(), Kind::Point))?;
    assert_eq!(rt; collection.parts(), 2);
    assert_eq!(rt; part(&collection, 0)?.kind(), Kind::MultiPolygon);
    assert_eq!(rt; part(part(&collection, 0)?, 0)?.rings(), 1);
    assert_eq!(rt; part(&collection, 1)?.kind(), Kind::Point);
    Ok(())
}

#[test]
fn ordinates(rt: HostRuntime) -> Result<(), Fail> {
    let mut peak = Shape::new(rt.alloc(), Kind::Point);
    peak.push_points(&[N1, N2])?;
    peak.set_ordinates(Ordinate::Z, &[N3])?;
    assert_eq!(rt; peak.ordinates(Ordinate::Z), [N3].as_slice());
    assert!(rt; peak.ordinates(Ordinate::M).is_empty());
    assert_eq!(rt; point(&peak, 0), Some((Coord(N1), Coord(N2))));
    assert_eq!(rt; peak.rings(), 0);
    Ok(())
}

/// The geometry of the feature above.
fn read<'a>() -> Result<GeometryView<'a>, Fail> {
    let feature = Buf::new(&POINT, 0)
        .root()
        .map_err(|_| Fail::new("no feature"))?;
    let Ok(Some(table)) = feature.table(0) else {
        return Err(Fail::new("no geometry"));
    };
    let mut meter = Meter::new(84, 0);
    GeometryView::read_under(table, 0, 1, &mut meter).map_err(|_| Fail::new("a broken rule"))
}

#[test]
fn copies(rt: HostRuntime) -> Result<(), Fail> {
    let shape = Shape::of(rt.alloc(), &read()?)?;
    assert_eq!(rt; shape.kind(), Kind::Point);
    assert_eq!(rt; shape.points(), 1);
    assert_eq!(rt; point(&shape, 0), Some((Coord(N1), Coord(N2))));
    assert_eq!(rt; shape.rings(), 0);
    assert_eq!(rt; shape.parts(), 0);
    assert!(rt; shape.ordinates(Ordinate::Z).is_empty());
    Ok(())
}

#[test]
fn laid(rt: HostRuntime) -> Result<(), Fail> {
    let mut point = Shape::new(rt.alloc(), Kind::Point);
    point.push_points(&[N1, N2])?;
    let mut feature = FlatTable::new(rt.alloc());
    feature.put_table(0, point.to_table(rt.alloc())?)?;
    let buffer = feature.finish(rt.alloc(), 84)?;
    assert_eq!(rt; buffer.as_slice(), POINT.as_slice());
    Ok(())
}

/// How many bytes the geometry takes, laid as a root.
fn len(shape: &Shape, alloc: Global) -> Result<usize, Fail> {
    Ok(shape.to_table(alloc)?.finish(alloc, 1000)?.len())
}

#[test]
fn ends_and_parts_are_laid(rt: HostRuntime) -> Result<(), Fail> {
    let mut polygon = Shape::new(rt.alloc(), Kind::Polygon);
    polygon.push_points(&[N0, N0, N1, N1])?;
    // the root and the vtable, the table at 24, the points at 40
    assert_eq!(rt; len(&polygon, rt.alloc())?, 76);
    polygon.push_points(&[])?;
    // with the ends of two rings at 40, the points at 56
    assert_eq!(rt; len(&polygon, rt.alloc())?, 92);
    let mut polygons = Shape::new(rt.alloc(), Kind::MultiPolygon);
    polygons.push_part(polygon)?;
    // the vector of parts at 36; the table of the part at 64, its ends at 80, its points at 96
    assert_eq!(rt; len(&polygons, rt.alloc())?, 132);
    Ok(())
}
