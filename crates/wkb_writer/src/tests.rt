ghost use Rattle.std.specs.Prelude.{◌≡◌, length, IfOk};
ghost use Rattle.fgb_schema.specs.Shapes.{points_in, type_in};
ghost use Rattle.owned_shape.specs.Records.{depth};

use super::*;
use flat_views::{Broken, Buf, Meter, Rule};
use geometry_view::{GeometryView, Kind, Ordinate};
use owned_shape::Shape;
use std::alloc::Global;
use std::test::Fail;

/// The patterns of 1 and 2.
const N1: u64 = 0x3ff0_0000_0000_0000;

const N2: u64 = 0x4000_0000_0000_0000;

/// A feature with the Point (1, 2).
const FEATURE: [u8; 84] = [
    16, 0, 0, 0, 6, 0, 8, 0, 4, 0, 0, 0, 0, 0, 0, 0, 12, 0, 0, 0, 28, 0, 0, 0, 18, 0, 9, 0, 0, 0,
    4, 0, 0, 0, 0, 0, 0, 0, 0, 0, 8, 0, 0, 0, 0, 0, 0, 0, 24, 0, 0, 0, 12, 0, 0, 0, 1, 0, 0, 0, 0,
    0, 0, 0, 2, 0, 0, 0, 0, 0, 0, 0, 0, 0, 240, 63, 0, 0, 0, 0, 0, 0, 0, 64,
];

/// The Point (1, 2) as WKB.
const POINT: [u8; 21] = [
    1, 1, 0, 0, 0, 0, 0, 0, 0, 0, 0, 240, 63, 0, 0, 0, 0, 0, 0, 0, 64,
];

/// The Point (1, 2) as EWKB, in the reference system 4326.
const EXTENDED: [u8; 25] = [
    1, 1, 0, 0, 0x20, 0xe6, 0x10, 0, 0, 0, 0, 0, 0, 0, 0, 240, 63, 0, 0, 0, 0, 0, 0, 0, 64,
];

/// The empty Point as WKB.
const EMPTY: [u8; 21] = [
    1, 1, 0, 0, 0, 0, 0, 0, 0, 0, 0, 248, 127, 0, 0, 0, 0, 0, 0, 248, 127,
];

/// The Point (1, 2).
fn point(alloc: Global) -> Result<Shape, Fail>
    ensures kind { IfOk result (λ s. type_in s ≡ 1) }
    ensures one { IfOk result (λ s. length (points_in s) ≡ 1) }
    ensures flat { IfOk result (λ s. depth s ≡ 1) }
{
    let mut point = Shape::new(alloc, Kind::Point);
    point.push_points(&[N1, N2])?;
    Ok(point)
}

/// What a shape is written as, or a failure.
fn written(alloc: Global, shape: &Shape) -> Result<Vec<u8>, Fail> {
    write_shape(alloc, shape).map_err(|_| Fail::new("not written"))
}

#[test]
fn points(rt: HostRuntime) -> Result<(), Fail> {
    let bytes = written(rt.alloc(), &point(rt.alloc())?)?;
    assert_eq!(rt; bytes.as_slice(), POINT.as_slice());
    let bytes = written(rt.alloc(), &Shape::new(rt.alloc(), Kind::Point))?;
    assert_eq!(rt; bytes.as_slice(), EMPTY.as_slice());
    Ok(())
}

#[test]
fn several(rt: HostRuntime) -> Result<(), Fail> {
    let mut points = Shape::new(rt.alloc(), Kind::MultiPoint);
    points.push_points(&[N1, N2, N1, N2])?;
    let bytes = written(rt.alloc(), &points)?;
    let mut wanted = Vec::from_slice(rt.alloc(), &[1, 4, 0, 0, 0, 2, 0, 0, 0])?;
    wanted.extend_from_slice(&POINT)?;
    wanted.extend_from_slice(&POINT)?;
    assert_eq!(rt; bytes.as_slice(), wanted.as_slice());
    Ok(())
}

#[test]
fn collection(rt: HostRuntime) -> Result<(), Fail> {
    let mut collection = Shape::new(rt.alloc(), Kind::GeometryCollection);
    collection.push_part(point(rt.alloc())?)?;
    let bytes = written(rt.alloc(), &collection)?;
    let mut wanted = Vec::from_slice(rt.alloc(), &[1, 7, 0, 0, 0, 1, 0, 0, 0])?;
    wanted.extend_from_slice(&POINT)?;
    assert_eq!(rt; bytes.as_slice(), wanted.as_slice());
    Ok(())
}

#[test]
fn times(rt: HostRuntime) -> Result<(), Fail> {
    let mut timed = point(rt.alloc())?;
    timed.set_ordinates(Ordinate::T, &[N1])?;
    let (place, rule) = (0, Rule::NoWkb);
    assert_eq!(rt;
        write_shape(rt.alloc(), &timed).err(),
        Some(WkbError::Refused(Broken { place, rule }))
    );
    Ok(())
}

/// The geometry of the feature above.
fn read<'a>() -> Result<GeometryView<'a>, Fail> {
    let feature = Buf::new(&FEATURE, 0)
        .root()
        .map_err(|_| Fail::new("no feature"))?;
    let Ok(Some(table)) = feature.table(0) else {
        return Err(Fail::new("no geometry"));
    };
    let mut meter = Meter::new(84, 0);
    GeometryView::read_under(table, 0, 1, &mut meter).map_err(|_| Fail::new("a broken rule"))
}

#[test]
fn views(rt: HostRuntime) -> Result<(), Fail> {
    let bytes = write_wkb(rt.alloc(), &read()?).map_err(|_| Fail::new("not written"))?;
    assert_eq!(rt; bytes.as_slice(), POINT.as_slice());
    let bytes = write_ewkb(rt.alloc(), &read()?, 4326).map_err(|_| Fail::new("not written"))?;
    assert_eq!(rt; bytes.as_slice(), EXTENDED.as_slice());
    Ok(())
}

#[test]
fn sizes(rt: HostRuntime) -> Result<(), Fail> {
    let size = wkb_size(&read()?).map_err(|_| Fail::new("no size"))?;
    assert_eq!(rt; size, 21);
    Ok(())
}
