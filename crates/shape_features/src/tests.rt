ghost use Rattle.std.specs.Prelude.{◌≡◌, length, IfOk};
ghost use Rattle.fgb_schema.specs.Shapes.{points_in, type_in};
ghost use Rattle.owned_shape.specs.Records.{depth};

use super::*;
use fgb_header::HeaderView;
use geometry_view::{Kind, Ordinate};
use owned_shape::Shape;
use std::alloc::Global;
use std::test::Fail;

/// The patterns of 1 and 2.
const N1: u64 = 0x3ff0_0000_0000_0000;

const N2: u64 = 0x4000_0000_0000_0000;

/// The header over one Point without z and m.
const HEADER: [u8; 48] = [
    // the root, the vtable, and four bytes between
    32, 0, 0, 0, 24, 0, 14, 0, 0, 0, 0, 0, 0, 0, 0, 0, 0, 0, 0, 0, 0, 0, 0, 0, 4, 0, 12, 0, 0, 0,
    0, 0,
    // the header: its vtable, the number of features, and no index
    28, 0, 0, 0, 1, 0, 0, 0, 0, 0, 0, 0, 0, 0, 0, 0,
];

/// The feature with the Point (1, 2).
const POINT: [u8; 84] = [
    16, 0, 0, 0, 6, 0, 8, 0, 4, 0, 0, 0, 0, 0, 0, 0, 12, 0, 0, 0, 28, 0, 0, 0, 18, 0, 9, 0, 0, 0,
    4, 0, 0, 0, 0, 0, 0, 0, 0, 0, 8, 0, 0, 0, 0, 0, 0, 0, 24, 0, 0, 0, 12, 0, 0, 0, 1, 0, 0, 0, 0,
    0, 0, 0, 2, 0, 0, 0, 0, 0, 0, 0, 0, 0, 240, 63, 0, 0, 0, 0, 0, 0, 0, 64,
];

/// The Point (1, 2).
fn point(alloc: Global) -> Result<Shape, Fail>
    ensures kind { IfOk result (λ s. type_in s ≡ 1) }
    ensures one { IfOk result (λ s. length (points_in s) ≡ 1) }
    ensures flat { IfOk result (λ s. depth s ≡ 1) }
{
    let mut point = Shape::new(alloc, Kind::Point);
    point.push_points(&[N1, N2])?;
    Ok(point)
}

/// The header over a collection of this shape and a point.
fn header_of(alloc: Global, part: Shape) -> Result<Vec<u8>, Fail>
    requires { depth part ≡ 1 }
{
    let mut collection = Shape::new(alloc, Kind::GeometryCollection);
    collection.push_part(part)?;
    let mut shapes = Vec::new(alloc);
    shapes.push(point(alloc)?)?;
    shapes.push(collection)?;
    Ok(header_over(alloc, &shapes).to_bytes(alloc)?)
}

#[test]
fn a_point_is_a_feature(rt: HostRuntime) -> Result<(), Fail> {
    let mut shapes = Vec::new(rt.alloc());
    shapes.push(point(rt.alloc())?)?;
    let header = header_over(rt.alloc(), &shapes);
    assert_eq!(rt; header.to_bytes(rt.alloc())?.as_slice(), HEADER.as_slice());
    let features = features_over(rt.alloc(), shapes)?;
    assert_eq!(rt; features.len(), 1);
    assert!(rt; features[0].fits(&header));
    assert_eq!(rt;
        features[0].to_bytes(rt.alloc())?.as_slice(),
        POINT.as_slice()
    );
    Ok(())
}

#[test]
fn a_part_has_z(rt: HostRuntime) -> Result<(), Fail> {
    let mut high = point(rt.alloc())?;
    high.set_ordinates(Ordinate::Z, &[N1])?;
    let bytes = header_of(rt.alloc(), high)?;
    assert!(rt; bytes.len() < 100);
    let header = HeaderView::read(bytes.as_slice(), 12)?;
    assert_eq!(rt; (header.has_z(), header.has_m()), (true, false));
    assert_eq!(rt; header.features_count(), 2);
    Ok(())
}

#[test]
fn no_part_has_z(rt: HostRuntime) -> Result<(), Fail> {
    let bytes = header_of(rt.alloc(), point(rt.alloc())?)?;
    assert!(rt; bytes.len() < 100);
    let header = HeaderView::read(bytes.as_slice(), 12)?;
    assert_eq!(rt; (header.has_z(), header.has_m()), (false, false));
    Ok(())
}
