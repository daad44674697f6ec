ghost use Rattle.std.specs.Prelude.{◌≡◌, ◌≤◌, length, IfOk};

use super::*;
use fgb_feature::{FeatureView, Value};
use fgb_header::HeaderView;
use flat_builder::{FlatTable, FlatVector, Scalar};
use geometry_view::Kind;
use header_info::HeaderInfo;
use owned_shape::Shape;
use std::alloc::Global;
use std::test::Fail;

/// The patterns of 1 and 2.
const N1: u64 = 0x3ff0_0000_0000_0000;

const N2: u64 = 0x4000_0000_0000_0000;

/// A feature with the Point (1, 2).
const POINT: [u8; 84] = [
    16, 0, 0, 0, 6, 0, 8, 0, 4, 0, 0, 0, 0, 0, 0, 0, 12, 0, 0, 0, 28, 0, 0, 0, 18, 0, 9, 0, 0, 0,
    4, 0, 0, 0, 0, 0, 0, 0, 0, 0, 8, 0, 0, 0, 0, 0, 0, 0, 24, 0, 0, 0, 12, 0, 0, 0, 1, 0, 0, 0, 0,
    0, 0, 0, 2, 0, 0, 0, 0, 0, 0, 0, 0, 0, 240, 63, 0, 0, 0, 0, 0, 0, 0, 64,
];

/// A feature without anything.
const BARE: [u8; 12] = [8, 0, 0, 0, 4, 0, 4, 0, 4, 0, 0, 0];

/// A feature with the name Malta and a population of 519.
const MALTA: [u8; 48] = [
    // the root, the vtable, and four bytes between
    16, 0, 0, 0, 8, 0, 8, 0, 0, 0, 4, 0, 0, 0, 0, 0,
    // the feature
    12, 0, 0, 0, 4, 0, 0, 0,
    // the properties
    17, 0, 0, 0, 0, 0, 5, 0, 0, 0, 77, 97, 108, 116, 97, 1, 0, 7, 2, 0, 0, 0, 0, 0,
];

/// The Point (1, 2).
fn point(alloc: Global) -> Result<Shape, Fail> {
    let mut point = Shape::new(alloc, Kind::Point);
    point.push_points(&[N1, N2])?;
    Ok(point)
}

/// A header with the columns `name`, of type String, and `pop`, of type Int.
fn header(alloc: Global, geometry_type: u8) -> Result<HeaderInfo, Fail>
    requires { geometry_type ≤ 7 }
{
    let mut header = HeaderInfo::plain(alloc, geometry_type);
    header.push_column("name", 11)?;
    header.push_column("pop", 5)?;
    Ok(header)
}

/// A feature that is named Malta, with a population of 519.
fn malta(alloc: Global, geometry: Option<Shape>) -> Result<FeatureInfo, Fail> {
    let mut feature = FeatureInfo::new(alloc, geometry);
    feature.push_prop(0, Value::Str(b"Malta"))?;
    feature.push_prop(1, Value::Int(519))?;
    Ok(feature)
}

/// Whether the feature is laid as these bytes.
fn is_laid(alloc: Global, feature: &FeatureInfo, bytes: &[u8]) -> Result<bool, Fail> {
    let buffer = feature.to_bytes(alloc)?;
    Ok(buffer.as_slice() == bytes)
}

#[test]
fn a_point_is_laid(rt: HostRuntime) -> Result<(), Fail> {
    let feature = FeatureInfo::new(rt.alloc(), Some(point(rt.alloc())?));
    assert!(rt; feature.geometry().is_some());
    assert!(rt; is_laid(rt.alloc(), &feature, &POINT)?);
    Ok(())
}

#[test]
fn properties_are_laid(rt: HostRuntime) -> Result<(), Fail> {
    let bare = FeatureInfo::new(rt.alloc(), None);
    assert!(rt; is_laid(rt.alloc(), &bare, &BARE)?);
    let named = malta(rt.alloc(), None)?;
    assert!(rt; is_laid(rt.alloc(), &named, &MALTA)?);
    Ok(())
}

#[test]
fn pushed_and_laid_and_read_again(rt: HostRuntime) -> Result<(), Fail> {
    let info = header(rt.alloc(), 1)?;
    let feature = malta(rt.alloc(), Some(point(rt.alloc())?))?;
    let head = info.to_bytes(rt.alloc())?;
    let buffer = feature.to_bytes(rt.alloc())?;
    let view = HeaderView::read(head.as_slice(), 12)?;
    let read = FeatureView::read(buffer.as_slice(), 1000, &view)?;
    assert!(rt; read.geometry().is_some());
    let mut properties = read.properties();
    assert_eq!(rt; properties.next(), Some((0, Value::Str(b"Malta"))));
    assert_eq!(rt; properties.next(), Some((1, Value::Int(519))));
    assert_eq!(rt; properties.next(), None);
    Ok(())
}

/// Whether a Point named Malta, with this much more, fits a header of this type with the columns `name` and `pop`.
fn fits(alloc: Global, geometry_type: u8, more: Option<Value>) -> Result<bool, Fail>
    requires { geometry_type ≤ 7 }
{
    let mut feature = malta(alloc, Some(point(alloc)?))?;
    if let Some(value) = more {
        feature.push_prop(1, value)?;
    }
    let header = header(alloc, geometry_type)?;
    Ok(feature.fits(&header))
}

#[test]
fn some_headers_are_fitted(rt: HostRuntime) -> Result<(), Fail> {
    assert!(rt; fits(rt.alloc(), 0, None)?);
    assert!(rt; fits(rt.alloc(), 1, None)?);
    // another geometry type
    assert!(rt; !fits(rt.alloc(), 2, None)?);
    // a value of another type than its column
    assert!(rt; !fits(rt.alloc(), 1, Some(Value::UInt(519)))?);
    Ok(())
}

#[test]
fn no_columns_are_fitted(rt: HostRuntime) -> Result<(), Fail> {
    let feature = malta(rt.alloc(), None)?;
    assert!(rt; !feature.fits(&HeaderInfo::plain(rt.alloc(), 1)));
    Ok(())
}

/// Whether a value that is laid under one column of this type is read again.
fn is_read_again(alloc: Global, kind: u8, value: Value) -> Result<bool, Fail>
    requires { kind ≤ 14 }
{
    let mut info = HeaderInfo::plain(alloc, 0);
    info.push_column("c", kind)?;
    let mut feature = FeatureInfo::new(alloc, None);
    feature.push_prop(0, value)?;
    let head = info.to_bytes(alloc)?;
    let buffer = feature.to_bytes(alloc)?;
    let view = HeaderView::read(head.as_slice(), 12)?;
    let read = FeatureView::read(buffer.as_slice(), 1000, &view)?;
    Ok(feature.fits(&info) && read.properties().next() == Some((0, value)))
}

#[test]
fn small_numbers_are_read_again(rt: HostRuntime) -> Result<(), Fail> {
    assert!(rt; is_read_again(rt.alloc(), 0, Value::Byte(-5))?);
    assert!(rt; is_read_again(rt.alloc(), 1, Value::UByte(200))?);
    assert!(rt; is_read_again(rt.alloc(), 2, Value::Bool(true))?);
    assert!(rt; is_read_again(rt.alloc(), 3, Value::Short(-300))?);
    assert!(rt; is_read_again(rt.alloc(), 4, Value::UShort(60000))?);
    Ok(())
}

#[test]
fn numbers_are_read_again(rt: HostRuntime) -> Result<(), Fail> {
    assert!(rt; is_read_again(rt.alloc(), 5, Value::Int(-70000))?);
    assert!(rt; is_read_again(rt.alloc(), 6, Value::UInt(4_000_000_000))?);
    assert!(rt; is_read_again(rt.alloc(), 7, Value::Long(-2))?);
    assert!(rt; is_read_again(rt.alloc(), 8, Value::ULong(18_446_744_073_709_551_615))?);
    assert!(rt; is_read_again(rt.alloc(), 9, Value::Float(0x7f80_0001))?);
    assert!(rt; is_read_again(rt.alloc(), 10, Value::Double(0xfff0_0000_0000_0000))?);
    Ok(())
}

#[test]
fn texts_are_read_again(rt: HostRuntime) -> Result<(), Fail> {
    assert!(rt; is_read_again(rt.alloc(), 11, Value::Str(b"Malta"))?);
    assert!(rt; is_read_again(rt.alloc(), 12, Value::Json(b"{}"))?);
    assert!(rt; is_read_again(rt.alloc(), 13, Value::DateTime(b"2026"))?);
    assert!(rt; is_read_again(rt.alloc(), 14, Value::Binary(&[255, 0]))?);
    Ok(())
}

// A feature that is read under that header and laid again gives the same bytes.
fn comes_back(rt: &HostRuntime, bytes: &[u8]) -> Result<bool, Fail>
    requires { length bytes.now ≤ 1000 }
{
    let head = header(rt.alloc(), 1)?.to_bytes(rt.alloc())?;
    let view = HeaderView::read(head.as_slice(), 12)?;
    let feature = FeatureView::read(bytes, 1000, &view)?;
    let buffer = FeatureInfo::of(rt.alloc(), &feature)?.to_bytes(rt.alloc())?;
    Ok(buffer.as_slice() == bytes)
}

/// A feature with a yes under a column of its own.
fn with_own_column(alloc: Global) -> Result<Vec<u8>, Fail> {
    let mut column = FlatTable::new(alloc);
    column.put_string(0, "own")?;
    column.put_scalar(1, Scalar::U8(2))?;
    let mut columns = Vec::new(alloc);
    columns.push(column)?;
    let mut feature = FlatTable::new(alloc);
    let pairs = Vec::from_slice(alloc, &[0, 0, 1])?;
    feature.put_vector(1, FlatVector::Bytes(pairs))?;
    feature.put_tables(2, columns)?;
    Ok(feature.finish(alloc, 1000)?)
}

#[test]
fn features_come_back(rt: HostRuntime) -> Result<(), Fail> {
    assert!(rt; comes_back(&rt, &POINT)?);
    assert!(rt; comes_back(&rt, &BARE)?);
    assert!(rt; comes_back(&rt, &MALTA)?);
    let own = with_own_column(rt.alloc())?;
    assert!(rt; own.len() <= 1000);
    assert!(rt; comes_back(&rt, own.as_slice())?);
    Ok(())
}
