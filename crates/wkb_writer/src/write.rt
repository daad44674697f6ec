// The bytes of a shape.
ghost use Rattle.std.specs.Prelude.{◌≡◌, ◌≤◌, ◌+◌, ◌∷◌, ◌++◌, length, map, IfOk, IfErr, OnOk};
ghost use Rattle.fgb_schema.specs.Shapes.{parts_in, points_in, rings_in};
ghost use Rattle.geometry_view.specs.Kinds.{number_of};
ghost use Rattle.geometry_view.specs.Views.{geometry_shown};
ghost use Rattle.wkb_writer.specs.Levels.{IsRing, rows_in};
ghost use Rattle.wkb_writer.specs.Refusals.{IsRefusal};
ghost use Rattle.byteorder.specs.Endian.{little_bytes};
ghost use Rattle.wkb_writer.specs.Wkb.{IsEwkb, IsWkb, body_of, counted, head as head_bytes, line_bytes, number_in, point_body, ring_of, row_bytes, srid_flag, value_in};
ghost use Rattle.wkb_writer.specs.declared.dialect.Dialect.TheVariants.{Extended};

use crate::dialect::Dialect;
use crate::dimension::{Dimension, dimension_in, own_dimension};
use crate::error::WkbError;
use crate::rows::{Row, put_count};
use crate::shows::{Owned, Shows};
use geometry_view::{GeometryView, Kind};
use owned_shape::Shape;
use std::alloc::{AllocError, Global};

/// The bits of a type of EWKB that say that there are z, m and the number of a reference system.
const Z_FLAG: u32 = 0x8000_0000;

const M_FLAG: u32 = 0x4000_0000;

const SRID_FLAG: u32 = 0x2000_0000;

/// The WKB of a geometry that was read. Refuses NoWkb at 0 where it has times, or points of two dimensions.
pub fn write_wkb(alloc: Global, view: &GeometryView<'_>) -> Result<Vec<u8>, WkbError>
    ensures written { IfOk result (λ bytes. IsWkb (geometry_shown view.now) bytes.items) }
    ensures refused { IfErr result (IsRefusal (geometry_shown view.now)) }
{
    write(alloc, view)
}

/// The WKB of an owned shape. Refuses NoWkb at 0 where it has times, or points of two dimensions.
pub fn write_shape(alloc: Global, shape: &Shape) -> Result<Vec<u8>, WkbError>
    ensures written { IfOk result (λ bytes. IsWkb shape.now bytes.items) }
    ensures refused { IfErr result (IsRefusal shape.now) }
{
    write(alloc, &Owned::of(shape))
}

/// The EWKB of a geometry that was read, whose outermost value says the number of its reference system. Refuses NoWkb at 0
/// where it has times, or points of two dimensions. (PostGIS, "Extended WKB")
pub fn write_ewkb(alloc: Global, view: &GeometryView<'_>, srid: u32) -> Result<Vec<u8>, WkbError>
    ensures written { IfOk result (λ bytes. IsEwkb srid (geometry_shown view.now) bytes.items) }
    ensures refused { IfErr result (IsRefusal (geometry_shown view.now)) }
{
    let dimension = dimension_in(view)?;
    let mut out = Vec::new(alloc);
    out.extend_from_slice(&head_with_srid(view.kind(), dimension, srid))?;
    put_body(&mut out, view, Dialect::Extended, dimension)?;
    Ok(out)
}

/// The WKB of a geometry.
fn write<S: Shows>(alloc: Global, view: &S) -> Result<Vec<u8>, WkbError>
    ensures written { IfOk result (λ bytes. IsWkb (S.shown view.now) bytes.items) }
    ensures refused { IfErr result (IsRefusal (S.shown view.now)) }
{
    let dimension = dimension_in(view)?;
    let mut out = Vec::new(alloc);
    put_value(&mut out, view, Dialect::Iso, dimension)?;
    Ok(out)
}

/// Appends the value of a geometry all of whose points are of this dimension.
#[cycle(writing)]
fn put_value<S: Shows>(
    out: &mut Vec<u8>,
    view: &S,
    dialect: Dialect,
    dimension: Dimension,
) -> Result<(), AllocError>
    ensures { OnOk result (out.new.items ≡ out.old.items ++ value_in dialect dimension (S.shown view.now)) }
{
    out.extend_from_slice(&head(dialect, view.kind(), dimension))?;
    put_body(out, view, dialect, dimension)
}

/// Appends what follows the head of the value of a geometry all of whose points are of this dimension.
#[cycle(writing)]
fn put_body<S: Shows>(
    out: &mut Vec<u8>,
    view: &S,
    dialect: Dialect,
    dimension: Dimension,
) -> Result<(), AllocError>
    ensures { OnOk result (out.new.items ≡ out.old.items ++ body_of dialect dimension (S.shown view.now)) }
{
    match view.kind() {
        Kind::Point => put_point(out, view, dimension),
        Kind::LineString => put_line(out, view, (0, view.points())),
        Kind::Polygon => put_lines(out, view, &[]),
        Kind::MultiPoint => put_points(out, view, dialect, dimension),
        Kind::MultiLineString => put_lines(out, view, &head(dialect, Kind::LineString, dimension)),
        Kind::MultiPolygon | Kind::GeometryCollection => put_parts(out, view, dialect, dimension),
    }
}

/// Appends the values of the parts, and in front of them how many they are.
#[cycle(writing)]
fn put_parts<S: Shows>(
    out: &mut Vec<u8>,
    view: &S,
    dialect: Dialect,
    dimension: Dimension,
) -> Result<(), AllocError>
    ensures { OnOk result (out.new.items ≡ out.old.items ++ counted (map (value_in dialect dimension) (parts_in (S.shown view.now)))) }
{
    let count = view.parts();
    put_count(out, count)?;
    for i in 0..count {
        put_value(out, &view.part(i), dialect, dimension)?;
    }
    Ok(())
}

/// Appends the body of a Point.
fn put_point<S: Shows>(out: &mut Vec<u8>, view: &S, dimension: Dimension) -> Result<(), AllocError>
    ensures { OnOk result (out.new.items ≡ out.old.items ++ point_body dimension (rows_in (S.shown view.now))) }
{
    if view.points() == 0 {
        return Row::nowhere(dimension).put(out);
    }
    Row::at(view, own_dimension(view), 0).put(out)
}

/// Appends a Point for each point, and in front of them how many they are.
fn put_points<S: Shows>(
    out: &mut Vec<u8>,
    view: &S,
    dialect: Dialect,
    dimension: Dimension,
) -> Result<(), AllocError>
    ensures { OnOk result (out.new.items ≡ out.old.items ++ counted (map (λ row. head_bytes dialect 1 dimension ++ row_bytes row) (rows_in (S.shown view.now)))) }
{
    let head = head(dialect, Kind::Point, dimension);
    let own = own_dimension(view);
    let count = view.points();
    out.reserve(count * (5 + own.size()))?;
    put_count(out, count)?;
    for i in 0..count {
        out.extend_from_slice(&head)?;
        Row::at(view, own, i).put(out)?;
    }
    Ok(())
}

/// Appends the points of each ring behind this front, and in front of the rings how many they are.
fn put_lines<S: Shows>(out: &mut Vec<u8>, view: &S, front: &[u8]) -> Result<(), AllocError>
    ensures { let points = rows_in (S.shown view.now) in
        OnOk result (out.new.items ≡ out.old.items ++ counted (map (λ ring. front.now ++ line_bytes (ring_of points ring)) (rings_in (S.shown view.now)))) }
{
    let count = view.rings();
    put_count(out, count)?;
    for i in 0..count {
        out.extend_from_slice(front)?;
        put_line(out, view, view.ring(i))?;
    }
    Ok(())
}

/// Appends the points of a ring, and in front of them how many they are.
fn put_line<S: Shows>(out: &mut Vec<u8>, view: &S, ring: (usize, usize)) -> Result<(), AllocError>
    requires { IsRing (length (points_in (S.shown view.now))) ring }
    ensures { OnOk result (out.new.items ≡ out.old.items ++ line_bytes (ring_of (rows_in (S.shown view.now)) ring)) }
{
    let (first, end) = ring;
    let own = own_dimension(view);
    out.reserve((end - first) * own.size())?;
    put_count(out, end - first)?;
    for i in first..end {
        Row::at(view, own, i).put(out)?;
    }
    Ok(())
}

/// The byte order and the type in front of a value.
fn head(dialect: Dialect, kind: Kind, dimension: Dimension) -> [u8; 5]
    ensures { result ≡ head_bytes dialect (number_of kind) dimension }
{
    let [a, b, c, d] = type_number(dialect, kind, dimension).to_le_bytes();
    [1, a, b, c, d]
}

/// The byte order, the type and the number of a reference system in front of an outermost value.
fn head_with_srid(kind: Kind, dimension: Dimension, srid: u32) -> [u8; 9]
    ensures { result ≡ 1 ∷ little_bytes 4 (number_in Extended (number_of kind) dimension + srid_flag) ++ little_bytes 4 srid }
{
    let number = type_number(Dialect::Extended, kind, dimension) + SRID_FLAG;
    let [a, b, c, d] = number.to_le_bytes();
    let [e, f, g, h] = srid.to_le_bytes();
    [1, a, b, c, d, e, f, g, h]
}

/// The number of a type: that of its kind, with more for z and for m.
fn type_number(dialect: Dialect, kind: Kind, dimension: Dimension) -> u32
    ensures all { result ≡ number_in dialect (number_of kind) dimension }
    ensures few { result ≤ 3221225727 }
{
    let (for_z, for_m) = match dialect {
        Dialect::Iso => (1000, 2000),
        Dialect::Extended => (Z_FLAG, M_FLAG),
    };
    let z = if dimension.z { for_z } else { 0 };
    let m = if dimension.m { for_m } else { 0 };
    u32::from(kind.number()) + z + m
}
