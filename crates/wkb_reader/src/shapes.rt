// Bodies of values without members, as shapes: a point, a line, rings.
ghost use Rattle.std.specs.Prelude.{◌≡◌, ◌%◌, ◌*◌, ◌<◌, ◌≤◌, [], length, false, true, IfErr, IfOk, IsTrue, OnOk};
ghost use Rattle.fgb_schema.specs.Shapes.{no_ordinates, ordinates_in, points_in, rings_in, type_in};
ghost use Rattle.fgb_schema.specs.Tables.{has_points, has_rings};
ghost use Rattle.geometry_view.specs.Kinds.{number_of};
ghost use Rattle.geometry_view.specs.declared.kind.Ordinate.TheVariants.{Z, M};
ghost use Rattle.owned_shape.specs.Puts.{with_ordinates};
ghost use Rattle.owned_shape.specs.Records.{IsLevel};
ghost use Rattle.wkb_grammar.specs.Grammar.{IsLine, line_bytes_in};
ghost use Rattle.wkb_writer.specs.declared.dialect.Dialect.{Dialect as Dialects};
ghost use Rattle.wkb_reader.specs.Broken.{BreaksLine, BreaksPolygon, BreaksPosition};
ghost use Rattle.wkb_reader.specs.Cursors.{Takes};
ghost use Rattle.wkb_reader.specs.Gathered.{AddsRing, gathered};
ghost use Rattle.wkb_reader.specs.Heads.{TakesBody, order_of};
ghost use Rattle.wkb_reader.specs.Refusals.{Refuses};

use crate::cursor::{Cursor, Order};
use crate::points::{Points, Position};
use geometry_view::{Kind, Ordinate};
use owned_shape::Shape;
use std::alloc::{AllocError, Global};
use wkb_writer::{Dimension, WkbError};

/// Takes the body of a Point, as a shape. Refuses WkbEnd, NotFinite.
pub(crate) fn take_point(
    alloc: Global,
    cursor: &mut Cursor,
    order: Order,
    dimension: Dimension,
) -> Result<Shape, WkbError>
    ensures ok { (dialect : Dialects) → IfOk result (TakesBody dialect cursor.old cursor.new (order_of order) 1 dimension) }
    ensures err { IfErr result (Refuses cursor.old.at (BreaksPosition (order_of order) dimension true cursor.old.rest.now)) }
{
    let start = cursor.at;
    let position = Position::take(cursor, order, dimension)?;
    if position.is_nowhere() {
        return Ok(Shape::new(alloc, Kind::Point));
    }
    position.judge(start)?;
    let mut points = Points::new(alloc);
    points.push(position)?;
    let shape = gather(alloc, Kind::Point, &points)?;
    Ok(shape)
}

/// Takes the body of a LineString, as a shape. Refuses WkbEnd, NotFinite.
pub(crate) fn take_line(
    alloc: Global,
    cursor: &mut Cursor,
    order: Order,
    dimension: Dimension,
) -> Result<Shape, WkbError>
    ensures ok { (dialect : Dialects) → IfOk result (TakesBody dialect cursor.old cursor.new (order_of order) 2 dimension) }
    ensures err { IfErr result (Refuses cursor.old.at (BreaksLine (order_of order) dimension cursor.old.rest.now)) }
{
    let mut points = Points::new(alloc);
    points.take_line(cursor, order, dimension)?;
    let shape = gather(alloc, Kind::LineString, &points)?;
    Ok(shape)
}

/// Takes the body of a Polygon, as a shape. Refuses WkbEnd, NotFinite.
pub(crate) fn take_polygon(
    alloc: Global,
    cursor: &mut Cursor,
    order: Order,
    dimension: Dimension,
) -> Result<Shape, WkbError>
    ensures ok { (dialect : Dialects) → IfOk result (TakesBody dialect cursor.old cursor.new (order_of order) 3 dimension) }
    ensures err { IfErr result (Refuses cursor.old.at (BreaksPolygon (order_of order) dimension cursor.old.rest.now)) }
{
    let mut shape = Shape::new(alloc, Kind::Polygon);
    let mut points = Points::new(alloc);
    let count = cursor.word(order)?;
    for _ in 0..count {
        take_ring(cursor, order, dimension, &mut shape, &mut points)?;
    }
    put_beside(&mut shape, &points)?;
    Ok(shape)
}

/// Takes a line, and puts it into a shape as one more ring. Its z and its m are put behind those of the other rings.
/// Refuses WkbEnd, NotFinite.
pub(crate) fn take_ring(
    cursor: &mut Cursor,
    order: Order,
    dimension: Dimension,
    shape: &mut Shape,
    points: &mut Points,
) -> Result<(), WkbError>
    requires ringed { has_rings (type_in shape.old) ≡ true }
    requires bare { ordinates_in shape.old ≡ no_ordinates }
    requires few_points { 16 * length (points_in shape.old) ≤ cursor.old.at }
    requires few_rings { 4 * length (rings_in shape.old) ≤ cursor.old.at }
    ensures ok { OnOk result (Takes cursor.old cursor.new (line_bytes_in (order_of order)) (IsLine dimension) (AddsRing dimension shape.old shape.new points.old points.new)) }
    ensures err { IfErr result (Refuses cursor.old.at (BreaksLine (order_of order) dimension cursor.old.rest.now)) }
{
    points.xy.clear();
    points.take_line(cursor, order, dimension)?;
    shape.push_points(&points.xy)?;
    Ok(())
}

/// The shape of this kind with these points, and no rings.
pub(crate) fn gather(alloc: Global, kind: Kind, points: &Points) -> Result<Shape, AllocError>
    requires pointed { IsTrue (has_points (number_of kind)) }
    requires ringless { has_rings (number_of kind) ≡ false }
    requires pairs { length points.now.xy.items % 2 ≡ 0 }
    requires level { IsLevel (gathered (number_of kind) points.now) }
    ensures { IfOk result (λ shape. shape ≡ gathered (number_of kind) points.now) }
{
    let mut shape = Shape::new(alloc, kind);
    shape.push_points(&points.xy)?;
    put_beside(&mut shape, points)?;
    Ok(shape)
}

/// Puts the z and the m of the points beside those of a shape.
pub(crate) fn put_beside(shape: &mut Shape, points: &Points) -> Result<(), AllocError>
    requires pointed { IsTrue (has_points (type_in shape.old)) }
    requires each_z { 0 < length points.now.z.items → length points.now.z.items ≡ length (points_in shape.old) }
    requires each_m { 0 < length points.now.m.items → length points.now.m.items ≡ length (points_in shape.old) }
    ensures { OnOk result (shape.new ≡ with_ordinates (with_ordinates shape.old Z points.now.z.items) M points.now.m.items) }
{
    shape.set_ordinates(Ordinate::Z, &points.z)?;
    shape.set_ordinates(Ordinate::M, &points.m)
}
