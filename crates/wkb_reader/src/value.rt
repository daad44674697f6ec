// Whole values, and those that are parts of others.
ghost use Rattle.std.specs.Prelude.{◌≡◌, ◌+◌, ◌≤◌, true, IfErr, IfOk};
ghost use Rattle.fgb_schema.specs.Tables.{has_parts};
ghost use Rattle.geometry_view.specs.Kinds.{number_of};
ghost use Rattle.owned_shape.specs.Records.{depth};
ghost use Rattle.wkb_grammar.specs.Grammar.{bytes_of};
ghost use Rattle.wkb_grammar.specs.ShapesShown.{shape_of};
ghost use Rattle.wkb_reader.specs.Broken.{BreaksBody, BreaksValue};
ghost use Rattle.wkb_reader.specs.Cursors.{Takes};
ghost use Rattle.wkb_reader.specs.Heads.{Stands, TakesBody, order_of, standing_of};
ghost use Rattle.wkb_reader.specs.Refusals.{Refuses};

use crate::cursor::Cursor;
use crate::head::{Head, Standing, take_head};
use crate::members::{take_multi_line, take_multi_point};
use crate::shapes::{take_line, take_point, take_polygon};
use geometry_view::Kind;
use owned_shape::Shape;
use std::alloc::Global;
use wkb_writer::{Dialect, WkbError};

/// Takes a value at this level, as a shape.
#[cycle(reading)]
pub(crate) fn take_value(
    alloc: Global,
    cursor: &mut Cursor,
    dialect: Dialect,
    level: usize,
    standing: Standing,
) -> Result<Shape, WkbError>
    requires inner { level ≤ 17 }
    requires outer { 1 ≤ level }
    ensures ok { IfOk result (λ shape. Takes cursor.old cursor.new bytes_of (Stands dialect level (standing_of standing)) (λ v. shape ≡ shape_of v)) }
    ensures err { IfErr result (Refuses cursor.old.at (BreaksValue dialect level (standing_of standing) cursor.old.rest.now)) }
{
    let head = take_head(cursor, dialect, level, standing)?;
    take_body(alloc, cursor, dialect, level, head)
}

/// Takes the body of a value at this level, as a shape.
#[cycle(reading)]
fn take_body(
    alloc: Global,
    cursor: &mut Cursor,
    dialect: Dialect,
    level: usize,
    head: Head,
) -> Result<Shape, WkbError>
    requires inner { level ≤ 16 }
    requires outer { 1 ≤ level }
    ensures ok { IfOk result (TakesBody dialect cursor.old cursor.new (order_of head.order) (number_of head.kind) head.dimension) }
    ensures shallow { IfOk result (λ shape. level + depth shape ≤ 17) }
    ensures err { IfErr result (Refuses cursor.old.at (BreaksBody dialect level (order_of head.order) (number_of head.kind) head.dimension cursor.old.rest.now)) }
{
    let Head {
        order,
        dimension,
        ..
    } = head;
    match head.kind {
        Kind::Point => take_point(alloc, cursor, order, dimension),
        Kind::LineString => take_line(alloc, cursor, order, dimension),
        Kind::Polygon => take_polygon(alloc, cursor, order, dimension),
        Kind::MultiPoint => take_multi_point(alloc, cursor, dialect, level, order, dimension),
        Kind::MultiLineString => take_multi_line(alloc, cursor, dialect, level, order, dimension),
        Kind::MultiPolygon | Kind::GeometryCollection => {
            take_parts(alloc, cursor, dialect, level, head)
        }
    }
}

/// Takes the body of a value at this level whose members are its parts, as a shape.
#[cycle(reading)]
fn take_parts(
    alloc: Global,
    cursor: &mut Cursor,
    dialect: Dialect,
    level: usize,
    head: Head,
) -> Result<Shape, WkbError>
    requires parted { has_parts (number_of head.kind) ≡ true }
    requires inner { level ≤ 16 }
    requires outer { 1 ≤ level }
    ensures ok { IfOk result (TakesBody dialect cursor.old cursor.new (order_of head.order) (number_of head.kind) head.dimension) }
    ensures shallow { IfOk result (λ shape. level + depth shape ≤ 17) }
    ensures err { IfErr result (Refuses cursor.old.at (BreaksBody dialect level (order_of head.order) (number_of head.kind) head.dimension cursor.old.rest.now)) }
{
    let mut shape = Shape::new(alloc, head.kind);
    let count = cursor.word(head.order)?;
    for _ in 0..count {
        let part = take_value(
            alloc,
            cursor,
            dialect,
            level + 1,
            Standing::MemberOf(head.kind, head.dimension),
        )?;
        shape.push_part(part)?;
    }
    Ok(shape)
}
