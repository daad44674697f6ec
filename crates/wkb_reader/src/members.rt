// Bodies of values whose members are no parts, as shapes: a MultiPoint, a MultiLineString.
ghost use Rattle.std.specs.Prelude.{◌≡◌, ◌*◌, ◌≤◌, length, true, IfErr, IfOk, OnOk};
ghost use Rattle.fgb_schema.specs.Shapes.{no_ordinates, ordinates_in, points_in, rings_in, type_in};
ghost use Rattle.fgb_schema.specs.Tables.{has_rings};
ghost use Rattle.wkb_grammar.specs.Grammar.{bytes_of};
ghost use Rattle.wkb_grammar.specs.ShapesShown.{positions_in};
ghost use Rattle.wkb_reader.specs.Broken.{BreaksBody, BreaksValue, IsMember, member_of};
ghost use Rattle.wkb_reader.specs.Cursors.{Takes};
ghost use Rattle.wkb_reader.specs.Gathered.{Adds, AddsRing};
ghost use Rattle.wkb_reader.specs.Heads.{TakesBody, order_of};
ghost use Rattle.wkb_reader.specs.Refusals.{Refuses};

use crate::cursor::{Cursor, Order, refused};
use crate::head::{Standing, take_head};
use crate::points::{Points, Position};
use crate::shapes::{gather, put_beside, take_ring};
use flat_views::Rule;
use geometry_view::Kind;
use owned_shape::Shape;
use std::alloc::Global;
use wkb_writer::{Dialect, Dimension, WkbError};

/// Takes the body of a MultiPoint at this level, as a shape. Refuses what its members break.
pub(crate) fn take_multi_point(
    alloc: Global,
    cursor: &mut Cursor,
    dialect: Dialect,
    level: usize,
    order: Order,
    dimension: Dimension,
) -> Result<Shape, WkbError>
    ensures ok { IfOk result (TakesBody dialect cursor.old cursor.new (order_of order) 4 dimension) }
    ensures err { IfErr result (Refuses cursor.old.at (BreaksBody dialect level (order_of order) 4 dimension cursor.old.rest.now)) }
{
    let mut points = Points::new(alloc);
    let count = cursor.word(order)?;
    points.reserve((count as usize).min(cursor.rest.len() / 16), dimension)?;
    for _ in 0..count {
        take_member_point(cursor, dialect, level, dimension, &mut points)?;
    }
    let shape = gather(alloc, Kind::MultiPoint, &points)?;
    Ok(shape)
}

/// Takes a Point that is a member of a MultiPoint of this dimension, and puts it behind the others.
fn take_member_point(
    cursor: &mut Cursor,
    dialect: Dialect,
    level: usize,
    dimension: Dimension,
    points: &mut Points,
) -> Result<(), WkbError>
    ensures ok { OnOk result (Takes cursor.old cursor.new bytes_of (IsMember dialect level 4 dimension) (λ v. Adds dimension points.old points.new (positions_in v))) }
    ensures err { IfErr result (Refuses cursor.old.at (BreaksValue dialect level (member_of 4 dimension) cursor.old.rest.now)) }
{
    let start = cursor.at;
    let head = take_head(
        cursor,
        dialect,
        level,
        Standing::MemberOf(Kind::MultiPoint, dimension),
    )?;
    let place = cursor.at;
    let position = Position::take(cursor, head.order, dimension)?;
    if position.is_nowhere() {
        return Err(refused(start, Rule::WkbMember));
    }
    position.judge(place)?;
    points.push(position)?;
    Ok(())
}

/// Takes the body of a MultiLineString at this level, as a shape. Refuses what its members break.
pub(crate) fn take_multi_line(
    alloc: Global,
    cursor: &mut Cursor,
    dialect: Dialect,
    level: usize,
    order: Order,
    dimension: Dimension,
) -> Result<Shape, WkbError>
    ensures ok { IfOk result (TakesBody dialect cursor.old cursor.new (order_of order) 5 dimension) }
    ensures err { IfErr result (Refuses cursor.old.at (BreaksBody dialect level (order_of order) 5 dimension cursor.old.rest.now)) }
{
    let mut shape = Shape::new(alloc, Kind::MultiLineString);
    let mut points = Points::new(alloc);
    let count = cursor.word(order)?;
    for _ in 0..count {
        take_member_line(cursor, dialect, level, dimension, &mut shape, &mut points)?;
    }
    put_beside(&mut shape, &points)?;
    Ok(shape)
}

/// Takes a LineString that is a member of a MultiLineString of this dimension, and puts it into its shape as one more ring.
fn take_member_line(
    cursor: &mut Cursor,
    dialect: Dialect,
    level: usize,
    dimension: Dimension,
    shape: &mut Shape,
    points: &mut Points,
) -> Result<(), WkbError>
    requires ringed { has_rings (type_in shape.old) ≡ true }
    requires bare { ordinates_in shape.old ≡ no_ordinates }
    requires few_points { 16 * length (points_in shape.old) ≤ cursor.old.at }
    requires few_rings { 4 * length (rings_in shape.old) ≤ cursor.old.at }
    ensures ok { OnOk result (Takes cursor.old cursor.new bytes_of (IsMember dialect level 5 dimension) (λ v. AddsRing dimension shape.old shape.new points.old points.new (positions_in v))) }
    ensures err { IfErr result (Refuses cursor.old.at (BreaksValue dialect level (member_of 5 dimension) cursor.old.rest.now)) }
{
    let head = take_head(
        cursor,
        dialect,
        level,
        Standing::MemberOf(Kind::MultiLineString, dimension),
    )?;
    take_ring(cursor, head.order, dimension, shape, points)?;
    Ok(())
}
