ghost use Rattle.std.specs.Prelude.{◌≡◌, ◌⊎◌, ◌&&◌, ◌+◌, ◌*◌, ◌-◌, ◌<◌, ◌≤◌, IfOk, ⊤};
ghost use Rattle.flat_layout.specs.Layout.{count, entry_place, is_table};
ghost use Rattle.flat_layout.specs.Promises.{Judges};
ghost use Rattle.flat_views.specs.Meters.{left_of, meter_place};
ghost use Rattle.flat_views.specs.TableVecs.{tables_base, tables_bytes, tables_place};
ghost use Rattle.flat_views.specs.Tables.{base_of, bytes_of, place_of};
ghost use Rattle.fgb_schema.specs.Tables.{geometry as geometry_name, is_kind, is_typed, kind_of, part_type, table as table_thing, tables as tables_thing, type_of};
ghost use Rattle.fgb_schema.specs.Paths.{BreaksType, Forbids, geometry_part, offset, thing};
ghost use Rattle.fgb_schema.specs.Shapes.{shape_at};
ghost use Rattle.fgb_schema.specs.Weights.{Goes};
ghost use Rattle.geometry_view.specs.Kinds.{number_of};
ghost use Rattle.geometry_view.specs.Lists.{GoesOwn};
ghost use Rattle.geometry_view.specs.Views.{geometry_shown};

use crate::geometry::GeometryView;
use crate::kind::Kind;
use crate::lists::{Lists, TYPE};
use flat_views::{Broken, Meter, Rule, Table, TableVec};

/// The depth of the geometries that stand deepest.
const MAX_DEPTH: u8 = 16;

impl<'a> GeometryView<'a> {
    /// The geometry in a table, for which this type holds, with all parts below it. The first geometry of
    /// a tree stands at depth 1. The meter then has less by exactly what the whole tree weighs.
    ///
    /// Refuses Field, Offset, Vtable or Vector, and beyond the layout: PairCount or PointCount at a vector
    /// xy, NotFinite at a pattern in it, Ends or Ordinates at their vector, Kind or Depth at the table of a
    /// part, and Weight at the meter's place. The meter then has at most what it had.
    /// (FlatGeobuf, feature.fbs, Geometry)
    #[cycle(tree)]
    #[inline(always)]
    pub fn read(
        table: Table<'a>,
        kind: Kind,
        depth: u8,
        meter: &mut Meter,
    ) -> Result<GeometryView<'a>, Broken>
        requires deep { 1 ≤ depth }
        requires shallow { depth ≤ 16 }
        ensures goes { let b = bytes_of table.entry in let t = place_of table.entry in
            Goes (base_of table.entry) b (geometry_part (number_of kind) depth t) (meter_place meter.old) (left_of meter.old) (left_of meter.new)
            (λ g. geometry_shown g ≡ shape_at (16 - depth) (number_of kind) b t) result }
        ensures depth { IfOk result (λ g. g.depth ≡ depth) }
        ensures place { meter_place meter.new ≡ meter_place meter.old }
    {
        GeometryView::read_tree(table, kind, depth, meter)?;
        Ok(GeometryView { table, kind, depth })
    }

    /// The geometry in a table, to which this type is given from outside, 0 where its own type field
    /// decides: the header's type for the geometry of a feature. Else as `read`; it refuses Depth at the
    /// table too, before it reads anything of it, and Field or Kind for the type that holds.
    #[cycle(tree)]
    #[inline(always)]
    pub fn read_under(
        table: Table<'a>,
        outer: u8,
        depth: u8,
        meter: &mut Meter,
    ) -> Result<GeometryView<'a>, Broken>
        requires { 1 ≤ depth }
        ensures goes { let b = bytes_of table.entry in let t = place_of table.entry in
            Goes (base_of table.entry) b (geometry_part outer depth t) (meter_place meter.old) (left_of meter.old) (left_of meter.new)
            (λ g. geometry_shown g ≡ shape_at (16 - depth) outer b t) result }
        ensures depth { IfOk result (λ g. g.depth ≡ depth) }
        ensures place { meter_place meter.new ≡ meter_place meter.old }
    {
        if depth > MAX_DEPTH {
            return Err(Broken {
                place: table.place(),
                rule: Rule::Depth,
            });
        }
        let kind = kind_under(table, outer)?;
        GeometryView::read(table, kind, depth, meter)
    }

    /// Reads as `read`, and gives no view. A small answer costs less to hand on than a view beside a refusal.
    #[cycle(tree)]
    fn read_tree(table: Table, kind: Kind, depth: u8, meter: &mut Meter) -> Result<(), Broken>
        requires { depth ≤ 16 }
        ensures goes { let b = bytes_of table.entry in let t = place_of table.entry in
            Goes (base_of table.entry) b (geometry_part (number_of kind) depth t) (meter_place meter.old) (left_of meter.old) (left_of meter.new) (λ _. ⊤) result }
        ensures place { meter_place meter.new ≡ meter_place meter.old }
    {
        match own_level(table, kind, meter)? {
            Some(parts) => GeometryView::read_parts(parts, kind, depth, meter),
            None => Ok(()),
        }
    }

    /// Reads the parts of a geometry of this type at this depth, under a meter that has spent the weight
    /// of their list.
    #[cycle(tree)]
    fn read_parts(
        parts: TableVec<'a>,
        kind: Kind,
        depth: u8,
        meter: &mut Meter,
    ) -> Result<(), Broken>
        requires { depth ≤ 16 }
        ensures goes { let b = tables_bytes parts.entry in let v = tables_place parts.entry in
            Goes (tables_base parts.entry) b (thing (tables_thing (geometry_name (part_type (number_of kind)) (depth + 1))) v)
            (meter_place meter.old) (4 * count b v + left_of meter.old) (left_of meter.new) (λ _. ⊤) result }
        ensures place { meter_place meter.new ≡ meter_place meter.old }
    {
        for i in 0..parts.len() {
            GeometryView::read_part(parts, i, type_of_parts(kind), depth, meter)?;
        }
        Ok(())
    }

    /// Reads the i-th part of a geometry at this depth, under a meter.
    #[cycle(tree)]
    fn read_part(
        parts: TableVec<'a>,
        i: usize,
        outer: u8,
        depth: u8,
        meter: &mut Meter,
    ) -> Result<(), Broken>
        requires early { i < count (tables_bytes parts) (tables_place parts) }
        requires shallow { depth ≤ 16 }
        ensures goes { let b = tables_bytes parts.entry in
            let entry = offset (table_thing (geometry_name outer (depth + 1))) (entry_place b (tables_place parts.entry) i) in
            Goes (tables_base parts.entry) b entry (meter_place meter.old) (left_of meter.old) (left_of meter.new) (λ _. ⊤) result }
        ensures place { meter_place meter.new ≡ meter_place meter.old }
    {
        GeometryView::read_under(parts.get(i)?, outer, depth + 1, meter)?;
        Ok(())
    }
}

/// Reads the table of a geometry of this type by itself, under a meter, which then has less by what the table
/// and its vectors weigh, and gives its list of parts. Refuses Field, Offset, Vector, PairCount, PointCount,
/// NotFinite, Ends or Ordinates, or Weight at the meter's place; the meter then has at most what it had.
#[inline(always)]
fn own_level<'a>(
    table: Table<'a>,
    kind: Kind,
    meter: &mut Meter,
) -> Result<Option<TableVec<'a>>, Broken>
    ensures goes { GoesOwn (number_of kind) (base_of table.entry) (bytes_of table.entry) (place_of table.entry) meter.old meter.new result }
    ensures place { meter_place meter.new ≡ meter_place meter.old }
{
    let lists = Lists::read(table, kind)?;
    // before the elements are gone over, which many geometries may share
    meter.spend(lists.weight())?;
    lists.judge(table, kind)?;
    Ok(lists.parts)
}

/// The type that holds for the geometry in a table, to which this type is given from outside. Refuses
/// Field, where its own type field decides, or Kind at the table.
pub(crate) fn kind_under(table: Table, outer: u8) -> Result<Kind, Broken>
    ensures { let b = bytes_of table.entry in let t = place_of table.entry in
        Judges (base_of table.entry)
        (λ q r. BreaksType outer b t q r
        ⊎ Forbids Rule.Kind (is_table b t && is_typed outer b t) (is_kind (type_of outer b t)) t q r)
        (λ kind. kind_of outer b t ≡ number_of kind) result }
{
    let number = type_under(table, outer)?;
    match Kind::of(number) {
        Some(kind) => Ok(kind),
        None => Err(Broken {
            place: table.place(),
            rule: Rule::Kind,
        }),
    }
}

/// Its number, which may be that of no type. Refuses Field.
fn type_under(table: Table, outer: u8) -> Result<u8, Broken>
    ensures { let b = bytes_of table.entry in let t = place_of table.entry in
        Judges (base_of table.entry) (BreaksType outer b t) (λ number. number ≡ type_of outer b t) result }
{
    if outer == 0 {
        table.scalar_u8(TYPE, 0)
    } else {
        Ok(outer)
    }
}

/// The type that is given to the parts of a geometry of this type: those of a MultiPolygon are Polygons.
pub(crate) fn type_of_parts(kind: Kind) -> u8
    ensures { result ≡ part_type (number_of kind) }
{
    match kind {
        Kind::MultiPolygon => Kind::Polygon.number(),
        _ => 0,
    }
}
