ghost use Rattle.std.specs.Prelude.{◌≡◌, ◌≢◌, ◌+◌, ◌-◌, ◌≤◌, ◌<◌, [], length, slice_get, Some, All, IsTrue, MatchOption};
ghost use Rattle.std.specs.Option.{ForSome};
ghost use Rattle.flat_layout.specs.Layout.{count, entry_place, longs, target};
ghost use Rattle.flat_layout.specs.Promises.{IsClean};
ghost use Rattle.flat_views.specs.TableVecs.{tables_bytes, tables_place};
ghost use Rattle.flat_views.specs.Tables.{base_of, bytes_of, place_of};
ghost use Rattle.flat_views.specs.Vectors.{longs_shown, vector_bytes, vector_place, vector_width};
ghost use Rattle.order_keys.specs.Boxes.{IsBox};
ghost use Rattle.order_keys.specs.Keys.{is_finite};
ghost use Rattle.fgb_schema.specs.Tables.{geometry as geometry_name, tables as tables_thing, has_points, part_type};
ghost use Rattle.fgb_schema.specs.Paths.{Breaks, geometry_part, thing};
ghost use Rattle.fgb_schema.specs.Shapes.{box_of_points, pairs_of, shape_at};
ghost use Rattle.geometry_view.specs.Fits.{ShowsRead};
ghost use Rattle.geometry_view.specs.Kinds.{number_of};
ghost use Rattle.geometry_view.specs.Lists.{AreFinite};
ghost use Rattle.geometry_view.specs.Weights.{shape_weight};

use crate::kind::{Kind, Ordinate};
use crate::lists::{ENDS, PARTS, XY, tables_if, vector_if};
use crate::read::{kind_under, type_of_parts};
use flat_views::{Table, TableVec, VecView};
use order_keys::{Bounds, Coord};

/// A geometry, the whole tree of which was read and breaks no rule. (FlatGeobuf, feature.fbs, Geometry)
///
/// It keeps its table alone, and reads a vector again when it is asked for.
#[derive(Clone, Copy)]
pub struct GeometryView<'a> {
    pub(crate) table: Table<'a>,
    pub(crate) kind: Kind,
    pub(crate) depth: u8,
    pub ghost deep: { 1 ≤ depth },
    pub ghost shallow: { depth ≤ 16 },
    // so each vector can be read again, and each part
    pub ghost clean: { IsClean (Breaks (bytes_of table) (geometry_part (number_of kind) depth (place_of table))) },
    // at most 4 times the largest buffer, so sizes in a tree add up without overflow
    pub ghost light: { shape_weight (shape_at (16 - depth) (number_of kind) (bytes_of table) (place_of table)) ≤ 1073741824 },
}

impl<'a> GeometryView<'a> {
    ghost use Rattle.fgb_schema.specs.Shapes.{ordinates_in, parts_in, points as points_of, points_in, rings_in, type_in};
    ghost use Rattle.geometry_view.specs.Views.{geometry_shown, listed, parts_shown, rings_shown};

    /// The type that holds for it.
    pub fn kind(&self) -> Kind
        ensures { number_of result ≡ type_in (geometry_shown self.now) }
    {
        self.kind
    }

    /// How many points it has of its own, without those of its parts.
    pub fn points(&self) -> usize
        ensures { result ≡ length (points_in (geometry_shown self.now)) }
    {
        match self.pairs() {
            Some(xy) => xy.len() / 2,
            None => 0,
        }
    }

    /// The x and the y of its i-th point.
    pub fn xy(&self, i: usize) -> (Coord, Coord)
        requires { i < length (points_in (geometry_shown self.now)) }
        ensures point { slice_get (points_in (geometry_shown self.now)) i ≡ Some (result.0.0, result.1.0) }
        ensures finite_x { IsTrue (is_finite result.0.0) }
        ensures finite_y { IsTrue (is_finite result.1.0) }
    {
        match self.pairs() {
            Some(xy) => pair_at(xy, i),
            None => unreachable!(),
        }
    }

    /// One of the lists beside its points, or None where it is absent or empty.
    pub fn ordinates(&self, which: Ordinate) -> Option<VecView<'a>>
        ensures { let numbers = listed which (ordinates_in (geometry_shown self.now)) in
            MatchOption result (numbers ≡ []) (λ v. (longs_shown result ≡ numbers) × (numbers ≢ []) × (vector_width v ≡ 8)) }
    {
        filled(self.numbers(which.field()))
    }

    /// How many rings it has. Where no ends are given, all its points are one.
    pub fn rings(&self) -> usize
        ensures { result ≡ length (rings_in (geometry_shown self.now)) }
    {
        if !self.kind.has_rings() {
            return 0;
        }
        match filled(self.ends()) {
            Some(ends) => ends.len(),
            None if self.points() > 0 => 1,
            None => 0,
        }
    }

    /// The first point and the end of its i-th ring.
    pub fn ring(&self, i: usize) -> (usize, usize)
        requires { i < length (rings_in (geometry_shown self.now)) }
        ensures { slice_get (rings_in (geometry_shown self.now)) i ≡ Some result }
    {
        let Some(ends) = filled(self.ends()) else {
            return (0, self.points());
        };
        let first = if i == 0 {
            0
        } else {
            ends.at_u32(i - 1) as usize
        };
        (first, ends.at_u32(i) as usize)
    }

    /// How many parts it has.
    pub fn parts(&self) -> usize
        ensures { result ≡ length (parts_in (geometry_shown self.now)) }
    {
        match self.tables() {
            Some(tables) => tables.len(),
            None => 0,
        }
    }

    /// Its i-th part, which stands one level deeper.
    pub fn part(&self, i: usize) -> GeometryView<'a>
        requires { i < length (parts_in (geometry_shown self.now)) }
        ensures shape { slice_get (parts_in (geometry_shown self.now)) i ≡ Some (geometry_shown result) }
        ensures deeper { result.depth ≡ self.now.depth + 1 }
    {
        match self.tables() {
            Some(tables) => GeometryView::sound_part(
                tables,
                i,
                type_of_parts(self.kind),
                self.depth + 1,
            ),
            None => unreachable!(),
        }
    }

    /// The box of its points and of those of its parts, or the empty box where there are none. Of equal keys the
    /// pattern of the first point stays.
    pub fn bounds(&self) -> Bounds
        ensures value { result ≡ box_of_points (points_of (geometry_shown self.now)) }
        ensures sound { IsBox result }
    {
        let mut bounds = self.own_bounds();
        for i in 0..self.parts() {
            bounds = bounds.join(self.part(i).bounds());
        }
        bounds
    }

    /// The box of its own points.
    fn own_bounds(&self) -> Bounds
        ensures value { result ≡ box_of_points (points_in (geometry_shown self.now)) }
        ensures sound { IsBox result }
    {
        match self.pairs() {
            Some(xy) => box_of_pairs(xy),
            None => Bounds::empty(),
        }
    }

    /// The vector of its points, x and y by turns.
    fn pairs(&self) -> Option<VecView<'a>>
        ensures points { pairs_of (longs_shown result) ≡ points_in (geometry_shown self.now) }
        ensures wide { ForSome result (λ v. vector_width v ≡ 8) }
        ensures finite { AreFinite result }
    {
        self.numbers(XY)
    }

    /// The vector of its points, or of some ordinates.
    fn numbers(&self, field: u16) -> Option<VecView<'a>>
        requires first { 1 ≤ field }
        requires last { field ≤ 5 }
        ensures shows { let table = self.now.table in
            ShowsRead (has_points (number_of self.now.kind)) 8 (bytes_of table) (base_of table) (place_of table) field result }
        ensures wide { ForSome result (λ v. vector_width v ≡ 8) }
    {
        match vector_if(self.kind.has_points(), self.table, field, 8) {
            Ok(vector) => vector,
            Err(_) => unreachable!(),
        }
    }

    /// The vector of the ends of its rings.
    fn ends(&self) -> Option<VecView<'a>>
        ensures rings { let shape = geometry_shown self.now in
            rings_in shape ≡ rings_shown (number_of self.now.kind) result (length (points_in shape)) }
        ensures wide { ForSome result (λ v. vector_width v ≡ 4) }
    {
        match vector_if(self.kind.has_rings(), self.table, ENDS, 4) {
            Ok(vector) => vector,
            Err(_) => unreachable!(),
        }
    }

    /// The list of its parts, which breaks no rule.
    fn tables(&self) -> Option<TableVec<'a>>
        ensures parts { parts_in (geometry_shown self.now) ≡ parts_shown (15 - self.now.depth) (part_type (number_of self.now.kind)) result }
        ensures clean { let name = geometry_name (part_type (number_of self.now.kind)) (self.now.depth + 1) in
            ForSome result (λ tables. IsClean (Breaks (tables_bytes tables) (thing (tables_thing name) (tables_place tables)))) }
    {
        match tables_if(self.kind.has_parts(), self.table, PARTS) {
            Ok(tables) => tables,
            Err(_) => unreachable!(),
        }
    }

    /// The geometry of the i-th entry of a list that breaks no rule, to which this type is given from outside.
    fn sound_part(tables: TableVec<'a>, i: usize, outer: u8, depth: u8) -> GeometryView<'a>
        requires early { i < count (tables_bytes tables) (tables_place tables) }
        requires clean { IsClean (Breaks (tables_bytes tables) (thing (tables_thing (geometry_name outer depth)) (tables_place tables))) }
        requires deep { 1 ≤ depth }
        requires light { let b = tables_bytes tables in
            shape_weight (shape_at (16 - depth) outer b (target b (entry_place b (tables_place tables) i))) ≤ 1073741824 }
        ensures shape { let b = tables_bytes tables.entry in
            geometry_shown result ≡ shape_at (16 - depth) outer b (target b (entry_place b (tables_place tables.entry) i)) }
        ensures depth { result.depth ≡ depth }
    {
        match tables.get(i) {
            Ok(table) => GeometryView::sound_geometry(table, outer, depth),
            Err(_) => unreachable!(),
        }
    }

    /// The geometry of a table that breaks no rule, to which this type is given from outside.
    fn sound_geometry(table: Table<'a>, outer: u8, depth: u8) -> GeometryView<'a>
        requires clean { IsClean (Breaks (bytes_of table) (geometry_part outer depth (place_of table))) }
        requires deep { 1 ≤ depth }
        requires light { shape_weight (shape_at (16 - depth) outer (bytes_of table) (place_of table)) ≤ 1073741824 }
        ensures shape { geometry_shown result ≡ shape_at (16 - depth) outer (bytes_of table.entry) (place_of table.entry) }
        ensures depth { result.depth ≡ depth }
    {
        match kind_under(table, outer) {
            Ok(kind) => GeometryView { table, kind, depth },
            Err(_) => unreachable!(),
        }
    }
}

/// The box of the points of a vector.
fn box_of_pairs(xy: VecView) -> Bounds
    requires wide { vector_width xy ≡ 8 }
    requires finite { All (λ x. IsTrue (is_finite x)) (longs (vector_bytes xy) (vector_place xy)) }
    ensures value { result ≡ box_of_points (pairs_of (longs (vector_bytes xy.entry) (vector_place xy.entry))) }
    ensures sound { IsBox result }
{
    let mut bounds = Bounds::empty();
    for i in 0..xy.len() / 2 {
        let (x, y) = pair_at(xy, i);
        bounds = bounds.join(Bounds::of_point(x, y));
    }
    bounds
}

/// The i-th point of a vector.
fn pair_at(xy: VecView, i: usize) -> (Coord, Coord)
    requires wide { vector_width xy ≡ 8 }
    requires finite { All (λ x. IsTrue (is_finite x)) (longs (vector_bytes xy) (vector_place xy)) }
    requires early { i < length (pairs_of (longs (vector_bytes xy) (vector_place xy))) }
    ensures point { slice_get (pairs_of (longs (vector_bytes xy.entry) (vector_place xy.entry))) i ≡ Some (result.0.0, result.1.0) }
    ensures finite_x { IsTrue (is_finite result.0.0) }
    ensures finite_y { IsTrue (is_finite result.1.0) }
{
    (Coord(xy.at_u64(2 * i)), Coord(xy.at_u64(2 * i + 1)))
}

/// The vector, if it is there and has elements.
fn filled<'a>(list: Option<VecView<'a>>) -> Option<VecView<'a>>
    ensures { MatchOption result (ForSome list.entry (λ v. count (vector_bytes v) (vector_place v) ≡ 0))
        (λ v. (list.entry ≡ Some v) × (0 < count (vector_bytes v) (vector_place v))) }
{
    match list {
        Some(vector) if vector.len() > 0 => Some(vector),
        _ => None,
    }
}
