// A geometry that is owned.
ghost use Rattle.std.specs.Prelude.{◌≡◌, ◌+◌, ◌-◌, ◌%◌, ◌/◌, ◌^◌, ◌<◌, ◌≤◌, [], ◌∷◌, ◌++◌, length, slice_get, slice_index, max, Some, All, IsTrue, OnErr, OnOk};
ghost use Rattle.order_keys.specs.Keys.{is_finite};
ghost use Rattle.fgb_schema.specs.Tables.{has_points, has_rings};
ghost use Rattle.fgb_schema.specs.Shapes.{shape as shape_of, none, no_ordinates, ordinates_in, pairs_of, parts_in, points_in, rings_in, type_in};
ghost use Rattle.geometry_view.specs.Kinds.{number_of};
ghost use Rattle.geometry_view.specs.Views.{listed};
ghost use Rattle.owned_shape.specs.Records.{IsRecord, depth};
ghost use Rattle.owned_shape.specs.Puts.{takes_part, with_ordinates, with_part, with_points};

use crate::lists::Lists;
use geometry_view::{Kind, Ordinate};
use order_keys::Coord;
use std::alloc::{AllocError, Global};
use std::marker::Model;

/// A geometry that is owned, seen as the shape that it shows. (FlatGeobuf, feature.fbs, Geometry)
#[derive(Drop)]
pub struct Shape {
    pub(crate) kind: Kind,
    // x and y by turns
    pub(crate) xy: Vec<u64>,
    // the end of each ring, in points
    pub(crate) ends: Vec<u32>,
    pub(crate) lists: Lists,
    pub(crate) parts: Vec<Shape>,
}

impl Model for Shape {
    ghost use Rattle.fgb_schema.specs.Shapes.{Shape as Tree};
    ghost use Rattle.owned_shape.specs.Codes.{shape_code};

    ghost Value = { Tree };

    ghost coded = { shape_code };

    ghost use Rattle.owned_shape.specs.Owned.{IsOwned, owned_shape};

    ghost view = { owned_shape };

    ghost invariant = { IsOwned };

    ghost use Rattle.owned_shape.specs.Records.{depth};

    ghost size = { depth };

    ghost use Rattle.owned_shape.specs.Depths.{parts_hold};

    ghost size_decreases = { λ s _. parts_hold s };
}

impl Shape {
    /// A shape of this type with no points and no parts. It takes no memory.
    pub fn new(alloc: Global, kind: Kind) -> Shape
        ensures { result ≡ shape_of (number_of kind) [] [] no_ordinates none }
    {
        Shape {
            kind,
            xy: Vec::new(alloc),
            ends: Vec::new(alloc),
            lists: Lists::new(alloc),
            parts: Vec::new(alloc),
        }
    }

    /// Puts points behind the others, given by x and y in turns. Those of a Polygon or a MultiLineString are one more
    /// ring.
    pub fn push_points(&mut self, xy: &[u64]) -> Result<(), AllocError>
        requires pairs { length xy.now % 2 ≡ 0 }
        requires finite { All (λ x. IsTrue (is_finite x)) xy.now }
        requires known { IsTrue (has_points (type_in self.old)) }
        requires bare { ordinates_in self.old ≡ no_ordinates }
        requires single { type_in self.old ≡ 1 → length (points_in (with_points self.old (pairs_of xy.now))) ≤ 1 }
        requires few_points { length (points_in (with_points self.old (pairs_of xy.now))) ≤ 268435456 }
        requires few_rings { length (rings_in (with_points self.old (pairs_of xy.now))) ≤ 268435456 }
        ensures ok { OnOk result (self.new ≡ with_points self.old (pairs_of xy.now)) }
        ensures err { OnErr result (self.new ≡ self.old) }
    {
        if has_rings(self.kind) {
            add_ring(&mut self.xy, &mut self.ends, xy)?;
            return Ok(());
        }
        self.xy.extend_from_slice(xy)?;
        Ok(())
    }

    /// Puts numbers beside the points, one for each of them or none, in the place of those that were there.
    pub fn set_ordinates(&mut self, which: Ordinate, values: &[u64]) -> Result<(), AllocError>
        requires known { IsTrue (has_points (type_in self.old)) }
        requires each { 0 < length values.now → length values.now ≡ length (points_in self.old) }
        ensures ok { OnOk result (self.new ≡ with_ordinates self.old which values.now) }
        ensures err { OnErr result (self.new ≡ self.old) }
    {
        let list = Vec::from_slice(*self.xy.allocator(), values)?;
        self.lists.set(which, list);
        Ok(())
    }

    /// Puts a part behind the others. It is dropped where there is no memory.
    pub fn push_part(&mut self, part: Shape) -> Result<(), AllocError>
        requires known { IsTrue (takes_part (type_in self.old) (type_in part)) }
        requires shallow { depth part ≤ 15 }
        requires few { length (parts_in self.old) < 268435456 }
        ensures ok { OnOk result (self.new ≡ with_part self.old part) }
        ensures deep { OnOk result (depth self.new ≡ max (depth self.old) (depth part + 1)) }
        ensures err { OnErr result (self.new ≡ self.old) }
    {
        // so that what it keeps is known
        let _ = &part.kind;
        self.parts.push(part)?;
        Ok(())
    }

    /// The type.
    pub fn kind(&self) -> Kind
        ensures value { number_of result ≡ type_in self.now }
        ensures sound { IsRecord self.now }
    {
        self.kind
    }

    /// How many points it has of its own, without those of its parts.
    pub fn points(&self) -> usize
        ensures { result ≡ length (points_in self.now) }
    {
        self.xy.len() / 2
    }

    /// The x and the y of its i-th point.
    pub fn xy(&self, i: usize) -> (Coord, Coord)
        requires { i < length (points_in self.now) }
        ensures point { slice_get (points_in self.now) i ≡ Some (result.0.0, result.1.0) }
        ensures finite_x { IsTrue (is_finite result.0.0) }
        ensures finite_y { IsTrue (is_finite result.1.0) }
    {
        (Coord(self.xy[2 * i]), Coord(self.xy[2 * i + 1]))
    }

    /// The numbers of one kind beside its points, one for each of them or none.
    pub fn ordinates(&self, which: Ordinate) -> &[u64]
        ensures { result.now ≡ listed which (ordinates_in self.now) }
    {
        self.lists.get(which)
    }

    /// How many rings it has.
    pub fn rings(&self) -> usize
        ensures { result ≡ length (rings_in self.now) }
    {
        self.ends.len()
    }

    /// The first point and the end of its i-th ring.
    pub fn ring(&self, i: usize) -> (usize, usize)
        requires { i < length (rings_in self.now) }
        ensures { slice_get (rings_in self.now) i ≡ Some result }
    {
        (start_of(&self.ends, i), self.ends[i] as usize)
    }

    /// How many parts it has.
    pub fn parts(&self) -> usize
        ensures { result ≡ length (parts_in self.now) }
    {
        self.parts.len()
    }

    /// Its i-th part.
    pub fn part(&self, i: usize) -> &Shape
        requires { i < length (parts_in self.now) }
        ensures { slice_get (parts_in self.now) i ≡ Some result.now }
    {
        &self.parts[i]
    }
}

/// The first point of the i-th ring of those with these ends.
fn start_of(ends: &[u32], i: usize) -> usize
    requires { i < length ends.now }
    ensures first { i ≡ 0 → result ≡ 0 }
    ensures later { 0 < i → result ≡ slice_index ends.now (i - 1) }
{
    if i == 0 { 0 } else { ends[i - 1] as usize }
}

/// Puts points behind the others, which are one more ring.
fn add_ring(xy: &mut Vec<u64>, ends: &mut Vec<u32>, ring: &[u64]) -> Result<(), AllocError>
    requires { (length xy.old.items + length ring.now) / 2 < 2 ^ 32 }
    ensures points { OnOk result (xy.new.items ≡ xy.old.items ++ ring.now) }
    ensures end { OnOk result (ends.new.items ≡ ends.old.items ++ (length xy.old.items + length ring.now) / 2 ∷ []) }
    ensures err { OnErr result ((xy.new.items ≡ xy.old.items) × (ends.new.items ≡ ends.old.items)) }
{
    ends.reserve(1)?;
    xy.extend_from_slice(ring)?;
    ends.push((xy.len() / 2) as u32)?;
    Ok(())
}

/// Whether a geometry of this type has rings.
pub(crate) fn has_rings(kind: Kind) -> bool
    ensures { result ≡ has_rings (number_of kind) }
{
    matches!(kind, Kind::Polygon | Kind::MultiLineString)
}
