// Points, and lists of their ordinates.
ghost use Rattle.std.specs.Prelude.{◌≡◌, ◌*◌, ◌+◌, ◌<◌, ◌≤◌, ◌^◌, [], ◌∷◌, ◌++◌, Bool, length, false, true, option_to_list, IfErr, IfOk, IsTrue, OnOk, if◌then◌else◌};
ghost use Rattle.std.specs.List.{All, flat_map};
ghost use Rattle.order_keys.specs.Keys.{is_finite};
ghost use Rattle.wkb_grammar.specs.Grammar.{IsLine, IsPosition, beside_of, is_nowhere, line_bytes_in, number_bytes, position_bytes};
ghost use Rattle.wkb_reader.specs.Broken.{BreaksFinite, BreaksLine, BreaksPosition};
ghost use Rattle.wkb_reader.specs.Cursors.{Passes, Takes};
ghost use Rattle.wkb_reader.specs.Gathered.{Adds, IsFor, position_of};
ghost use Rattle.wkb_reader.specs.Heads.{order_of};
ghost use Rattle.wkb_reader.specs.Refusals.{Refuses};

use crate::cursor::{Cursor, Order, refused};
use flat_views::Rule;
use order_keys::Coord;
use std::alloc::{AllocError, Global};
use wkb_writer::{Dimension, WkbError};

/// The ordinate of an empty Point, a NaN.
const NOWHERE: u64 = 0x7ff8_0000_0000_0000;

/// The ordinates of a point.
#[derive(Clone, Copy)]
pub(crate) struct Position {
    x: u64,
    y: u64,
    z: Option<u64>,
    m: Option<u64>,
}

/// The ordinates of points: x and y by turns, and z and m where the dimension has them.
#[derive(Drop)]
pub(crate) struct Points {
    pub(crate) xy: Vec<u64>,
    pub(crate) z: Vec<u64>,
    pub(crate) m: Vec<u64>,
}

impl Position {
    /// Takes all ordinates of a point, whatever they are. Refuses WkbEnd.
    pub(crate) fn take(
        cursor: &mut Cursor,
        order: Order,
        dimension: Dimension,
    ) -> Result<Position, WkbError>
        ensures ok { IfOk result (λ p. Passes cursor.old cursor.new (position_bytes (order_of order) (position_of p))) }
        ensures spelled { IfOk result (IsFor dimension) }
        ensures err { (e : Bool) → IfErr result (Refuses cursor.old.at (BreaksPosition (order_of order) dimension e cursor.old.rest.now)) }
    {
        let left = cursor.rest.len();
        if left / 8 < ordinates(dimension) {
            return Err(refused(cursor.at + left / 8 * 8, Rule::WkbEnd));
        }
        let x = cursor.ordinate(order);
        let y = cursor.ordinate(order);
        let z = ordinate_if(cursor, order, dimension.z);
        let m = ordinate_if(cursor, order, dimension.m);
        Ok(Position { x, y, z, m })
    }

    /// Whether it is the point of an empty Point.
    pub(crate) fn is_nowhere(&self) -> bool
        ensures { result ≡ is_nowhere (position_of self.now) }
    {
        self.x == NOWHERE
            && self.y == NOWHERE
            && self.z.unwrap_or(NOWHERE) == NOWHERE
            && self.m.unwrap_or(NOWHERE) == NOWHERE
    }

    /// Judges its x and its y, where it begins at this place. Refuses NotFinite.
    pub(crate) fn judge(&self, at: usize) -> Result<(), WkbError>
        requires { at ≤ 268435456 }
        ensures finite_x { OnOk result (IsTrue (is_finite self.now.x)) }
        ensures finite_y { OnOk result (IsTrue (is_finite self.now.y)) }
        ensures err { IfErr result (Refuses at (BreaksFinite (position_of self.now))) }
    {
        if !Coord(self.x).is_finite() {
            return Err(refused(at, Rule::NotFinite));
        }
        if !Coord(self.y).is_finite() {
            return Err(refused(at + 8, Rule::NotFinite));
        }
        Ok(())
    }
}

/// How many ordinates a point has.
fn ordinates(dimension: Dimension) -> usize
    ensures { result ≡ 2 + beside_of dimension }
{
    2 + usize::from(dimension.z) + usize::from(dimension.m)
}

/// Takes an ordinate, where points have it.
fn ordinate_if(cursor: &mut Cursor, order: Order, has: bool) -> Option<u64>
    requires { has ≡ true → 8 ≤ length cursor.old.rest.now }
    ensures passed { Passes cursor.old cursor.new (flat_map (number_bytes (order_of order) 8) (option_to_list result)) }
    ensures there { length (option_to_list result) ≡ (if has then 1 else 0) }
    ensures patterns { All (λ x. x < 2 ^ 64) (option_to_list result) }
{
    if has {
        Some(cursor.ordinate(order))
    } else {
        None
    }
}

impl Points {
    /// No points.
    pub(crate) fn new(alloc: Global) -> Points
        ensures xy { result.xy.items ≡ [] }
        ensures z { result.z.items ≡ [] }
        ensures m { result.m.items ≡ [] }
    {
        Points {
            xy: Vec::new(alloc),
            z: Vec::new(alloc),
            m: Vec::new(alloc),
        }
    }

    /// Takes a line, and puts its points behind the others. Refuses WkbEnd, NotFinite.
    pub(crate) fn take_line(
        &mut self,
        cursor: &mut Cursor,
        order: Order,
        dimension: Dimension,
    ) -> Result<(), WkbError>
        ensures ok { OnOk result (Takes cursor.old cursor.new (line_bytes_in (order_of order)) (IsLine dimension) (Adds dimension self.old self.new)) }
        ensures err { IfErr result (Refuses cursor.old.at (BreaksLine (order_of order) dimension cursor.old.rest.now)) }
    {
        let count = cursor.word(order)?;
        self.reserve((count as usize).min(cursor.rest.len() / 16), dimension)?;
        for _ in 0..count {
            self.take(cursor, order, dimension)?;
        }
        Ok(())
    }

    /// Takes a point of a line, and puts it behind the others. Refuses WkbEnd, NotFinite.
    fn take(
        &mut self,
        cursor: &mut Cursor,
        order: Order,
        dimension: Dimension,
    ) -> Result<(), WkbError>
        ensures ok { OnOk result (Takes cursor.old cursor.new (position_bytes (order_of order)) (IsPosition dimension) (λ p. Adds dimension self.old self.new (p ∷ []))) }
        ensures err { IfErr result (Refuses cursor.old.at (BreaksPosition (order_of order) dimension false cursor.old.rest.now)) }
    {
        let start = cursor.at;
        let position = Position::take(cursor, order, dimension)?;
        position.judge(start)?;
        self.push(position)?;
        Ok(())
    }

    /// Puts a point behind the others.
    pub(crate) fn push(&mut self, position: Position) -> Result<(), AllocError>
        ensures xy { OnOk result (self.new.xy.items ≡ self.old.xy.items ++ position.x ∷ position.y ∷ []) }
        ensures z { OnOk result (self.new.z.items ≡ self.old.z.items ++ option_to_list position.z) }
        ensures m { OnOk result (self.new.m.items ≡ self.old.m.items ++ option_to_list position.m) }
    {
        self.xy.push(position.x)?;
        self.xy.push(position.y)?;
        if let Some(z) = position.z {
            self.z.push(z)?;
        }
        if let Some(m) = position.m {
            self.m.push(m)?;
        }
        Ok(())
    }

    /// Makes room for so many more of this dimension.
    pub(crate) fn reserve(&mut self, count: usize, dimension: Dimension) -> Result<(), AllocError>
        ensures xy { self.new.xy.items ≡ self.old.xy.items }
        ensures z { self.new.z.items ≡ self.old.z.items }
        ensures m { self.new.m.items ≡ self.old.m.items }
    {
        self.xy.reserve(count.saturating_mul(2))?;
        if dimension.z {
            self.z.reserve(count)?;
        }
        if dimension.m {
            self.m.reserve(count)?;
        }
        Ok(())
    }
}
