ghost use Rattle.std.specs.Prelude.{◌≡◌, ◌↔◌, IsTrue};
ghost use Rattle.order_keys.specs.Boxes.{empty, of_point, join, Contains, contains, IsSame, same, meets, Meets, is_box, IsBox, is_ordered, IsOrdered, are_finite, AreFinite};

use crate::coord::Coord;

/// The pattern of positive infinity.
const INFINITY: Coord = Coord(0x7FF0_0000_0000_0000);

/// The pattern of negative infinity.
const NEG_INFINITY: Coord = Coord(0xFFF0_0000_0000_0000);

/// A box of four patterns. Its edges belong to it.
#[derive(Clone, Copy, Debug, PartialEq, Eq)]
pub struct Bounds {
    pub min_x: Coord,
    pub min_y: Coord,
    pub max_x: Coord,
    pub max_y: Coord,
}

impl Bounds {
    /// The box of no point, which meets no box with finite patterns.
    #[tactic(auto, using(crate::proofs::Order::empty_meets_none, crate::proofs::Order::empty_not_itself))]
    pub fn empty() -> Bounds
        ensures value { result ≡ empty }
        ensures meets_none { (b : Bounds) → AreFinite b → ¬ Meets result b }
        ensures not_itself { ¬ Meets result result }
    {
        Bounds {
            min_x: INFINITY,
            min_y: INFINITY,
            max_x: NEG_INFINITY,
            max_y: NEG_INFINITY,
        }
    }

    /// The box of one point.
    pub fn of_point(x: Coord, y: Coord) -> Bounds
        ensures { result ≡ of_point x y }
    {
        Bounds {
            min_x: x,
            min_y: y,
            max_x: x,
            max_y: y,
        }
    }

    /// The least box that contains both. Where two keys are equal, this box's pattern stays.
    pub fn join(self, other: Bounds) -> Bounds
        ensures value { result ≡ join self other }
        ensures holds_first { Contains result self }
        ensures holds_other { Contains result other }
        ensures least { (b : Bounds) → Contains b self → Contains b other → Contains b result }
    {
        Bounds {
            min_x: self.min_x.lesser(other.min_x),
            min_y: self.min_y.lesser(other.min_y),
            max_x: self.max_x.greater(other.max_x),
            max_y: self.max_y.greater(other.max_y),
        }
    }

    /// Whether no edge of the other box lies outside this one, by their keys.
    pub fn contains(self, other: Bounds) -> bool
        ensures value { result ≡ contains self other }
        ensures fact { IsTrue result ↔ Contains self other }
    {
        self.min_x.is_at_most(other.min_x)
            && self.min_y.is_at_most(other.min_y)
            && other.max_x.is_at_most(self.max_x)
            && other.max_y.is_at_most(self.max_y)
    }

    /// Whether the boxes have the same edges, by their keys.
    pub fn same(self, other: Bounds) -> bool
        ensures value { result ≡ same self other }
        ensures fact { IsTrue result ↔ IsSame self other }
    {
        self.min_x.has_same_key(other.min_x)
            && self.min_y.has_same_key(other.min_y)
            && self.max_x.has_same_key(other.max_x)
            && self.max_y.has_same_key(other.max_y)
    }

    /// Whether the boxes have a point in common, by their keys. Edges meet.
    pub fn meets(self, other: Bounds) -> bool
        ensures value { result ≡ meets self other }
        ensures fact { IsTrue result ↔ Meets self other }
    {
        self.min_x.is_at_most(other.max_x)
            && other.min_x.is_at_most(self.max_x)
            && self.min_y.is_at_most(other.max_y)
            && other.min_y.is_at_most(self.max_y)
    }

    /// Whether this is the empty box, or has finite patterns and no min after its max.
    pub fn is_box(self) -> bool
        ensures value { result ≡ is_box self }
        ensures fact { IsTrue result ↔ IsBox self }
    {
        self == Bounds::empty() || self.is_finite() && self.is_ordered()
    }

    /// Whether no min comes after its max.
    pub(crate) fn is_ordered(self) -> bool
        ensures value { result ≡ is_ordered self }
        ensures fact { IsTrue result ↔ IsOrdered self }
    {
        self.min_x.is_at_most(self.max_x) && self.min_y.is_at_most(self.max_y)
    }

    fn is_finite(self) -> bool
        ensures value { result ≡ are_finite self }
        ensures fact { IsTrue result ↔ AreFinite self }
    {
        self.min_x.is_finite()
            && self.min_y.is_finite()
            && self.max_x.is_finite()
            && self.max_y.is_finite()
    }
}
