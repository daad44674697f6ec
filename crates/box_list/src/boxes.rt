// A list of boxes.
ghost use Rattle.std.specs.Prelude.{◌≡◌, ◌<◌, ◌≤◌, ◌++◌, ◌∷◌, [], length, slice_get, Some, MatchOption};
ghost use Rattle.order_keys.specs.Boxes.{IsBox};
ghost use Rattle.box_list.specs.Lists.{meets_any};

use order_keys::Bounds;
use std::marker::Model;

/// No list has more boxes.
pub(crate) const MOST: usize = 8;

/// One to eight boxes.
#[derive(Drop)]
pub struct Boxes {
    boxes: [Bounds; MOST],
    count: usize,
}

impl Model for Boxes {
    ghost use Rattle.std.specs.Prelude.{◌≡◌, ◌≤◌, List, length, take};
    ghost use Rattle.order_keys.specs.declared.bounds.Bounds.{Bounds};
    ghost use Rattle.box_list.specs.Lists.{IsBoxList};

    ghost Value = { List Bounds };

    ghost view = { λ s. take s.count s.boxes };

    ghost invariant = { λ s. (length s.boxes ≡ 8) × (s.count ≤ 8) × IsBoxList (take s.count s.boxes) };
}

impl Boxes {
    /// The list of this one box.
    pub fn one(first: Bounds) -> Boxes
        requires { IsBox first }
        ensures { result ≡ first ∷ [] }
    {
        let mut boxes = [Bounds::empty(); MOST];
        boxes[0] = first;
        Boxes { boxes, count: 1 }
    }

    /// The list with this box at its end. None exactly where there are eight already.
    pub fn with(self, next: Bounds) -> Option<Boxes>
        requires { IsBox next }
        ensures { MatchOption result (length self ≡ 8) (λ more. (length self < 8) × (more ≡ self ++ next ∷ [])) }
    {
        if self.count == MOST {
            return None;
        }
        let mut boxes = self.boxes;
        boxes[self.count] = next;
        Some(Boxes {
            boxes,
            count: self.count + 1,
        })
    }

    /// How many boxes there are.
    pub fn len(&self) -> usize
        ensures len { result ≡ length self.now }
        ensures some { 1 ≤ result }
        ensures few { result ≤ 8 }
    {
        self.count
    }

    /// Box i.
    pub fn get(&self, i: usize) -> Bounds
        requires { i < length self.now }
        ensures at { slice_get self.now i ≡ Some result }
        ensures valid { IsBox result }
    {
        let held = &self.boxes[..self.count];
        held[i]
    }

    /// Whether a box meets one of them.
    pub fn meets(&self, bounds: Bounds) -> bool
        ensures { result ≡ meets_any self.now bounds }
    {
        self.boxes[..self.count].iter().any(|b| bounds.meets(*b))
    }
}
