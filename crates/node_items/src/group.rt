// The children of one node.
ghost use Rattle.std.specs.Prelude.{◌≡◌, ◌+◌, ◌-◌, ◌*◌, ◌<◌, ◌≤◌, ◌^◌, ◌/◌, ◌%◌, ℕ, Some, None, length};
ghost use Rattle.std.specs.List.{flat_map, list_all, range_with_len};
ghost use Rattle.order_keys.specs.Boxes.{contains};
ghost use Rattle.level_bounds.specs.Levels.{IsNode, Shape, children_end, first_child, node_count, place};
ghost use Rattle.level_bounds.specs.Shapes.{shape_of};
ghost use Rattle.node_items.specs.declared.item.NodeItem.{NodeItem};
ghost use Rattle.node_items.specs.Faults.{names_child};
ghost use Rattle.node_items.specs.Nodes.{node_place};

use crate::item::{NODE, NodeItem};
use flat_layout::{Broken, Rule};
use level_bounds::Levels;
use order_keys::Bounds;

/// All children of one node, as they lie in the file one after another, or the root alone.
#[derive(Clone, Copy)]
pub struct Group<'a> {
    bytes: &'a [u8],
    /// The number of its first node.
    first: u64,
    /// Where the index begins in the file.
    place: u64,
    pub ghost some: { 0 < length bytes.now },
    pub ghost whole: { length bytes.now % 40 ≡ 0 },
    pub ghost near: { first + length bytes.now / 40 ≤ 2 ^ 48 },
    pub ghost inside: { place ≤ 2 ^ 48 },
}

impl<'a> Group<'a> {
    ghost use Rattle.node_items.specs.Faults.{IsFirstOf, group_faults, node_faults, parent_faults, root_faults};
    ghost use Rattle.node_items.specs.Groups.{Holds, bytes_in, first_of, item_in, place_of};

    /// The nodes in these bytes, the first of which has this number, in an index that begins at this place of the file.
    pub fn new(bytes: &'a [u8], first: u64, index_place: u64) -> Group<'a>
        requires some { 0 < length bytes.now }
        requires whole { length bytes.now % 40 ≡ 0 }
        requires near { first + length bytes.now / 40 ≤ 2 ^ 48 }
        requires inside { index_place ≤ 2 ^ 48 }
        ensures bytes { bytes_in result ≡ bytes.now }
        ensures first { first_of result ≡ first }
        ensures place { place_of result ≡ index_place }
    {
        Group {
            bytes,
            first,
            place: index_place,
        }
    }

    /// How many nodes it has.
    pub fn len(&self) -> usize
        ensures { 40 * result ≡ length (bytes_in self.now) }
    {
        self.bytes.len() / NODE
    }

    /// Its i-th node.
    pub fn item(&self, i: usize) -> NodeItem
        requires { 40 * i < length (bytes_in self.now) }
        ensures { result ≡ item_in self.now i }
    {
        NodeItem::read(&self.bytes[NODE * i..])
    }

    /// Judges the nodes of the group, which are all children of this parent, given with its number, or the root where
    /// there is none. Goes through them in order, and refuses NodeBox before ChildOffset at each; after them all it
    /// refuses ParentBox at the parent. The refusal is the first of these.
    pub fn check_group(
        &self,
        parent: Option<(NodeItem, u64)>,
        levels: &Levels,
    ) -> Result<(), Broken>
        requires inside { 40 * first_of self.now + length (bytes_in self.now) ≤ 40 * node_count (shape_of levels.now) }
        requires known { (item : NodeItem) (number : ℕ) → parent ≡ Some (item, number) → number < node_count (shape_of levels.now) }
        ensures group { let t = shape_of levels.now in (k i : ℕ) (nodes : ℕ → NodeItem) → IsNode t (k + 1) i
            → Holds self.now nodes (place t k (first_child t i)) (place t k (children_end t k i))
            → parent ≡ Some (nodes (place t (k + 1) i), place t (k + 1) i) → IsFirstOf (group_faults t nodes (place_of self.now) k i) result }
        ensures root { let t = shape_of levels.now in (nodes : ℕ → NodeItem) → Holds self.now nodes 0 1 → parent ≡ None
            → IsFirstOf (root_faults t nodes (place_of self.now)) result }
    {
        self.check_nodes(levels)?;
        match parent {
            Some((item, number)) => self.check_parent(item, number),
            None => Ok(()),
        }
    }

    /// Judges the nodes by themselves, one after another.
    fn check_nodes(&self, levels: &Levels) -> Result<(), Broken>
        requires { 40 * first_of self.now + length (bytes_in self.now) ≤ 40 * node_count (shape_of levels.now) }
        ensures { let t = shape_of levels.now in (k from till : ℕ) (nodes : ℕ → NodeItem) → ((c : ℕ) → from ≤ c → c < till → IsNode t k c)
            → Holds self.now nodes (place t k from) (place t k till)
            → IsFirstOf (flat_map (node_faults t nodes (place_of self.now) k) (range_with_len from (till - from))) result }
    {
        for i in 0..self.len() {
            self.check_node(i, levels)?;
        }
        Ok(())
    }

    /// Judges the i-th node by itself.
    fn check_node(&self, i: usize, levels: &Levels) -> Result<(), Broken>
        requires some { 40 * i < length (bytes_in self.now) }
        requires inside { 40 * first_of self.now + length (bytes_in self.now) ≤ 40 * node_count (shape_of levels.now) }
        ensures { let t = shape_of levels.now in (k c : ℕ) (nodes : ℕ → NodeItem) → IsNode t k c → first_of self.now + i ≡ place t k c
            → item_in self.now i ≡ nodes (place t k c) → IsFirstOf (node_faults t nodes (place_of self.now) k c) result }
    {
        let item = self.item(i);
        let number = self.first + i as u64;
        if !item.bounds.is_box() {
            return Err(self.broken(number, Rule::NodeBox));
        }
        if !names_child(number, item.offset, levels) {
            return Err(self.broken(number, Rule::ChildOffset));
        }
        Ok(())
    }

    /// Judges the parent's box, which is to contain those of the nodes.
    fn check_parent(&self, parent: NodeItem, number: u64) -> Result<(), Broken>
        requires { number ≤ 2 ^ 48 }
        ensures { (t : Shape) (k i : ℕ) (nodes : ℕ → NodeItem) → Holds self.now nodes (place t k (first_child t i)) (place t k (children_end t k i))
            → parent ≡ nodes (place t (k + 1) i) → number ≡ place t (k + 1) i
            → IsFirstOf (parent_faults t nodes (place_of self.now) k i) result }
    {
        if self.are_inside(parent.bounds) {
            Ok(())
        } else {
            Err(self.broken(number, Rule::ParentBox))
        }
    }

    /// Whether a box contains those of the nodes.
    fn are_inside(&self, bounds: Bounds) -> bool
        ensures { result ≡ list_all (λ i. contains bounds (item_in self.now i).bounds) (range_with_len 0 (length (bytes_in self.now) / 40)) }
    {
        for i in 0..self.len() {
            if !bounds.contains(self.item(i).bounds) {
                return false;
            }
        }
        true
    }

    /// This rule is broken at the node of this number.
    fn broken(&self, number: u64, rule: Rule) -> Broken
        requires { number ≤ 2 ^ 48 }
        ensures { result ≡ record { place = node_place (place_of self.now) number; rule = rule } }
    {
        Broken {
            place: self.place + (NODE as u64) * number,
            rule,
        }
    }
}

/// Whether the offset of a node is the number of its first child; that of a leaf, which has none, may be any.
fn names_child(number: u64, offset: u64, levels: &Levels) -> bool
    requires { number < node_count (shape_of levels.now) }
    ensures { (k c : ℕ) → IsNode (shape_of levels.now) k c → number ≡ place (shape_of levels.now) k c → result ≡ names_child (shape_of levels.now) k c offset }
{
    match levels.first_child(number) {
        Some(child) => offset == child,
        None => true,
    }
}
