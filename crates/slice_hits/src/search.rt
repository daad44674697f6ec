// The walk through an index.
ghost use Rattle.std.specs.Prelude.{◌≡◌, ◌+◌, ◌*◌, ◌<◌, ◌≤◌, ℕ, List, [], ◌∷◌, Some, None, length, IfErr, IfOk, IfSome, OnOk, OnSome};
ghost use Rattle.std.specs.Option.{ForSome};
ghost use Rattle.flat_layout.specs.declared.Rule.TheVariants.{LeafPastEnd};
ghost use Rattle.flat_layout.specs.declared.Broken.{Broken as Refusal};
ghost use Rattle.order_keys.specs.declared.bounds.Bounds.{Bounds as Box};
ghost use Rattle.level_bounds.specs.Levels.{IsNode, node_count, place as place_of_node};
ghost use Rattle.level_bounds.specs.Shapes.{shape_of};
ghost use Rattle.node_items.specs.declared.item.NodeItem.{NodeItem as Node};
ghost use Rattle.node_items.specs.Faults.{IsFirstOf, group_faults, root_faults};
ghost use Rattle.node_items.specs.Nodes.{node_place};
ghost use Rattle.fgb_file.specs.File.{header_end, node_in};
ghost use Rattle.index_reader.specs.Parts.{AreChildren};
ghost use Rattle.tree_search.specs.Searches.{hit_of};
ghost use Rattle.found_features.specs.Entries.{Entry};
ghost use Rattle.hit_reader.specs.Going.{IsBehind};

use crate::after::next_behind;
use crate::features::Features;
use box_list::Boxes;
use fgb_reader::PREFIX;
use flat_views::{Broken, Rule};
use found_features::Found;
use index_reader::judge_group;
use level_bounds::Levels;
use node_items::{NODE, NodeItem};
use tree_search::Hit;

/// A walk through an index, from the root down.
#[derive(Drop)]
pub(crate) struct Search<'a> {
    features: Features<'a>,
    levels: Levels,
    /// Where the index begins.
    place: usize,
    boxes: Boxes,
    /// The node that comes next, none behind all.
    node: Option<u64>,
    /// Behind the feature that was found last, or where the first one stands.
    reached: usize,
    pub ghost inside: { place + 40 * node_count (shape_of levels) ≤ length features.bytes.now },
    pub ghost there: { ForSome node (λ n. n < node_count (shape_of levels)) },
    pub ghost within: { reached ≤ length features.bytes.now },
}

/// What a node is: a leaf that is found, or none; and the node that comes next.
#[derive(Clone, Copy)]
struct Visit {
    leaf: Option<Hit>,
    next: Option<u64>,
}

impl<'a> Search<'a> {
    ghost use Rattle.slice_hits.specs.Answering.{GoesOn, PassesOn};
    ghost use Rattle.slice_hits.specs.Reading.{AreOf};
    ghost use Rattle.slice_hits.specs.Searching.{IsOver, ReadsLeaf, RefusesVisit, Stands, Visits, left, nodes_of, tree_of, way_left};

    /// In front of the root of the index that begins at this place.
    pub(crate) fn new(
        features: Features<'a>,
        levels: Levels,
        place: usize,
        boxes: Boxes,
    ) -> Search<'a>
        requires { place + 40 * node_count (shape_of levels) ≤ length features.bytes.now }
        ensures { (image : List ℕ) → AreOf image (Some (shape_of levels)) features.entry → place ≡ header_end image → Stands image boxes [] result }
    {
        Search {
            features,
            levels,
            place,
            boxes,
            node: Some(0),
            reached: features.first,
        }
    }

    /// The next feature where a leaf says whose box, and those of all nodes above it, meet one of the boxes; None behind the
    /// last leaf. Refuses what is broken at a node that is met, at a leaf that is found, or at its feature.
    pub(crate) fn advance(&mut self) -> Result<Option<Found<'a>>, Broken>
        ensures goes { (image : List ℕ) (boxes : List Box) (entries : List Entry) → Stands image boxes entries self.old → GoesOn image boxes entries (λ es. Stands image boxes es self.new) result }
        ensures nearer { IfOk result (λ found. OnSome found (left self.new < left self.old)) }
    {
        while let Some(node) = self.node {
            if let Some(found) = self.step(node)? {
                return Ok(Some(found));
            }
        }
        Ok(None)
    }

    /// Goes on from the node that comes next, and gives its feature if it is a leaf that is found.
    fn step(&mut self, node: u64) -> Result<Option<Found<'a>>, Broken>
        requires { self.old.node ≡ Some node }
        ensures passes { (image : List ℕ) (boxes : List Box) (entries : List Entry) → Stands image boxes entries self.old → PassesOn image boxes entries (λ es. Stands image boxes es self.new) result }
        ensures tree { tree_of self.new ≡ tree_of self.old }
        ensures nearer { OnOk result (way_left self.new < way_left self.old) }
        ensures no_farther { OnOk result (left self.new ≤ left self.old) }
        ensures fewer { IfOk result (λ found. OnSome found (left self.new < left self.old)) }
    {
        let visit = self.visit(node)?;
        let Some(leaf) = visit.leaf else {
            self.node = visit.next;
            return Ok(None);
        };
        let found = self.read(leaf)?;
        self.node = visit.next;
        self.reached = self.features.first + leaf.item.offset as usize + PREFIX + found.bytes.len();
        Ok(Some(found))
    }

    /// Judges the children of a node whose box meets one of the boxes, and says what comes next.
    fn visit(&self, node: u64) -> Result<Visit, Broken>
        requires { node < node_count (tree_of self.now) }
        ensures goes { let t = tree_of self.now in (k i : ℕ) → IsNode t k i → node ≡ place_of_node t k i
            → IfOk result (λ visit. Visits t (nodes_of self.now) self.now.place self.now.boxes k i visit) }
        ensures root { OnOk result (node ≡ 0 → root_faults (tree_of self.now) (nodes_of self.now) self.now.place ≡ []) }
        ensures refused { let t = tree_of self.now in (k i : ℕ) → IsNode t k i → node ≡ place_of_node t k i
            → IfErr result (λ broken. RefusesVisit t (nodes_of self.now) self.now.place self.now.boxes k i broken) }
        ensures next { IfOk result (λ visit. IfSome visit.next (λ n. n < node_count (tree_of self.now))) }
        ensures leaf { IfOk result (λ visit. IfSome visit.leaf (λ hit. hit.number < (tree_of self.now).leaves)) }
    {
        self.judge_root(node)?;
        let item = self.item(node);
        if !self.boxes.meets(item.bounds) {
            return Ok(Visit {
                leaf: None,
                next: next_behind(&self.levels, node),
            });
        }
        let first = self.levels.level(0).0;
        if node >= first {
            let number = node - first;
            return Ok(Visit {
                leaf: Some(Hit { number, item }),
                next: next_behind(&self.levels, node),
            });
        }
        let (first, end) = self.levels.group(node);
        self.judge(first, end, Some((item, node)))?;
        Ok(Visit {
            leaf: None,
            next: Some(first),
        })
    }

    /// Judges the root, where this is its number.
    fn judge_root(&self, node: u64) -> Result<(), Broken>
        ensures ok { OnOk result (node ≡ 0 → root_faults (tree_of self.now) (nodes_of self.now) self.now.place ≡ []) }
        ensures refused { IfErr result (λ broken. (node ≡ 0) × (rest : List Refusal) × (root_faults (tree_of self.now) (nodes_of self.now) self.now.place ≡ broken ∷ rest)) }
    {
        if node > 0 {
            return Ok(());
        }
        self.judge(0, 1, None)
    }

    /// Judges the nodes with these numbers, which are all children of this parent, or the root where there is none.
    fn judge(&self, first: u64, end: u64, parent: Option<(NodeItem, u64)>) -> Result<(), Broken>
        requires order { first < end }
        requires within { end ≤ node_count (tree_of self.now) }
        requires known { (item : Node) (number : ℕ) → parent ≡ Some (item, number) → number < node_count (tree_of self.now) }
        ensures group { let t = tree_of self.now in (k i : ℕ) → AreChildren t k i first end
            → parent ≡ Some (nodes_of self.now (place_of_node t (k + 1) i), place_of_node t (k + 1) i) → IsFirstOf (group_faults t (nodes_of self.now) self.now.place k i) result }
        ensures root { first ≡ 0 → end ≡ 1 → parent ≡ None → IsFirstOf (root_faults (tree_of self.now) (nodes_of self.now) self.now.place) result }
    {
        let from = self.place + NODE * first as usize;
        let till = self.place + NODE * end as usize;
        judge_group(
            &self.features.bytes[from..till],
            first,
            parent,
            self.place as u64,
            &self.levels,
        )
    }

    /// The node with this number.
    fn item(&self, number: u64) -> NodeItem
        requires { number < node_count (tree_of self.now) }
        ensures { result ≡ nodes_of self.now number }
    {
        NodeItem::read(&self.features.bytes[self.place + NODE * number as usize..])
    }

    /// The feature where a leaf says. Refuses LeafPastEnd or LeafOrder at the leaf, what is broken at the feature, or
    /// LeafBox at the leaf where its box differs from the feature's own by their keys.
    fn read(&self, leaf: Hit) -> Result<Found<'a>, Broken>
        requires { leaf.number < (tree_of self.now).leaves }
        ensures judged { let t = tree_of self.now in (image : List ℕ) (boxes : List Box) (k : ℕ) → IsOver image boxes self.now → leaf ≡ hit_of t (node_in image) 0 k
            → IsBehind image t k self.now.reached → ReadsLeaf image t k result }
        ensures within { IfOk result (λ found. self.now.features.first + leaf.item.offset + 4 + length found.bytes.now ≤ length self.now.features.bytes.now) }
    {
        let target = self.target(leaf)?;
        if target < self.reached {
            return Err(self.broken(leaf, Rule::LeafOrder));
        }
        let (bytes, bounds) = self.features.read(target)?;
        if !leaf.item.bounds.same(bounds) {
            return Err(self.broken(leaf, Rule::LeafBox));
        }
        Ok(Found {
            number: leaf.number,
            offset: leaf.item.offset,
            bytes,
            bounds,
        })
    }

    /// Where a leaf says that its feature stands. Refuses LeafPastEnd where no size prefix fits in there.
    fn target(&self, leaf: Hit) -> Result<usize, Broken>
        requires { leaf.number < (tree_of self.now).leaves }
        ensures there { IfOk result (λ target. target ≡ self.now.features.first + leaf.item.offset) }
        ensures fits { IfOk result (λ target. target + 4 ≤ length self.now.features.bytes.now) }
        ensures past { IfErr result (λ broken. (length self.now.features.bytes.now < self.now.features.first + leaf.item.offset + 4)
            × (broken ≡ record { place = node_place self.now.place (place_of_node (tree_of self.now) 0 leaf.number); rule = LeafPastEnd })) }
    {
        let len = self.features.bytes.len() - self.features.first;
        if len < PREFIX || leaf.item.offset > (len - PREFIX) as u64 {
            return Err(self.broken(leaf, Rule::LeafPastEnd));
        }
        Ok(self.features.first + leaf.item.offset as usize)
    }

    /// This rule is broken at a leaf.
    fn broken(&self, leaf: Hit, rule: Rule) -> Broken
        requires { leaf.number < (tree_of self.now).leaves }
        ensures { result ≡ record { place = node_place self.now.place (place_of_node (tree_of self.now) 0 leaf.number); rule = rule } }
    {
        let number = self.levels.level(0).0 + leaf.number;
        Broken {
            place: self.place as u64 + NODE as u64 * number,
            rule,
        }
    }
}
