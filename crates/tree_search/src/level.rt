// The search through one level.
ghost use Rattle.std.specs.Prelude.{◌≡◌, ◌≢◌, ◌+◌, ◌-◌, ◌*◌, ◌/◌, ◌<◌, ◌≤◌, ◌^◌, ◌++◌, ℕ, [], ◌∷◌, length, take, slice_get, Some, None, IfOk, OnOk, OnErr, IsErrOf};
ghost use Rattle.std.specs.List.{range_with_len};
ghost use Rattle.fgb_outside.specs.Source.{IfTold, Rose};
ghost use Rattle.fgb_outside.specs.Asked.{Ascends, Reads, ReadsFront};
ghost use Rattle.section_window.specs.Window.{ahead};
ghost use Rattle.level_bounds.specs.Levels.{IsNode, children_end, first_child, node_count, place as place_of_node, width};
ghost use Rattle.node_items.specs.declared.item.NodeItem.{NodeItem};
ghost use Rattle.node_items.specs.Faults.{group_faults, root_faults};
ghost use Rattle.node_items.specs.Groups.{bytes_in};
ghost use Rattle.node_items.specs.Nodes.{node_place};
ghost use Rattle.index_reader.specs.Parts.{AreChildren, IsFirstRead};
ghost use Rattle.tree_search.specs.Wanted.{meets_box};
ghost use Rattle.tree_search.specs.Descent.{AreFrom, AreNeighbours, GoesTo, all_children, children_before, children_of, first_number, group_hits, numbers};
ghost use Rattle.tree_search.specs.Sought.{IsOfIndex, IsOverIndex, faults_under, found_among, found_in, found_under, hit_in, nodes_of, place_in, positions_in, tree_of};

use crate::search::Hit;
use fgb_outside::RangeSource;
use level_bounds::Levels;
use node_items::{Group, NODE, NodeItem};
use order_keys::Bounds;
use read_stop::ReadStop;
use section_window::Window;
use std::alloc::{AllocError, Global};

/// A search through the index that begins at this place, from level to level.
#[derive(Clone, Copy)]
pub(crate) struct Descent<'a> {
    pub(crate) place: u64,
    pub(crate) levels: &'a Levels,
    pub(crate) bounds: Bounds,
}

/// Nodes that stand together and are judged together: all children of a node, or the root.
#[derive(Clone, Copy)]
struct Siblings {
    /// The numbers of the first of them, and of the first node behind them.
    first: u64,
    end: u64,
    /// The number of the first node of their level.
    level: u64,
    /// The node that they are children of, with its number.
    parent: Option<(NodeItem, u64)>,
}

impl<'a> Descent<'a> {
    /// The root, if its box meets the bounds.
    pub(crate) fn root<S: RangeSource>(
        &self,
        alloc: Global,
        window: &mut Window,
        source: &mut S,
    ) -> Result<Vec<Hit>, ReadStop>
        requires over { IsOverIndex self.now window.old (S.seen source.old) }
        requires small { self.now.place + 40 * node_count (tree_of self.now) ≤ 2 ^ 48 }
        requires stands { window.old.at ≡ self.now.place }
        requires none { window.old.bytes ≡ [] }
        ensures found { IfOk result (λ found. IfTold (S.seen source.old) (λ image.
            found.items ≡ found_in self.now image (tree_of self.now).top)) }
        ensures rise { IfOk result (λ found. Ascends 0 (width (tree_of self.now) (tree_of self.now).top) (numbers found.items)) }
        ensures judged { IfTold (S.seen source.old) (λ image. IsFirstRead (root_faults (tree_of self.now) (nodes_of self.now image) self.now.place) result) }
        ensures behind { OnOk result (ahead window.new ≤ place_in self.now (tree_of self.now).top (width (tree_of self.now) (tree_of self.now).top)) }
        ensures over { OnOk result (IsOverIndex self.now window.new (S.seen source.new)) }
        ensures reads { OnOk result (Reads (IsOfIndex self.now) (S.seen source.old) (S.seen source.new) (positions_in self.now (tree_of self.now).top (0 ∷ []))) }
        ensures front { OnErr result (ReadsFront (IsOfIndex self.now) (S.seen source.old) (S.seen source.new) (positions_in self.now (tree_of self.now).top (0 ∷ []))) }
        ensures failed { IsErrOf result ReadStop.SourceFailed → Rose (S.seen source.old).faults (S.seen source.new).faults }
    {
        let mut found = Vec::new(alloc);
        let root = Siblings {
            first: 0,
            end: 1,
            level: 0,
            parent: None,
        };
        let until = self.place + NODE as u64;
        self.siblings(&mut found, window, source, root, until)?;
        Ok(found)
    }

    /// The nodes of level k whose boxes meet the bounds, of those under these nodes of the level above it, which ascend.
    /// Neighbours are read together.
    pub(crate) fn level<S: RangeSource>(
        &self,
        alloc: Global,
        window: &mut Window,
        source: &mut S,
        k: usize,
        parents: &[Hit],
    ) -> Result<Vec<Hit>, ReadStop>
        requires over { IsOverIndex self.now window.old (S.seen source.old) }
        requires small { self.now.place + 40 * node_count (tree_of self.now) ≤ 2 ^ 48 }
        requires level { k < (tree_of self.now).top }
        requires rise { Ascends 0 (width (tree_of self.now) (k + 1)) (numbers parents.now) }
        requires behind { ahead window.old ≤ place_in self.now k 0 }
        ensures found { IfOk result (λ found. IfTold (S.seen source.old) (λ image.
            found.items ≡ found_under self.now image k (numbers parents.now))) }
        ensures rise { IfOk result (λ found. Ascends 0 (width (tree_of self.now) k) (numbers found.items)) }
        ensures behind { OnOk result (ahead window.new ≤ place_in self.now k (width (tree_of self.now) k)) }
        ensures judged { IfTold (S.seen source.old) (λ image. AreFrom (tree_of self.now) (nodes_of self.now image) (k + 1) parents.now
            → IsFirstRead (faults_under self.now image k (numbers parents.now)) result) }
        ensures over { OnOk result (IsOverIndex self.now window.new (S.seen source.new)) }
        ensures reads { OnOk result (Reads (IsOfIndex self.now) (S.seen source.old) (S.seen source.new) (positions_in self.now k (all_children (tree_of self.now) k (numbers parents.now)))) }
        ensures front { OnErr result (ReadsFront (IsOfIndex self.now) (S.seen source.old) (S.seen source.new) (positions_in self.now k (all_children (tree_of self.now) k (numbers parents.now)))) }
        ensures failed { IsErrOf result ReadStop.SourceFailed → Rose (S.seen source.old).faults (S.seen source.new).faults }
    {
        let mut found = Vec::new(alloc);
        let mut rest = parents;
        while !rest.is_empty() {
            let (run, later) = rest.split_at(run_len(rest));
            self.run(&mut found, window, source, k, run)?;
            rest = later;
        }
        Ok(found)
    }

    /// Adds the children of these neighbours of level k + 1 whose boxes meet the bounds.
    fn run<S: RangeSource>(
        &self,
        found: &mut Vec<Hit>,
        window: &mut Window,
        source: &mut S,
        k: usize,
        run: &[Hit],
    ) -> Result<(), ReadStop>
        requires over { IsOverIndex self.now window.old (S.seen source.old) }
        requires small { self.now.place + 40 * node_count (tree_of self.now) ≤ 2 ^ 48 }
        requires level { k < (tree_of self.now).top }
        requires some { 0 < length run.now }
        requires neighbours { AreNeighbours run.now }
        requires there { first_number run.now + length run.now ≤ width (tree_of self.now) (k + 1) }
        requires behind { ahead window.old ≤ place_in self.now k (first_child (tree_of self.now) (first_number run.now)) }
        ensures found { OnOk result (IfTold (S.seen source.old) (λ image.
            found.new.items ≡ found.old.items ++ found_under self.now image k (numbers run.now))) }
        ensures rise { OnOk result ((low : ℕ) → Ascends low (first_child (tree_of self.now) (first_number run.now)) (numbers found.old.items)
            → Ascends low (children_before (tree_of self.now) k (first_number run.now + length run.now)) (numbers found.new.items)) }
        ensures behind { OnOk result (ahead window.new ≤ place_in self.now k (children_before (tree_of self.now) k (first_number run.now + length run.now))) }
        ensures judged { IfTold (S.seen source.old) (λ image. AreFrom (tree_of self.now) (nodes_of self.now image) (k + 1) run.now
            → IsFirstRead (faults_under self.now image k (numbers run.now)) result) }
        ensures over { OnOk result (IsOverIndex self.now window.new (S.seen source.new)) }
        ensures reads { OnOk result (Reads (IsOfIndex self.now) (S.seen source.old) (S.seen source.new) (positions_in self.now k (all_children (tree_of self.now) k (numbers run.now)))) }
        ensures front { OnErr result (ReadsFront (IsOfIndex self.now) (S.seen source.old) (S.seen source.new) (positions_in self.now k (all_children (tree_of self.now) k (numbers run.now)))) }
        ensures failed { IsErrOf result ReadStop.SourceFailed → Rose (S.seen source.old).faults (S.seen source.new).faults }
    {
        let (from, until) = self.span(k, run);
        window.pass((from - window.at()) as usize);
        for parent in run {
            self.group(found, window, source, k, *parent, until)?;
        }
        Ok(())
    }

    /// Where the children of these neighbours of level k + 1 begin in the source, and where they end.
    fn span(&self, k: usize, run: &[Hit]) -> (u64, u64)
        requires small { self.now.place + 40 * node_count (tree_of self.now) ≤ 2 ^ 48 }
        requires level { k < (tree_of self.now).top }
        requires some { 0 < length run.now }
        requires neighbours { AreNeighbours run.now }
        requires there { first_number run.now + length run.now ≤ width (tree_of self.now) (k + 1) }
        ensures from { result.0 ≡ place_in self.now k (first_child (tree_of self.now) (first_number run.now)) }
        ensures until { result.1 ≡ place_in self.now k (children_before (tree_of self.now) k (first_number run.now + length run.now)) }
        ensures order { result.0 ≤ result.1 }
        ensures within { result.1 ≤ node_place self.now.place (node_count (tree_of self.now)) }
    {
        let above = self.levels.level(k + 1).0;
        let first = self.levels.group(above + run[0].number).0;
        let end = self.levels.group(above + run[run.len() - 1].number).1;
        let place = self.place;
        (place + NODE as u64 * first, place + NODE as u64 * end)
    }

    /// Adds the children of a node of level k + 1 whose boxes meet the bounds. They stand next in the window, which asks
    /// for nothing from `until` on.
    fn group<S: RangeSource>(
        &self,
        found: &mut Vec<Hit>,
        window: &mut Window,
        source: &mut S,
        k: usize,
        parent: Hit,
        until: u64,
    ) -> Result<(), ReadStop>
        requires over { IsOverIndex self.now window.old (S.seen source.old) }
        requires small { self.now.place + 40 * node_count (tree_of self.now) ≤ 2 ^ 48 }
        requires node { IsNode (tree_of self.now) (k + 1) parent.number }
        requires stands { window.old.at ≡ place_in self.now k (first_child (tree_of self.now) parent.number) }
        requires until { place_in self.now k (children_end (tree_of self.now) k parent.number) ≤ until }
        requires inside { until ≤ window.old.end }
        requires ahead { ahead window.old ≤ until }
        ensures found { OnOk result (IfTold (S.seen source.old) (λ image.
            found.new.items ≡ found.old.items ++ found_among self.now image k (children_of (tree_of self.now) k parent.number))) }
        ensures rise { OnOk result ((low : ℕ) → Ascends low (first_child (tree_of self.now) parent.number) (numbers found.old.items) → Ascends low (children_end (tree_of self.now) k parent.number) (numbers found.new.items)) }
        ensures judged { IfTold (S.seen source.old) (λ image. parent ≡ hit_in self.now image (k + 1) parent.number
            → IsFirstRead (group_faults (tree_of self.now) (nodes_of self.now image) self.now.place k parent.number) result) }
        ensures over { OnOk result (IsOverIndex self.now window.new (S.seen source.new)) }
        ensures passes { OnOk result (GoesTo window.old window.new (place_in self.now k (children_end (tree_of self.now) k parent.number)) until) }
        ensures reads { OnOk result (Reads (IsOfIndex self.now) (S.seen source.old) (S.seen source.new) (range_with_len (ahead window.old) (ahead window.new - ahead window.old))) }
        ensures front { OnErr result (ReadsFront (IsOfIndex self.now) (S.seen source.old) (S.seen source.new) (range_with_len (ahead window.old) (until - ahead window.old))) }
        ensures failed { IsErrOf result ReadStop.SourceFailed → Rose (S.seen source.old).faults (S.seen source.new).faults }
    {
        let number = self.levels.level(k + 1).0 + parent.number;
        let (first, end) = self.levels.group(number);
        let children = Siblings {
            first,
            end,
            level: self.levels.level(k).0,
            parent: Some((parent.item, number)),
        };
        self.siblings(found, window, source, children, until)
    }

    /// Reads and judges these nodes, which stand next in the window, and adds those whose boxes meet the bounds.
    fn siblings<S: RangeSource>(
        &self,
        found: &mut Vec<Hit>,
        window: &mut Window,
        source: &mut S,
        nodes: Siblings,
        until: u64,
    ) -> Result<(), ReadStop>
        requires over { IsOverIndex self.now window.old (S.seen source.old) }
        requires small { self.now.place + 40 * node_count (tree_of self.now) ≤ 2 ^ 48 }
        requires stands { window.old.at ≡ node_place self.now.place nodes.first }
        requires order { nodes.first < nodes.end }
        requires within { nodes.end ≤ node_count (tree_of self.now) }
        requires level { nodes.level ≤ nodes.first }
        requires known { (item : NodeItem) (number : ℕ) → nodes.parent ≡ Some (item, number) → number < node_count (tree_of self.now) }
        requires until { node_place self.now.place nodes.end ≤ until }
        requires inside { until ≤ window.old.end }
        requires ahead { ahead window.old ≤ until }
        ensures found { OnOk result (IfTold (S.seen source.old) (λ image. (k : ℕ) → nodes.level ≡ place_of_node (tree_of self.now) k 0
            → found.new.items ≡ found.old.items ++ found_among self.now image k (range_with_len (nodes.first - nodes.level) (nodes.end - nodes.first)))) }
        ensures rise { OnOk result ((low : ℕ) → Ascends low (nodes.first - nodes.level) (numbers found.old.items) → Ascends low (nodes.end - nodes.level) (numbers found.new.items)) }
        ensures group { (k i : ℕ) → AreChildren (tree_of self.now) k i nodes.first nodes.end → IfTold (S.seen source.old) (λ image.
            nodes.parent ≡ Some (nodes_of self.now image (place_of_node (tree_of self.now) (k + 1) i), place_of_node (tree_of self.now) (k + 1) i) → IsFirstRead (group_faults (tree_of self.now) (nodes_of self.now image) self.now.place k i) result) }
        ensures root { nodes.first ≡ 0 → nodes.end ≡ 1 → nodes.parent ≡ None → IfTold (S.seen source.old) (λ image.
            IsFirstRead (root_faults (tree_of self.now) (nodes_of self.now image) self.now.place) result) }
        ensures over { OnOk result (IsOverIndex self.now window.new (S.seen source.new)) }
        ensures passes { OnOk result (GoesTo window.old window.new (node_place self.now.place nodes.end) until) }
        ensures reads { OnOk result (Reads (IsOfIndex self.now) (S.seen source.old) (S.seen source.new) (range_with_len (ahead window.old) (ahead window.new - ahead window.old))) }
        ensures front { OnErr result (ReadsFront (IsOfIndex self.now) (S.seen source.old) (S.seen source.new) (range_with_len (ahead window.old) (until - ahead window.old))) }
        ensures failed { IsErrOf result ReadStop.SourceFailed → Rose (S.seen source.old).faults (S.seen source.new).faults }
    {
        let len = NODE * (nodes.end - nodes.first) as usize;
        window.fill_until(source, len, until)?;
        let group = Group::new(&window.bytes()[..len], nodes.first, self.place);
        group.check_group(nodes.parent, self.levels)?;
        add_hits(found, &group, nodes.first - nodes.level, self.bounds)?;
        window.pass(len);
        Ok(())
    }
}

/// How many neighbours stand in front.
fn run_len(nodes: &[Hit]) -> usize
    requires some { 0 < length nodes.now }
    requires small { first_number nodes.now ≤ 2 ^ 48 }
    ensures some { 0 < result }
    ensures within { result ≤ length nodes.now }
    ensures neighbours { numbers (take result nodes.now) ≡ range_with_len (first_number nodes.now) result }
    ensures all { (next : Hit) → slice_get nodes.now result ≡ Some next → next.number ≢ first_number nodes.now + result }
{
    let first = nodes[0].number;
    for (i, node) in nodes.iter().enumerate() {
        if node.number != first + i as u64 {
            return i;
        }
    }
    nodes.len()
}

/// Adds the nodes of a group, the first of which has this place in its level, whose boxes meet the bounds.
fn add_hits(
    found: &mut Vec<Hit>,
    group: &Group,
    first: u64,
    bounds: Bounds,
) -> Result<(), AllocError>
    requires { first + length (bytes_in group.now) ≤ 2 ^ 48 }
    ensures { OnOk result (found.new.items ≡ found.old.items ++ group_hits group.now first (meets_box bounds) (length (bytes_in group.now) / 40)) }
{
    for i in 0..group.len() {
        let item = group.item(i);
        if item.bounds.meets(bounds) {
            let number = first + i as u64;
            found.push(Hit { number, item })?;
        }
    }
    Ok(())
}
