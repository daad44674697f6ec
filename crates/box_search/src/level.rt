// The search through one level.
ghost use Rattle.std.specs.Prelude.{◌≡◌, ◌+◌, ◌-◌, ◌*◌, ◌<◌, ◌≤◌, ◌^◌, ◌++◌, ℕ, [], ◌∷◌, Bool, true, length, take, Option, Some, None, IfOk, OnOk, OnErr, IsErrOf};
ghost use Rattle.std.specs.List.{range_with_len};
ghost use Rattle.fgb_outside.specs.Source.{IfTold, Rose};
ghost use Rattle.fgb_outside.specs.Asked.{Ascends, Reads, ReadsFront};
ghost use Rattle.section_window.specs.Window.{ahead};
ghost use Rattle.gap_window.specs.Gaps.{behind, bridged, bridged_behind};
ghost use Rattle.gap_window.specs.Bridging.{asks_from, last_asked};
ghost use Rattle.level_bounds.specs.Levels.{IsNode, children_end, first_child, node_count, place as place_of_node, width};
ghost use Rattle.node_items.specs.declared.item.NodeItem.{NodeItem};
ghost use Rattle.node_items.specs.Faults.{group_faults, root_faults};
ghost use Rattle.node_items.specs.Nodes.{node_place};
ghost use Rattle.index_reader.specs.Parts.{AreChildren, IsFirstRead};
ghost use Rattle.tree_search.specs.Descent.{AreFrom, all_children, children_before, children_of, first_number, numbers};
ghost use Rattle.box_search.specs.Following.{HaveNext, KeepNext, Tells, next_before, next_of, next_under, one_for};
ghost use Rattle.box_search.specs.Hits.{plains, room_for};
ghost use Rattle.box_search.specs.Runs.{AreNear, StaysBefore, ends_at, hole_between, is_near as near};
ghost use Rattle.box_search.specs.Sought.{GoesTo, IsBehind, IsOfIndex, IsOverIndex, faults_under, found_among, found_in, found_under, hit_in, nodes_of, place_in, positions_in, test_of, tree_of};

use crate::nodes::{Hit, add_hits, is_followed, peek, with_next};
use box_list::Boxes;
use fgb_outside::RangeSource;
use gap_window::GapWindow;
use level_bounds::Levels;
use node_items::{Group, NODE, NodeItem};
use read_stop::ReadStop;
use std::alloc::Global;

/// A search through the index that begins at this place, from level to level.
#[derive(Clone, Copy)]
pub(crate) struct Descent<'a> {
    pub(crate) place: u64,
    pub(crate) levels: &'a Levels,
    pub(crate) boxes: &'a Boxes,
    /// Holes of so many bytes are not asked for.
    pub(crate) gap: u32,
}

/// Nodes that stand together and are judged together: all children of a node, or the root.
#[derive(Clone, Copy)]
struct Siblings {
    /// The numbers of the first of them, and of the first node behind them.
    first: u64,
    end: u64,
    /// The number of the first node of their level.
    level: u64,
    /// The node that they are children of, with its number.
    parent: Option<(NodeItem, u64)>,
    /// Whether the node behind them is wanted, too.
    is_followed: bool,
}

impl<'a> Descent<'a> {
    /// The root, if its box meets one of the boxes.
    pub(crate) fn root<S: RangeSource>(
        &self,
        alloc: Global,
        window: &mut GapWindow,
        source: &mut S,
    ) -> Result<Vec<Hit>, ReadStop>
        requires over { IsOverIndex self.now window.old (S.seen source.old) }
        requires small { self.now.place + 40 * node_count (tree_of self.now) ≤ 2 ^ 48 }
        requires stands { window.old.held.at ≡ self.now.place }
        requires none { last_asked window.old ≡ None }
        requires empty { window.old.held.bytes ≡ [] }
        ensures found { IfOk result (λ found. IfTold (S.seen source.old) (λ image.
            plains found.items ≡ found_in self.now image (tree_of self.now).top)) }
        ensures next { IfOk result (λ found. IfTold (S.seen source.old) (λ image. HaveNext (next_of (tree_of self.now) (nodes_of self.now image) (test_of self.now) (tree_of self.now).top) found.items)) }
        ensures rise { IfOk result (λ found. Ascends 0 (width (tree_of self.now) (tree_of self.now).top) (numbers (plains found.items))) }
        ensures judged { IfTold (S.seen source.old) (λ image. IsFirstRead (root_faults (tree_of self.now) (nodes_of self.now image) self.now.place) result) }
        ensures behind { OnOk result (IsBehind self.now window.new (tree_of self.now).top (width (tree_of self.now) (tree_of self.now).top)) }
        ensures over { OnOk result (IsOverIndex self.now window.new (S.seen source.new)) }
        ensures last { OnOk result (last_asked window.new ≡ behind None (positions_in self.now (tree_of self.now).top (0 ∷ []))) }
        ensures reads { OnOk result (Reads (IsOfIndex self.now) (S.seen source.old) (S.seen source.new) (bridged self.now.gap (positions_in self.now (tree_of self.now).top (0 ∷ [])))) }
        ensures front { OnErr result (ReadsFront (IsOfIndex self.now) (S.seen source.old) (S.seen source.new) (bridged self.now.gap (positions_in self.now (tree_of self.now).top (0 ∷ [])))) }
        ensures failed { IsErrOf result ReadStop.SourceFailed → Rose (S.seen source.old).faults (S.seen source.new).faults }
    {
        let mut found = Vec::new(alloc);
        let root = Siblings {
            first: 0,
            end: 1,
            level: 0,
            parent: None,
            is_followed: false,
        };
        let until = self.place + NODE as u64;
        self.siblings(&mut found, window, source, root, until)?;
        Ok(found)
    }

    /// The nodes of level k whose boxes meet one of the boxes, of those under these nodes of the level above it, which
    /// ascend. Nodes between which no hole is to stay are read together.
    pub(crate) fn level<S: RangeSource>(
        &self,
        alloc: Global,
        window: &mut GapWindow,
        source: &mut S,
        k: usize,
        parents: &[Hit],
    ) -> Result<Vec<Hit>, ReadStop>
        requires over { IsOverIndex self.now window.old (S.seen source.old) }
        requires small { self.now.place + 40 * node_count (tree_of self.now) ≤ 2 ^ 48 }
        requires level { k < (tree_of self.now).top }
        requires rise { Ascends 0 (width (tree_of self.now) (k + 1)) (numbers (plains parents.now)) }
        requires behind { IsBehind self.now window.old k 0 }
        ensures found { IfOk result (λ found. IfTold (S.seen source.old) (λ image.
            plains found.items ≡ found_under self.now image k (numbers (plains parents.now)))) }
        ensures next { IfOk result (λ found. IfTold (S.seen source.old) (λ image. (passing : ℕ → Bool) → Tells passing (numbers (plains parents.now))
            → HaveNext (next_under (tree_of self.now) (nodes_of self.now image) k passing) found.items)) }
        ensures rise { IfOk result (λ found. Ascends 0 (width (tree_of self.now) k) (numbers (plains found.items))) }
        ensures behind { OnOk result (IsBehind self.now window.new k (width (tree_of self.now) k)) }
        ensures judged { IfTold (S.seen source.old) (λ image. AreFrom (tree_of self.now) (nodes_of self.now image) (k + 1) (plains parents.now)
            → IsFirstRead (faults_under self.now image k (numbers (plains parents.now))) result) }
        ensures over { OnOk result (IsOverIndex self.now window.new (S.seen source.new)) }
        ensures last { OnOk result (last_asked window.new ≡ behind (last_asked window.old) (positions_in self.now k (all_children (tree_of self.now) k (numbers (plains parents.now))))) }
        ensures reads { OnOk result (Reads (IsOfIndex self.now) (S.seen source.old) (S.seen source.new) (bridged_behind self.now.gap (last_asked window.old) (positions_in self.now k (all_children (tree_of self.now) k (numbers (plains parents.now)))))) }
        ensures front { OnErr result (ReadsFront (IsOfIndex self.now) (S.seen source.old) (S.seen source.new) (bridged_behind self.now.gap (last_asked window.old) (positions_in self.now k (all_children (tree_of self.now) k (numbers (plains parents.now)))))) }
        ensures failed { IsErrOf result ReadStop.SourceFailed → Rose (S.seen source.old).faults (S.seen source.new).faults }
    {
        let mut found = Vec::new(alloc);
        let mut rest = parents;
        while !rest.is_empty() {
            let (run, later) = rest.split_at(self.run_len(k, rest));
            self.run(&mut found, window, source, k, run)?;
            rest = later;
        }
        Ok(found)
    }

    /// Adds the children of these nodes of level k + 1, between which no hole is to stay, whose boxes meet one of the
    /// boxes.
    fn run<S: RangeSource>(
        &self,
        found: &mut Vec<Hit>,
        window: &mut GapWindow,
        source: &mut S,
        k: usize,
        run: &[Hit],
    ) -> Result<(), ReadStop>
        requires over { IsOverIndex self.now window.old (S.seen source.old) }
        requires small { self.now.place + 40 * node_count (tree_of self.now) ≤ 2 ^ 48 }
        requires level { k < (tree_of self.now).top }
        requires some { 0 < length run.now }
        requires near { AreNear (tree_of self.now) k self.now.gap (numbers (plains run.now)) }
        requires behind { (low : ℕ) × (Ascends low (width (tree_of self.now) (k + 1)) (numbers (plains run.now)) × IsBehind self.now window.old k (children_before (tree_of self.now) k low)) }
        ensures found { OnOk result (IfTold (S.seen source.old) (λ image.
            plains found.new.items ≡ plains found.old.items ++ found_under self.now image k (numbers (plains run.now)))) }
        ensures next { OnOk result (IfTold (S.seen source.old) (λ image. (passing : ℕ → Bool) → Tells passing (numbers (plains run.now))
            → KeepNext (next_under (tree_of self.now) (nodes_of self.now image) k passing) found.old.items found.new.items)) }
        ensures rise { OnOk result ((low : ℕ) → Ascends low (first_child (tree_of self.now) (first_number (plains run.now))) (numbers (plains found.old.items))
            → Ascends low (ends_at (tree_of self.now) k (numbers (plains run.now))) (numbers (plains found.new.items))) }
        ensures behind { OnOk result (IsBehind self.now window.new k (ends_at (tree_of self.now) k (numbers (plains run.now)))) }
        ensures judged { IfTold (S.seen source.old) (λ image. AreFrom (tree_of self.now) (nodes_of self.now image) (k + 1) (plains run.now)
            → IsFirstRead (faults_under self.now image k (numbers (plains run.now))) result) }
        ensures over { OnOk result (IsOverIndex self.now window.new (S.seen source.new)) }
        ensures last { OnOk result (last_asked window.new ≡ behind (last_asked window.old) (positions_in self.now k (all_children (tree_of self.now) k (numbers (plains run.now))))) }
        ensures reads { OnOk result (Reads (IsOfIndex self.now) (S.seen source.old) (S.seen source.new) (bridged_behind self.now.gap (last_asked window.old) (positions_in self.now k (all_children (tree_of self.now) k (numbers (plains run.now)))))) }
        ensures front { OnErr result (ReadsFront (IsOfIndex self.now) (S.seen source.old) (S.seen source.new) (bridged_behind self.now.gap (last_asked window.old) (positions_in self.now k (all_children (tree_of self.now) k (numbers (plains run.now)))))) }
        ensures failed { IsErrOf result ReadStop.SourceFailed → Rose (S.seen source.old).faults (S.seen source.new).faults }
    {
        let (_, end) = self.children(k, run[run.len() - 1].number);
        let until = self.place + NODE as u64 * end;
        for (i, parent) in run.iter().enumerate() {
            let goes_on = is_followed(run, i);
            self.group(found, window, source, k, *parent, goes_on, until)?;
        }
        Ok(())
    }

    /// How many of these nodes of level k + 1 stand in front with no hole between their children that is to stay.
    fn run_len(&self, k: usize, nodes: &[Hit]) -> usize
        requires small { self.now.place + 40 * node_count (tree_of self.now) ≤ 2 ^ 48 }
        requires level { k < (tree_of self.now).top }
        requires some { 0 < length nodes.now }
        requires rise { (low : ℕ) × Ascends low (width (tree_of self.now) (k + 1)) (numbers (plains nodes.now)) }
        ensures some { 0 < result }
        ensures within { result ≤ length nodes.now }
        ensures near { AreNear (tree_of self.now) k self.now.gap (numbers (plains (take result nodes.now))) }
        ensures all { StaysBefore (tree_of self.now) k self.now.gap (numbers (plains nodes.now)) result }
    {
        for i in 1..nodes.len() {
            if !self.is_near(k, nodes[i - 1].number, nodes[i].number) {
                return i;
            }
        }
        nodes.len()
    }

    /// Whether no hole that is to stay lies between the children of two nodes of level k + 1.
    fn is_near(&self, k: usize, node: u64, later: u64) -> bool
        requires small { self.now.place + 40 * node_count (tree_of self.now) ≤ 2 ^ 48 }
        requires first { IsNode (tree_of self.now) (k + 1) node }
        requires second { IsNode (tree_of self.now) (k + 1) later }
        requires order { node < later }
        ensures { result ≡ near (tree_of self.now) k self.now.gap node later }
    {
        let hole = self.hole(k, node, later);
        hole == 0 || hole < self.gap as u64
    }

    /// The bytes between the children of two nodes of level k + 1.
    fn hole(&self, k: usize, node: u64, later: u64) -> u64
        requires small { self.now.place + 40 * node_count (tree_of self.now) ≤ 2 ^ 48 }
        requires first { IsNode (tree_of self.now) (k + 1) node }
        requires second { IsNode (tree_of self.now) (k + 1) later }
        requires order { node < later }
        ensures { result ≡ hole_between (tree_of self.now) k node later }
    {
        let (_, end) = self.children(k, node);
        let (first, _) = self.children(k, later);
        NODE as u64 * (first - end)
    }

    /// The numbers of the first child of a node of level k + 1, and of the first node behind its children.
    fn children(&self, k: usize, node: u64) -> (u64, u64)
        requires { IsNode (tree_of self.now) (k + 1) node }
        ensures first { result.0 ≡ place_of_node (tree_of self.now) k (first_child (tree_of self.now) node) }
        ensures end { result.1 ≡ place_of_node (tree_of self.now) k (children_end (tree_of self.now) k node) }
        ensures order { result.0 < result.1 }
        ensures within { result.1 ≤ node_count (tree_of self.now) }
    {
        self.levels.group(self.levels.level(k + 1).0 + node)
    }

    /// Adds the children of a node of level k + 1 whose boxes meet one of the boxes. The window asks for nothing from
    /// `until` on.
    fn group<S: RangeSource>(
        &self,
        found: &mut Vec<Hit>,
        window: &mut GapWindow,
        source: &mut S,
        k: usize,
        parent: Hit,
        goes_on: bool,
        until: u64,
    ) -> Result<(), ReadStop>
        requires over { IsOverIndex self.now window.old (S.seen source.old) }
        requires small { self.now.place + 40 * node_count (tree_of self.now) ≤ 2 ^ 48 }
        requires node { IsNode (tree_of self.now) (k + 1) parent.number }
        requires follows { goes_on ≡ true → parent.number + 1 < width (tree_of self.now) (k + 1) }
        requires onward { window.old.held.at ≤ place_in self.now k (first_child (tree_of self.now) parent.number) }
        requires until { place_in self.now k (children_end (tree_of self.now) k parent.number) + room_for goes_on ≤ until }
        requires inside { until ≤ window.old.held.end }
        requires ahead { ahead window.old.held ≤ until }
        ensures found { OnOk result (IfTold (S.seen source.old) (λ image.
            plains found.new.items ≡ plains found.old.items ++ found_among self.now image k (children_of (tree_of self.now) k parent.number))) }
        ensures next { OnOk result (IfTold (S.seen source.old) (λ image. (passing : ℕ → Bool) → passing parent.number ≡ true → passing (parent.number + 1) ≡ goes_on
            → KeepNext (next_under (tree_of self.now) (nodes_of self.now image) k passing) found.old.items found.new.items)) }
        ensures rise { OnOk result ((low : ℕ) → Ascends low (first_child (tree_of self.now) parent.number) (numbers (plains found.old.items)) → Ascends low (children_end (tree_of self.now) k parent.number) (numbers (plains found.new.items))) }
        ensures judged { IfTold (S.seen source.old) (λ image. parent.item ≡ nodes_of self.now image (place_of_node (tree_of self.now) (k + 1) parent.number)
            → IsFirstRead (group_faults (tree_of self.now) (nodes_of self.now image) self.now.place k parent.number) result) }
        ensures over { OnOk result (IsOverIndex self.now window.new (S.seen source.new)) }
        ensures passes { OnOk result (GoesTo window.old window.new (place_in self.now k (first_child (tree_of self.now) parent.number)) (place_in self.now k (children_end (tree_of self.now) k parent.number)) until) }
        ensures reads { let from = asks_from window.old (place_in self.now k (first_child (tree_of self.now) parent.number)) in
            OnOk result (Reads (IsOfIndex self.now) (S.seen source.old) (S.seen source.new) (range_with_len from (ahead window.new.held - from))) }
        ensures front { let from = asks_from window.old (place_in self.now k (first_child (tree_of self.now) parent.number)) in
            OnErr result (ReadsFront (IsOfIndex self.now) (S.seen source.old) (S.seen source.new) (range_with_len from (until - from))) }
        ensures failed { IsErrOf result ReadStop.SourceFailed → Rose (S.seen source.old).faults (S.seen source.new).faults }
    {
        let (first, end) = self.children(k, parent.number);
        let children = Siblings {
            first,
            end,
            level: self.levels.level(k).0,
            parent: Some((parent.item, self.levels.level(k + 1).0 + parent.number)),
            is_followed: goes_on,
        };
        self.siblings(found, window, source, children, until)
    }

    /// Reads and judges these nodes, and adds those whose boxes meet one of the boxes.
    fn siblings<S: RangeSource>(
        &self,
        found: &mut Vec<Hit>,
        window: &mut GapWindow,
        source: &mut S,
        nodes: Siblings,
        until: u64,
    ) -> Result<(), ReadStop>
        requires over { IsOverIndex self.now window.old (S.seen source.old) }
        requires small { self.now.place + 40 * node_count (tree_of self.now) ≤ 2 ^ 48 }
        requires onward { window.old.held.at ≤ node_place self.now.place nodes.first }
        requires order { nodes.first < nodes.end }
        requires within { nodes.end ≤ node_count (tree_of self.now) }
        requires level { nodes.level ≤ nodes.first }
        requires known { (item : NodeItem) (number : ℕ) → nodes.parent ≡ Some (item, number) → number < node_count (tree_of self.now) }
        requires until { node_place self.now.place nodes.end + room_for nodes.is_followed ≤ until }
        requires inside { until ≤ window.old.held.end }
        requires ahead { ahead window.old.held ≤ until }
        ensures found { OnOk result (IfTold (S.seen source.old) (λ image. (k : ℕ) → nodes.level ≡ place_of_node (tree_of self.now) k 0
            → plains found.new.items ≡ plains found.old.items ++ found_among self.now image k (range_with_len (nodes.first - nodes.level) (nodes.end - nodes.first)))) }
        ensures next { OnOk result (IfTold (S.seen source.old) (λ image. (k : ℕ) → nodes.level ≡ place_of_node (tree_of self.now) k 0 → (next : ℕ → Option ℕ)
            → ((i : ℕ) → nodes.first - nodes.level ≤ i → i < nodes.end - nodes.level → next i ≡ next_before (tree_of self.now) (nodes_of self.now image) k (nodes.end - nodes.level + one_for nodes.is_followed) i)
            → KeepNext next found.old.items found.new.items)) }
        ensures rise { OnOk result ((low : ℕ) → Ascends low (nodes.first - nodes.level) (numbers (plains found.old.items)) → Ascends low (nodes.end - nodes.level) (numbers (plains found.new.items))) }
        ensures group { (k i : ℕ) → AreChildren (tree_of self.now) k i nodes.first nodes.end → IfTold (S.seen source.old) (λ image.
            nodes.parent ≡ Some (nodes_of self.now image (place_of_node (tree_of self.now) (k + 1) i), place_of_node (tree_of self.now) (k + 1) i) → IsFirstRead (group_faults (tree_of self.now) (nodes_of self.now image) self.now.place k i) result) }
        ensures root { nodes.first ≡ 0 → nodes.end ≡ 1 → nodes.parent ≡ None → IfTold (S.seen source.old) (λ image.
            IsFirstRead (root_faults (tree_of self.now) (nodes_of self.now image) self.now.place) result) }
        ensures over { OnOk result (IsOverIndex self.now window.new (S.seen source.new)) }
        ensures passes { OnOk result (GoesTo window.old window.new (node_place self.now.place nodes.first) (node_place self.now.place nodes.end) until) }
        ensures reads { let from = asks_from window.old (node_place self.now.place nodes.first) in
            OnOk result (Reads (IsOfIndex self.now) (S.seen source.old) (S.seen source.new) (range_with_len from (ahead window.new.held - from))) }
        ensures front { let from = asks_from window.old (node_place self.now.place nodes.first) in
            OnErr result (ReadsFront (IsOfIndex self.now) (S.seen source.old) (S.seen source.new) (range_with_len from (until - from))) }
        ensures failed { IsErrOf result ReadStop.SourceFailed → Rose (S.seen source.old).faults (S.seen source.new).faults }
    {
        let len = NODE * (nodes.end - nodes.first) as usize;
        let want = with_next(len, nodes.is_followed);
        let to = self.place + NODE as u64 * nodes.first;
        window.reach(source, to, want, until)?;
        let group = Group::new(&window.bytes()[..len], nodes.first, self.place);
        group.check_group(nodes.parent, self.levels)?;
        let behind = peek(window, len, nodes.is_followed);
        add_hits(found, &group, nodes.first - nodes.level, behind, self.boxes)?;
        window.pass(len);
        Ok(())
    }
}
