// The nodes of an index of a source.
ghost use Rattle.std.specs.Prelude.{◌≡◌, ℕ, ◌+◌, ◌*◌, ◌<◌, ◌≤◌, ◌^◌, Some, None, slice_range, IfOk, OnOk, IsErrOf, MatchResult};
ghost use Rattle.flat_layout.specs.Promises.{IsClean};
ghost use Rattle.fgb_outside.specs.Source.{IfTold, Rose};
ghost use Rattle.fgb_outside.specs.Asked.{IsInside};
ghost use Rattle.section_window.specs.Window.{Shows};
ghost use Rattle.level_bounds.specs.Levels.{IsNode, node_count, place as place_of_node};
ghost use Rattle.level_bounds.specs.Shapes.{shape_of};
ghost use Rattle.node_items.specs.declared.item.NodeItem.{NodeItem};
ghost use Rattle.node_items.specs.Faults.{BreaksTree, group_faults, root_faults};
ghost use Rattle.node_items.specs.Nodes.{node_of, stored};
ghost use Rattle.read_stop.specs.Asks.{AsksOnly};
ghost use Rattle.read_stop.specs.Stops.{IfRefused};
ghost use Rattle.index_reader.specs.Parts.{AreChildren, IsFirstRead};
ghost use Rattle.index_reader.specs.Windows.{StandAt};

use crate::groups::judge_group;
use fgb_outside::{RangeSource, SourceError};
use level_bounds::Levels;
use node_items::{NODE, NodeItem};
use read_stop::ReadStop;
use section_window::Window;
use std::alloc::Global;

/// Judges all nodes of the index that begins at this place of a source, from the root down. Refuses NodeBox,
/// ChildOffset or ParentBox at a node.
pub fn read_index<S: RangeSource>(
    alloc: Global,
    source: &mut S,
    place: u64,
    levels: &Levels,
) -> Result<(), ReadStop>
    requires inside { place + 40 * node_count (shape_of levels.now) ≤ (S.seen source.old).size }
    requires small { place + 40 * node_count (shape_of levels.now) ≤ 2 ^ 48 }
    ensures clean { OnOk result (IfTold (S.seen source.old) (λ image. IsClean (BreaksTree (shape_of levels.now) (stored image place) place))) }
    ensures refused { IfRefused result (λ broken. IfTold (S.seen source.old) (λ image. BreaksTree (shape_of levels.now) (stored image place) place broken.place broken.rule)) }
    ensures asked { AsksOnly (IsInside place (place + 40 * node_count (shape_of levels.now))) (S.seen source.old) (S.seen source.new) }
    ensures failed { IsErrOf result ReadStop.SourceFailed → Rose (S.seen source.old).faults (S.seen source.new).faults }
{
    let inner = levels.level(0).0;
    let mut nodes = Window::new(alloc, place, place + NODE as u64 * levels.nodes());
    let mut parents = Window::new(alloc, place, place + NODE as u64 * inner);
    read_group(&mut nodes, source, 0, 1, None, place, levels)?;
    for number in 0..inner {
        read_children(&mut parents, &mut nodes, source, number, place, levels)?;
    }
    Ok(())
}

/// Reads the inner node with this number, which stands next, and then reads and judges its children.
fn read_children<S: RangeSource>(
    parents: &mut Window,
    nodes: &mut Window,
    source: &mut S,
    number: u64,
    place: u64,
    levels: &Levels,
) -> Result<(), ReadStop>
    requires shows { Shows parents.old (S.seen source.old) × Shows nodes.old (S.seen source.old) }
    requires stand { StandAt (shape_of levels.now) place number parents.old nodes.old }
    requires inner { number < place_of_node (shape_of levels.now) 0 0 }
    ensures judged { let t = shape_of levels.now in (k i : ℕ) → IsNode t (k + 1) i → number ≡ place_of_node t (k + 1) i
        → IfTold (S.seen source.old) (λ image. IsFirstRead (group_faults t (stored image place) place k i) result) }
    ensures stand { OnOk result (StandAt (shape_of levels.now) place (number + 1) parents.new nodes.new) }
    ensures shows { Shows parents.new (S.seen source.new) × Shows nodes.new (S.seen source.new) }
    ensures asked { AsksOnly (IsInside place (place + 40 * node_count (shape_of levels.now))) (S.seen source.old) (S.seen source.new) }
    ensures failed { IsErrOf result ReadStop.SourceFailed → Rose (S.seen source.old).faults (S.seen source.new).faults }
{
    let parent = read_node(parents, source)?;
    let (first, end) = levels.group(number);
    read_group(
        nodes,
        source,
        first,
        end,
        Some((parent, number)),
        place,
        levels,
    )
}

/// Reads the next node. After an error it is still the next.
pub(crate) fn read_node<S: RangeSource>(
    window: &mut Window,
    source: &mut S,
) -> Result<NodeItem, SourceError>
    requires shows { Shows window.old (S.seen source.old) }
    requires room { window.old.at + 40 ≤ window.old.end }
    ensures node { IfOk result (λ item. IfTold (S.seen source.old) (λ image. item ≡ node_of (slice_range image window.old.at (window.old.at + 40)))) }
    ensures passes { MatchResult result (λ _. window.new.at ≡ window.old.at + 40) (λ _. window.new.at ≡ window.old.at) }
    ensures end { window.new.end ≡ window.old.end }
    ensures shows { Shows window.new (S.seen source.new) }
    ensures asked { AsksOnly (IsInside window.old.at window.old.end) (S.seen source.old) (S.seen source.new) }
    ensures failed { IsErrOf result SourceError.Failed → Rose (S.seen source.old).faults (S.seen source.new).faults }
{
    window.fill(source, NODE)?;
    let item = NodeItem::read(window.bytes());
    window.pass(NODE);
    Ok(item)
}

/// Reads and judges the nodes with these numbers, which stand next: all children of this parent, or the root where
/// there is none.
fn read_group<S: RangeSource>(
    window: &mut Window,
    source: &mut S,
    first: u64,
    end: u64,
    parent: Option<(NodeItem, u64)>,
    place: u64,
    levels: &Levels,
) -> Result<(), ReadStop>
    requires shows { Shows window.old (S.seen source.old) }
    requires stands { window.old.at ≡ place + 40 * first }
    requires end { window.old.end ≡ place + 40 * node_count (shape_of levels.now) }
    requires order { first < end }
    requires within { end ≤ node_count (shape_of levels.now) }
    requires known { (item : NodeItem) (number : ℕ) → parent ≡ Some (item, number) → number < node_count (shape_of levels.now) }
    ensures group { let t = shape_of levels.now in (k i : ℕ) → AreChildren t k i first end → IfTold (S.seen source.old) (λ image.
        parent ≡ Some (stored image place (place_of_node t (k + 1) i), place_of_node t (k + 1) i) → IsFirstRead (group_faults t (stored image place) place k i) result) }
    ensures root { let t = shape_of levels.now in first ≡ 0 → end ≡ 1 → parent ≡ None → IfTold (S.seen source.old) (λ image. IsFirstRead (root_faults t (stored image place) place) result) }
    ensures passes { OnOk result (window.new.at ≡ place + 40 * end) }
    ensures end { window.new.end ≡ window.old.end }
    ensures shows { Shows window.new (S.seen source.new) }
    ensures asked { AsksOnly (IsInside window.old.at window.old.end) (S.seen source.old) (S.seen source.new) }
    ensures failed { IsErrOf result ReadStop.SourceFailed → Rose (S.seen source.old).faults (S.seen source.new).faults }
{
    let len = NODE * (end - first) as usize;
    window.fill(source, len)?;
    judge_group(&window.bytes()[..len], first, parent, place, levels)?;
    window.pass(len);
    Ok(())
}
