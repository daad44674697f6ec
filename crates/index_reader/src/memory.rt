// An index in memory.
ghost use Rattle.std.specs.Prelude.{◌≡◌, ℕ, Some, None, ◌+◌, ◌*◌, ◌<◌, ◌≤◌, ◌^◌, MatchResult, length};
ghost use Rattle.flat_layout.specs.Promises.{IsClean};
ghost use Rattle.level_bounds.specs.Levels.{IsNode, node_count, place as place_of_node};
ghost use Rattle.level_bounds.specs.Shapes.{shape_of};
ghost use Rattle.node_items.specs.Faults.{BreaksTree, IsFirstOf, group_faults, root_faults};
ghost use Rattle.node_items.specs.declared.item.NodeItem.{NodeItem};
ghost use Rattle.node_items.specs.Nodes.{stored};
ghost use Rattle.index_reader.specs.Parts.{AreChildren};

use crate::groups::judge_group;
use flat_layout::Broken;
use level_bounds::Levels;
use node_items::{NODE, NodeItem};

/// Judges all nodes of the index that begins at this place of a file, from the root down. Refuses NodeBox, ChildOffset
/// or ParentBox at a node.
pub fn judge_index(file: &[u8], place: usize, levels: &Levels) -> Result<(), Broken>
    requires inside { place + 40 * node_count (shape_of levels.now) ≤ length file.now }
    requires small { length file.now ≤ 2 ^ 48 }
    ensures { MatchResult result (λ _. IsClean (BreaksTree (shape_of levels.now) (stored file.now place) place))
        (λ broken. BreaksTree (shape_of levels.now) (stored file.now place) place broken.place broken.rule) }
{
    judge_nodes(file, place, 0, 1, None, levels)?;
    for parent in 0..levels.level(0).0 {
        judge_children(file, place, parent, levels)?;
    }
    Ok(())
}

/// Judges the children of the inner node with this number.
fn judge_children(file: &[u8], place: usize, parent: u64, levels: &Levels) -> Result<(), Broken>
    requires inside { place + 40 * node_count (shape_of levels.now) ≤ length file.now }
    requires small { length file.now ≤ 2 ^ 48 }
    requires inner { parent < place_of_node (shape_of levels.now) 0 0 }
    ensures { let t = shape_of levels.now in (k i : ℕ) → IsNode t (k + 1) i → parent ≡ place_of_node t (k + 1) i
        → IsFirstOf (group_faults t (stored file.now place) place k i) result }
{
    let item = node(file, place, parent);
    let (first, end) = levels.group(parent);
    judge_nodes(file, place, first, end, Some((item, parent)), levels)
}

/// Judges the nodes with these numbers, which are all children of this parent, or the root where there is none.
fn judge_nodes(
    file: &[u8],
    place: usize,
    first: u64,
    end: u64,
    parent: Option<(NodeItem, u64)>,
    levels: &Levels,
) -> Result<(), Broken>
    requires inside { place + 40 * node_count (shape_of levels.now) ≤ length file.now }
    requires small { length file.now ≤ 2 ^ 48 }
    requires order { first < end }
    requires within { end ≤ node_count (shape_of levels.now) }
    requires known { (item : NodeItem) (number : ℕ) → parent ≡ Some (item, number) → number < node_count (shape_of levels.now) }
    ensures group { let t = shape_of levels.now in (k i : ℕ) → AreChildren t k i first end
        → parent ≡ Some (stored file.now place (place_of_node t (k + 1) i), place_of_node t (k + 1) i) → IsFirstOf (group_faults t (stored file.now place) place k i) result }
    ensures root { let t = shape_of levels.now in first ≡ 0 → end ≡ 1 → parent ≡ None → IsFirstOf (root_faults t (stored file.now place) place) result }
{
    let from = place + NODE * first as usize;
    let till = place + NODE * end as usize;
    judge_group(&file[from..till], first, parent, place as u64, levels)
}

/// The node with this number.
fn node(file: &[u8], place: usize, number: u64) -> NodeItem
    requires inside { place + 40 * number + 40 ≤ length file.now }
    requires small { length file.now ≤ 2 ^ 48 }
    ensures { result ≡ stored file.now place number }
{
    NodeItem::read(&file[place + NODE * number as usize..])
}

/// Leaf k of the index that begins at this place of a file.
pub fn leaf(file: &[u8], place: usize, levels: &Levels, k: u64) -> NodeItem
    requires inside { place + 40 * node_count (shape_of levels.now) ≤ length file.now }
    requires small { length file.now ≤ 2 ^ 48 }
    requires some { k < (shape_of levels.now).leaves }
    ensures { result ≡ stored file.now place (place_of_node (shape_of levels.now) 0 k) }
{
    node(file, place, levels.level(0).0 + k)
}
