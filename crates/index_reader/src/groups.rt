// A group of nodes, from their bytes.
ghost use Rattle.std.specs.Prelude.{◌≡◌, ◌+◌, ◌*◌, ◌%◌, ◌<◌, ◌≤◌, ◌^◌, ℕ, List, length};
ghost use Rattle.level_bounds.specs.Levels.{node_count, place as place_of_node};
ghost use Rattle.level_bounds.specs.Shapes.{shape_of};
ghost use Rattle.node_items.specs.declared.item.NodeItem.{NodeItem};
ghost use Rattle.node_items.specs.Faults.{IsFirstOf, group_faults, root_faults};
ghost use Rattle.node_items.specs.Nodes.{stored};
ghost use Rattle.index_reader.specs.Parts.{AreChildren, AreStored};

use flat_layout::Broken;
use level_bounds::Levels;
use node_items::{Group, NodeItem};

/// Judges the nodes in these bytes, the first of which has this number, in an index that begins at this place: all
/// children of this parent, given with its number, or the root where there is none.
pub fn judge_group(
    bytes: &[u8],
    first: u64,
    parent: Option<(NodeItem, u64)>,
    place: u64,
    levels: &Levels,
) -> Result<(), Broken>
    requires some { 0 < length bytes.now }
    requires whole { length bytes.now % 40 ≡ 0 }
    requires inside { 40 * first + length bytes.now ≤ 40 * node_count (shape_of levels.now) }
    requires near { place ≤ 2 ^ 48 }
    requires known { (item : NodeItem) (number : ℕ) → parent ≡ Some (item, number) → number < node_count (shape_of levels.now) }
    ensures group { let t = shape_of levels.now in (image : List ℕ) (end k i : ℕ) → AreStored image place bytes.now first end → AreChildren t k i first end
        → parent ≡ Some (stored image place (place_of_node t (k + 1) i), place_of_node t (k + 1) i) → IsFirstOf (group_faults t (stored image place) place k i) result }
    ensures root { let t = shape_of levels.now in (image : List ℕ) → AreStored image place bytes.now 0 1 → first ≡ 0 → parent ≡ None
        → IsFirstOf (root_faults t (stored image place) place) result }
{
    Group::new(bytes, first, place).check_group(parent, levels)
}
