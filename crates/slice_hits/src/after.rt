// What comes behind a node.
ghost use Rattle.std.specs.Prelude.{◌≡◌, ◌<◌, ℕ};
ghost use Rattle.level_bounds.specs.Levels.{IsNode, node_count, place};
ghost use Rattle.level_bounds.specs.Shapes.{shape_of};
ghost use Rattle.slice_hits.specs.Preorder.{ComesBehind};

use level_bounds::Levels;

/// The node that a walk from the root down comes to behind this one and all below it: the next of its group, or the
/// next one after an ancestor.
pub(crate) fn next_behind(levels: &Levels, node: u64) -> Option<u64>
    requires { node < node_count (shape_of levels.now) }
    ensures { let t = shape_of levels.now in (k i : ℕ) → IsNode t k i → node ≡ place t k i → ComesBehind t k i result }
{
    let mut last = node;
    while let Some(parent) = levels.parent(last) {
        let end = levels.group(parent).1;
        if last + 1 < end {
            return Some(last + 1);
        }
        last = parent;
    }
    None
}
