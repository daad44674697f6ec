// A leaf beside its feature.
ghost use Rattle.std.specs.Prelude.{◌≡◌, MatchResult};
ghost use Rattle.fgb_check.specs.Leaves.{Agrees, Differs};

use flat_views::{Broken, Rule};
use node_items::NodeItem;
use order_keys::Bounds;

/// Judges a leaf that stands at `place` by the offset and the own box of its feature: refuses LeafOffset, or LeafBox
/// where the boxes differ by their keys.
pub(crate) fn judge_leaf(leaf: NodeItem, place: u64, offset: u64, own: Bounds) -> Result<(), Broken>
    ensures { MatchResult result (λ _. Agrees leaf offset own) (λ broken. (broken.place ≡ place) × Differs leaf offset own broken.rule) }
{
    if leaf.offset != offset {
        return Err(Broken {
            place,
            rule: Rule::LeafOffset,
        });
    }
    if !leaf.bounds.same(own) {
        return Err(Broken {
            place,
            rule: Rule::LeafBox,
        });
    }
    Ok(())
}
