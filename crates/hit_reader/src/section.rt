// Where the features and their leaves stand.
ghost use Rattle.std.specs.Prelude.{◌≡◌, ◌+◌, ◌*◌, ◌<◌, ◌≤◌, ◌^◌, IfErr, IfOk};
ghost use Rattle.flat_layout.specs.declared.Rule.TheVariants.{LeafPastEnd};

use fgb_header::HeaderView;
use flat_views::{Broken, Rule};
use node_items::NODE;
use tree_search::Hit;

/// The features of a file behind its index.
#[derive(Clone, Copy)]
pub struct Section<'h> {
    pub header: &'h HeaderView<'h>,
    /// Where the leaves stand, the first feature, and the end of the file.
    pub leaves: u64,
    pub first: u64,
    pub end: u64,
}

impl Section<'_> {
    /// This rule is broken at the leaf.
    pub(crate) fn broken(&self, hit: Hit, rule: Rule) -> Broken
        requires { self.now.leaves + 40 * hit.number ≤ 2 ^ 48 }
        ensures { result ≡ record { place = self.now.leaves + 40 * hit.number; rule = rule } }
    {
        Broken {
            place: self.leaves + NODE as u64 * hit.number,
            rule,
        }
    }

    /// Where the leaf says that its feature stands. Refuses LeafPastEnd where no size prefix fits in there.
    pub(crate) fn target(&self, hit: Hit) -> Result<u64, Broken>
        requires order { self.now.first ≤ self.now.end }
        requires small { self.now.end ≤ 2 ^ 48 }
        requires leaf { self.now.leaves + 40 * hit.number ≤ 2 ^ 48 }
        ensures there { IfOk result (λ target. target ≡ self.now.first + hit.item.offset) }
        ensures fits { IfOk result (λ target. target + 4 ≤ self.now.end) }
        ensures past { IfErr result (λ broken. (self.now.end < self.now.first + hit.item.offset + 4)
            × (broken ≡ record { place = self.now.leaves + 40 * hit.number; rule = LeafPastEnd })) }
    {
        let len = self.end - self.first;
        if len < 4 || hit.item.offset > len - 4 {
            return Err(self.broken(hit, Rule::LeafPastEnd));
        }
        Ok(self.first + hit.item.offset)
    }
}
