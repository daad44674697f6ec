// A leaf, and the feature where it says.
ghost use Rattle.std.specs.Prelude.{◌≡◌, ◌⊎◌, ◌+◌, ◌*◌, ◌<◌, ◌≤◌, ◌^◌, length, IfOk, IfErr, IsErrOf};
ghost use Rattle.flat_layout.specs.declared.Rule.TheVariants.{LeafPastEnd, LeafOrder};
ghost use Rattle.fgb_header.specs.Views.{header_shown};
ghost use Rattle.found_features.specs.Stops.{IfRefused};
ghost use Rattle.hit_runs.specs.Leaves.{IsAlike, RefusesRead};

use box_search::Hit;
use fgb_feature::FeatureView;
use fgb_reader::PREFIX;
use flat_views::{Broken, Rule};
use found_features::QueryError;
use hit_reader::Section;
use node_items::NODE;
use order_keys::Bounds;

/// This rule is broken at the leaf.
fn broken(section: &Section, hit: Hit, rule: Rule) -> Broken
    requires { section.now.leaves + 40 * hit.number ≤ 2 ^ 48 }
    ensures { result ≡ record { place = section.now.leaves + 40 * hit.number; rule = rule } }
{
    Broken {
        place: section.leaves + NODE as u64 * hit.number,
        rule,
    }
}

/// Where the leaf says that its feature stands. Refuses LeafPastEnd where no size prefix fits in there.
pub(crate) fn said_place(section: &Section, hit: Hit) -> Result<u64, Broken>
    requires order { section.now.first ≤ section.now.end }
    requires small { section.now.end ≤ 2 ^ 48 }
    requires leaf { section.now.leaves + 40 * hit.number ≤ 2 ^ 48 }
    ensures there { IfOk result (λ place. place ≡ section.now.first + hit.item.offset) }
    ensures fits { IfOk result (λ place. place + 4 ≤ section.now.end) }
    ensures past { IfErr result (λ broken. (section.now.end < section.now.first + hit.item.offset + 4)
        × (broken ≡ record { place = section.now.leaves + 40 * hit.number; rule = LeafPastEnd })) }
{
    let len = section.end - section.first;
    if len < 4 || hit.item.offset > len - 4 {
        return Err(broken(section, hit, Rule::LeafPastEnd));
    }
    Ok(section.first + hit.item.offset)
}

/// The same, of a leaf whose feature is due from `at` on. Refuses LeafOrder, too, where it says an earlier place.
pub(crate) fn due_place(section: &Section, hit: Hit, at: u64) -> Result<u64, Broken>
    requires order { section.now.first ≤ section.now.end }
    requires small { section.now.end ≤ 2 ^ 48 }
    requires leaf { section.now.leaves + 40 * hit.number ≤ 2 ^ 48 }
    ensures there { IfOk result (λ place. place ≡ section.now.first + hit.item.offset) }
    ensures fits { IfOk result (λ place. place + 4 ≤ section.now.end) }
    ensures onward { IfOk result (λ place. at ≤ place) }
    ensures refused { IfErr result (λ broken.
        ((section.now.end < section.now.first + hit.item.offset + 4) × (broken ≡ record { place = section.now.leaves + 40 * hit.number; rule = LeafPastEnd }))
        ⊎ ((section.now.first + hit.item.offset < at) × (broken ≡ record { place = section.now.leaves + 40 * hit.number; rule = LeafOrder }))) }
{
    let place = said_place(section, hit)?;
    if place < at {
        return Err(broken(section, hit, Rule::LeafOrder));
    }
    Ok(place)
}

/// Judges the feature in this buffer, whose size prefix stands at `place`, by itself and beside its leaf, and gives its
/// own box. Refuses LeafBox at the leaf, or what the buffer breaks.
pub(crate) fn judge(
    section: &Section,
    hit: Hit,
    place: u64,
    buffer: &[u8],
) -> Result<Bounds, QueryError>
    requires leaf { section.now.leaves + 40 * hit.number ≤ 2 ^ 48 }
    requires near { place + 4 ≤ 2 ^ 48 }
    requires small { length buffer.now ≤ 268435456 }
    ensures alike { IfOk result (λ own. IsAlike (header_shown section.now.header.now) hit buffer.now own) }
    ensures refused { IfRefused result (λ broken. RefusesRead (header_shown section.now.header.now) hit buffer.now (place + 4) section.now.leaves broken) }
    ensures unread { IsErrOf result QueryError.SourceFailed → ⊥ }
    ensures unstopped { IsErrOf result QueryError.VisitorStopped → ⊥ }
{
    let feature = FeatureView::read(buffer, place + PREFIX as u64, section.header)?;
    let bounds = feature.bounds();
    let same = hit.item.bounds.same(bounds);
    if !same {
        return Err(QueryError::Refused(broken(section, hit, Rule::LeafBox)));
    }
    Ok(bounds)
}
