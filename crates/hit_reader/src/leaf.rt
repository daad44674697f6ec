// The feature where one leaf says.
ghost use Rattle.std.specs.Prelude.{◌≡◌, ◌+◌, ◌-◌, ◌*◌, ◌≤◌, ◌^◌, ◌∷◌, [], ℕ, max, length, IfOk, OnOk, OnErr, IsErrOf};
ghost use Rattle.std.specs.List.{range_with_len};
ghost use Rattle.level_bounds.specs.Levels.{Shape};
ghost use Rattle.fgb_outside.specs.Source.{IfTold, Rose};
ghost use Rattle.section_window.specs.Window.{ahead};
ghost use Rattle.fgb_header.specs.Views.{header_shown};
ghost use Rattle.fgb_file.specs.File.{IsFramed, node_in, size_at};
ghost use Rattle.tree_search.specs.Searches.{hit_of};
ghost use Rattle.found_features.specs.Stops.{IfRefused};
ghost use Rattle.found_features.specs.Visits.{Handed, TakesPart, TakesSome, TellsOnly};
ghost use Rattle.hit_reader.specs.Met.{BreaksHit, entry_at};
ghost use Rattle.hit_reader.specs.Going.{Hands, IsBehind, IsOver, IsSection};
ghost use Rattle.hit_reader.specs.Rising.{Covers, CoversPart, Rises, RisesPart, SkipsNothing};

use crate::feature::{fill_feature, hand_over};
use crate::section::Section;
use fgb_outside::RangeSource;
use fgb_reader::PREFIX;
use flat_views::Rule;
use found_features::{QueryError, Visitor};
use section_window::Window;
use tree_search::Hit;

/// Reads the feature where a leaf says, and no more than up to `until` of those behind it, judges it, and hands it over.
pub(crate) fn take_hit<S: RangeSource, V: Visitor>(
    section: &Section,
    hit: Hit,
    until: u64,
    window: &mut Window,
    source: &mut S,
    visitor: &mut V,
) -> Result<(), QueryError>
    requires order { section.now.first ≤ section.now.end }
    requires small { section.now.end ≤ 2 ^ 48 }
    requires leaf { section.now.leaves + 40 * hit.number ≤ 2 ^ 48 }
    requires within { until ≤ section.now.end }
    requires over { IsOver section.now window.old (S.seen source.old) }
    requires told { TellsOnly (header_shown section.now.header.now) (V.told visitor.old) }
    ensures over { OnOk result (IsOver section.now window.new (S.seen source.new)) }
    ensures hands { OnOk result (IfTold (S.seen source.old) (λ image. (t : Shape) (k : ℕ) → IsSection image t section.now → hit ≡ hit_of t (node_in image) 0 k
        → Hands V.step image t (k ∷ []) (k + 1) visitor.old visitor.new window.new.at)) }
    ensures part { OnErr result (IfTold (S.seen source.old) (λ image. (t : Shape) (k : ℕ) → IsSection image t section.now → hit ≡ hit_of t (node_in image) 0 k
        → TakesPart V.step V.failed_step visitor.old (entry_at image t k ∷ []) visitor.new)) }
    ensures refused { IfRefused result (λ broken. IfTold (S.seen source.old) (λ image. (t : Shape) (k : ℕ) → IsSection image t section.now → hit ≡ hit_of t (node_in image) 0 k
        → IsBehind image t k window.old.at → BreaksHit image t k broken.place broken.rule)) }
    ensures unchanged { IfRefused result (λ _. visitor.new ≡ visitor.old) }
    ensures lands { let target = section.now.first + hit.item.offset in OnOk result (IfTold (S.seen source.old) (λ image. section.now.end ≡ length image
        → window.new.at ≡ target + 4 + size_at image target)) }
    ensures passes { OnOk result (section.now.first + hit.item.offset + 4 ≤ window.new.at) }
    ensures near { OnOk result (ahead window.old ≤ max until window.old.at → ahead window.new ≤ max until window.new.at) }
    ensures rises { OnOk result (Rises section.now window.old window.new (S.seen source.old) (S.seen source.new)) }
    ensures rises_part { OnErr result (RisesPart section.now window.old (S.seen source.old) (S.seen source.new)) }
    ensures covers { let target = section.now.first + hit.item.offset in OnOk result (IfTold (S.seen source.old) (λ image. section.now.end ≡ length image → SkipsNothing window.old target
        → Covers section.now window.old window.new (S.seen source.old) (S.seen source.new) (range_with_len target (4 + size_at image target)))) }
    ensures front { let target = section.now.first + hit.item.offset in OnErr result (IfTold (S.seen source.old) (λ image. section.now.end ≡ length image → SkipsNothing window.old target → ahead window.old ≤ max until window.old.at
        → (till : ℕ) → until ≤ till → target + 4 + size_at image target ≤ till → CoversPart section.now window.old (S.seen source.old) (S.seen source.new) (range_with_len target (till - target)))) }
    ensures failed { IsErrOf result QueryError.SourceFailed → Rose (S.seen source.old).faults (S.seen source.new).faults }
    ensures takes { OnOk result (TakesSome V.step visitor.old visitor.new) }
    ensures handed { OnErr result (Handed V.step V.failed_step visitor.old visitor.new) }
    ensures stopped { IsErrOf result QueryError.VisitorStopped → Rose (V.stops visitor.old) (V.stops visitor.new) }
    ensures later { V.stops visitor.old ≤ V.stops visitor.new }
    ensures tells { V.told visitor.new ≡ V.told visitor.old }
{
    let len = reach(section, hit, until, window, source)?;
    let buffer = &window.bytes()[PREFIX..len];
    hand_over(section, hit, window.at(), buffer, visitor)?;
    window.pass(len);
    Ok(())
}

/// Goes on to the feature where a leaf says, makes it lie in the window, and gives its length with the prefix. Reads no
/// more than up to `until` of those behind it. Refuses LeafPastEnd or LeafOrder at the leaf, or what is broken at the
/// size prefix.
fn reach<S: RangeSource>(
    section: &Section,
    hit: Hit,
    until: u64,
    window: &mut Window,
    source: &mut S,
) -> Result<usize, QueryError>
    requires order { section.now.first ≤ section.now.end }
    requires small { section.now.end ≤ 2 ^ 48 }
    requires leaf { section.now.leaves + 40 * hit.number ≤ 2 ^ 48 }
    requires within { until ≤ section.now.end }
    requires over { IsOver section.now window.old (S.seen source.old) }
    ensures over { OnOk result (IsOver section.now window.new (S.seen source.new)) }
    ensures lies { IfOk result (λ len. (4 ≤ len) × (len ≤ 268435460) × (len ≤ length window.new.bytes)) }
    ensures there { OnOk result (window.new.at ≡ section.now.first + hit.item.offset) }
    ensures framed { let target = section.now.first + hit.item.offset in IfOk result (λ len. IfTold (S.seen source.old) (λ image. section.now.end ≡ length image
        → IsFramed image target × (len ≡ 4 + size_at image target))) }
    ensures refused { IfRefused result (λ broken. IfTold (S.seen source.old) (λ image. (t : Shape) (k : ℕ) → IsSection image t section.now → hit ≡ hit_of t (node_in image) 0 k
        → IsBehind image t k window.old.at → BreaksHit image t k broken.place broken.rule)) }
    ensures rises { OnOk result (Rises section.now window.old window.new (S.seen source.old) (S.seen source.new)) }
    ensures rises_part { OnErr result (RisesPart section.now window.old (S.seen source.old) (S.seen source.new)) }
    ensures near { IfOk result (λ len. ahead window.old ≤ max until window.old.at → ahead window.new ≤ max until (window.new.at + len)) }
    ensures covers { OnOk result (SkipsNothing window.old (section.now.first + hit.item.offset) → Covers section.now window.old window.new (S.seen source.old) (S.seen source.new) []) }
    ensures front { let target = section.now.first + hit.item.offset in OnErr result (IfTold (S.seen source.old) (λ image. section.now.end ≡ length image → SkipsNothing window.old target → ahead window.old ≤ max until window.old.at
        → (till : ℕ) → until ≤ till → target + 4 + size_at image target ≤ till → CoversPart section.now window.old (S.seen source.old) (S.seen source.new) (range_with_len target (till - target)))) }
    ensures failed { IsErrOf result QueryError.SourceFailed → Rose (S.seen source.old).faults (S.seen source.new).faults }
    ensures unstopped { IsErrOf result QueryError.VisitorStopped → ⊥ }
{
    let target = section.target(hit)?;
    if target < window.at() {
        return Err(QueryError::Refused(section.broken(hit, Rule::LeafOrder)));
    }
    window.pass((target - window.at()) as usize);
    let len = fill_feature(window, until, source)?;
    Ok(len)
}
