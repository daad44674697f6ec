// A feature is made to lie in the window.
ghost use Rattle.std.specs.Prelude.{◌≡◌, ◌⊎◌, ℕ, ◌+◌, ◌*◌, ◌≤◌, ◌^◌, ◌∷◌, max, length, IfOk, OnOk, OnErr, IsErrOf};
ghost use Rattle.std.specs.List.{AllByRecursion};
ghost use Rattle.fgb_outside.specs.Source.{IfTold, Rose};
ghost use Rattle.section_window.specs.Window.{ahead};
ghost use Rattle.fgb_file.specs.File.{BreaksPrefix, IsFramed, size_at};
ghost use Rattle.found_features.specs.Stops.{IfRefused};
ghost use Rattle.hit_runs.specs.Laid.{AreLaid, run_end};
ghost use Rattle.hit_runs.specs.Fetching.{Fetches, FetchesPart, IsOver};

use crate::extent::{until_part, until_whole};
use box_search::Hit;
use fgb_outside::RangeSource;
use fgb_reader::{PREFIX, framed_size};
use found_features::QueryError;
use gap_window::GapWindow;
use hit_reader::Section;

/// Goes on to the feature of this leaf, which stands at `place`, makes it lie in the window, and gives its length with
/// the size prefix. Reads no more than up to the end of the run that it begins. Refuses FeaturePastEnd or FeatureSize at
/// the prefix.
pub(crate) fn fetch<S: RangeSource>(
    section: &Section,
    hit: Hit,
    later: &[Hit],
    gap: u32,
    place: u64,
    window: &mut GapWindow,
    source: &mut S,
) -> Result<usize, QueryError>
    requires order { section.now.first ≤ section.now.end }
    requires small { section.now.end ≤ 2 ^ 48 }
    requires leaf { section.now.leaves + 40 * hit.number ≤ 2 ^ 48 }
    requires leaves { AllByRecursion (λ h. section.now.leaves + 40 * h.number ≤ 2 ^ 48) later.now }
    requires gap { window.old.gap ≡ gap }
    requires there { place ≡ section.now.first + hit.item.offset }
    requires fits { place + 4 ≤ section.now.end }
    requires onward { window.old.held.at ≤ place }
    requires over { IsOver section.now window.old (S.seen source.old) }
    ensures over { IsOver section.now window.new (S.seen source.new) }
    ensures gap { window.new.gap ≡ window.old.gap }
    ensures lies { IfOk result (λ len. (4 ≤ len) × (len ≤ 268435460) × (len ≤ length window.new.held.bytes)) }
    ensures framed { IfOk result (λ len. IfTold (S.seen source.old) (λ image. section.now.end ≡ length image → IsFramed image place × (len ≡ 4 + size_at image place))) }
    ensures refused { IfRefused result (λ broken. IfTold (S.seen source.old) (λ image. section.now.end ≡ length image → (broken.place ≡ place) × BreaksPrefix image place broken.rule)) }
    ensures fetches { OnOk result (Fetches section.now window.old window.new (S.seen source.old) (S.seen source.new) place) }
    ensures near { OnOk result (IfTold (S.seen source.old) (λ image. section.now.end ≡ length image → AreLaid image section.now.first (hit ∷ later.now)
        → ahead window.new.held ≤ max (ahead window.old.held) (run_end image section.now.first gap (hit ∷ later.now)))) }
    ensures stays { OnErr result ((window.new.held.at ≡ window.old.held.at) ⊎ (window.new.held.at ≡ place)) }
    ensures part { OnErr result (FetchesPart section.now window.old (S.seen source.old) (S.seen source.new) place section.now.end) }
    ensures front { OnErr result (IfTold (S.seen source.old) (λ image. section.now.end ≡ length image → AreLaid image section.now.first (hit ∷ later.now)
        → FetchesPart section.now window.old (S.seen source.old) (S.seen source.new) place (run_end image section.now.first gap (hit ∷ later.now)))) }
    ensures failed { IsErrOf result QueryError.SourceFailed → Rose (S.seen source.old).faults (S.seen source.new).faults }
    ensures unstopped { IsErrOf result QueryError.VisitorStopped → ⊥ }
{
    let until = until_part(section, hit, later, gap, window, place + PREFIX as u64);
    window.reach(source, place, PREFIX, until)?;
    let size = framed_size(window.bytes(), section.end - place, place)?;
    let len = PREFIX + size;
    let until = until_whole(section, later, gap, window, place + len as u64);
    window.reach(source, place, len, until)?;
    Ok(len)
}
