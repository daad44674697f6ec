// The features of leaves that are neighbours.
ghost use Rattle.std.specs.Prelude.{◌≡◌, ◌+◌, ◌-◌, ◌*◌, ◌<◌, ◌≤◌, ◌^◌, ℕ, List, length, map, slice_get, Some, OnOk, OnErr, IsErrOf};
ghost use Rattle.std.specs.List.{AllByRecursion, range_with_len};
ghost use Rattle.level_bounds.specs.Levels.{Shape};
ghost use Rattle.fgb_outside.specs.Source.{IfTold, Rose};
ghost use Rattle.fgb_outside.specs.Asked.{Ascends, IsInside, Reads, ReadsFront};
ghost use Rattle.fgb_header.specs.Views.{header_shown};
ghost use Rattle.tree_search.specs.declared.search.Hit.{Hit};
ghost use Rattle.found_features.specs.Stops.{IfRefused};
ghost use Rattle.found_features.specs.Visits.{Handed, TakesPart, TakesSome, TellsOnly};
ghost use Rattle.hit_reader.specs.Met.{entry_at};
ghost use Rattle.hit_reader.specs.Going.{AreHits, Hands, IsBehind, IsContiguous, IsOver, Refuses};
ghost use Rattle.hit_reader.specs.Rising.{Rises, RisesPart};

use crate::leaf::take_hit;
use crate::section::Section;
use fgb_outside::RangeSource;
use fgb_reader::PREFIX;
use found_features::{QueryError, Visitor};
use section_window::Window;
use tree_search::Hit;

/// Reads the features where these leaves say, together, and hands them over one after another.
pub(crate) fn take_run<S: RangeSource, V: Visitor>(
    section: &Section,
    run: &[Hit],
    window: &mut Window,
    source: &mut S,
    visitor: &mut V,
) -> Result<(), QueryError>
    requires order { section.now.first ≤ section.now.end }
    requires small { section.now.end ≤ 2 ^ 48 }
    requires leaves { AllByRecursion (λ hit. section.now.leaves + 40 * hit.number ≤ 2 ^ 48) run.now }
    requires some { 0 < length run.now }
    requires over { IsOver section.now window.old (S.seen source.old) }
    requires none { length window.old.bytes ≡ 0 }
    requires told { TellsOnly (header_shown section.now.header.now) (V.told visitor.old) }
    ensures over { OnOk result (IsOver section.now window.new (S.seen source.new)) }
    ensures none { OnOk result (length window.new.bytes ≡ 0) }
    ensures hands { OnOk result (IfTold (S.seen source.old) (λ image. (t : Shape) (leaves : List ℕ) (low high : ℕ) → AreHits image t section.now run.now leaves
        → Ascends low high leaves → IsBehind image t low window.old.at → Hands V.step image t leaves high visitor.old visitor.new window.new.at)) }
    ensures part { OnErr result (IfTold (S.seen source.old) (λ image. (t : Shape) (leaves : List ℕ) (low high : ℕ) → AreHits image t section.now run.now leaves
        → Ascends low high leaves → IsBehind image t low window.old.at → TakesPart V.step V.failed_step visitor.old (map (entry_at image t) leaves) visitor.new)) }
    ensures refused { IfRefused result (λ broken. IfTold (S.seen source.old) (λ image. (t : Shape) (leaves : List ℕ) (low high : ℕ) → AreHits image t section.now run.now leaves
        → Ascends low high leaves → IsBehind image t low window.old.at → Refuses V.step image t leaves visitor.old visitor.new broken)) }
    ensures rises { OnOk result (Rises section.now window.old window.new (S.seen source.old) (S.seen source.new)) }
    ensures rises_part { OnErr result (RisesPart section.now window.old (S.seen source.old) (S.seen source.new)) }
    ensures reads { OnOk result (IfTold (S.seen source.old) (λ image. (place : ℕ → ℕ) → IsContiguous image section.now run.now place
        → Reads (IsInside section.now.first section.now.end) (S.seen source.old) (S.seen source.new) (range_with_len (place 0) (place (length run.now) - place 0)))) }
    ensures front { OnErr result (IfTold (S.seen source.old) (λ image. (place : ℕ → ℕ) → IsContiguous image section.now run.now place
        → ReadsFront (IsInside section.now.first section.now.end) (S.seen source.old) (S.seen source.new) (range_with_len (place 0) (place (length run.now) - place 0)))) }
    ensures failed { IsErrOf result QueryError.SourceFailed → Rose (S.seen source.old).faults (S.seen source.new).faults }
    ensures takes { OnOk result (TakesSome V.step visitor.old visitor.new) }
    ensures handed { OnErr result (Handed V.step V.failed_step visitor.old visitor.new) }
    ensures stopped { IsErrOf result QueryError.VisitorStopped → Rose (V.stops visitor.old) (V.stops visitor.new) }
    ensures later { V.stops visitor.old ≤ V.stops visitor.new }
    ensures tells { V.told visitor.new ≡ V.told visitor.old }
{
    let until = known_until(section, run);
    for hit in run {
        take_hit(section, *hit, until, window, source, visitor)?;
    }
    Ok(())
}

/// Behind the size prefix of the last feature of a run, as its leaf says it, or nowhere where that passes the end.
fn known_until(section: &Section, run: &[Hit]) -> u64
    requires order { section.now.first ≤ section.now.end }
    requires small { section.now.end ≤ 2 ^ 48 }
    requires leaves { AllByRecursion (λ hit. section.now.leaves + 40 * hit.number ≤ 2 ^ 48) run.now }
    requires some { 0 < length run.now }
    ensures within { result ≤ section.now.end }
    ensures last { (hit : Hit) → slice_get run.now (length run.now - 1) ≡ Some hit → result ≤ section.now.first + hit.item.offset + 4 }
{
    match section.target(run[run.len() - 1]) {
        Ok(target) => target + PREFIX as u64,
        Err(_) => section.first,
    }
}
