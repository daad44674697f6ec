// The features of leaves that were found, handed to a visitor.
ghost use Rattle.std.specs.Prelude.{◌≡◌, ℕ, ◌+◌, ◌*◌, ◌≤◌, ◌^◌, ◌∷◌, ◌++◌, List, Some, OnOk, OnErr, IsErrOf, map};
ghost use Rattle.std.specs.List.{AllByRecursion};
ghost use Rattle.level_bounds.specs.Levels.{Shape};
ghost use Rattle.fgb_outside.specs.Source.{IfTold, Rose};
ghost use Rattle.fgb_outside.specs.Asked.{Ascends, IsInside, Reads, ReadsFront};
ghost use Rattle.gap_window.specs.Gaps.{bridged};
ghost use Rattle.fgb_header.specs.Views.{header_shown};
ghost use Rattle.fgb_file.specs.File.{IsFile, IsOpen};
ghost use Rattle.found_features.specs.Stops.{IfRefused};
ghost use Rattle.found_features.specs.Visits.{Handed, Takes, TakesPart, TellsOnly};
ghost use Rattle.hit_reader.specs.Asking.{AsksRising, feature_positions};
ghost use Rattle.hit_reader.specs.Going.{IsSection};
ghost use Rattle.hit_reader.specs.Met.{BreaksHit, IsMet, entry_at};
ghost use Rattle.hit_runs.specs.Leaves.{AreLeaves};

use crate::runs::HitRuns;
use box_search::Hit;
use fgb_outside::RangeSource;
use found_features::{QueryError, Visitor};
use hit_reader::Section;
use std::alloc::Global;

/// Reads the features that stand where these leaves say, which ascend, and hands them to the visitor one after another.
///
/// Refuses what [`HitRuns::advance`] refuses. The features before a refusal were handed over.
pub fn take_hits<S: RangeSource, V: Visitor>(
    alloc: Global,
    section: &Section,
    hits: Vec<Hit>,
    gap: u32,
    source: &mut S,
    visitor: &mut V,
) -> Result<(), QueryError>
    requires order { section.now.first ≤ section.now.end }
    requires small { section.now.end ≤ 2 ^ 48 }
    requires inside { section.now.end ≤ (S.seen source.old).size }
    requires leaves { AllByRecursion (λ hit. section.now.leaves + 40 * hit.number ≤ 2 ^ 48) hits.items }
    requires told { TellsOnly (header_shown section.now.header.now) (V.told visitor.old) }
    ensures done { OnOk result (IfTold (S.seen source.old) (λ image. (t : Shape) (leaves : List ℕ) → IsOpen image (Some t) → IsSection image t section.now
        → AreLeaves image t hits.items leaves → Ascends 0 t.leaves leaves
        → Takes V.step visitor.old (map (entry_at image t) leaves) visitor.new × AllByRecursion (IsMet image t) leaves)) }
    ensures part { OnErr result (IfTold (S.seen source.old) (λ image. (t : Shape) (leaves : List ℕ) → IsOpen image (Some t) → IsSection image t section.now
        → AreLeaves image t hits.items leaves → Ascends 0 t.leaves leaves
        → TakesPart V.step V.failed_step visitor.old (map (entry_at image t) leaves) visitor.new)) }
    ensures refused { IfRefused result (λ broken. IfTold (S.seen source.old) (λ image. (t : Shape) (leaves : List ℕ) → IsOpen image (Some t) → IsSection image t section.now
        → AreLeaves image t hits.items leaves → Ascends 0 t.leaves leaves
        → (front : List ℕ) × (k : ℕ) × (rest : List ℕ) × (leaves ≡ front ++ k ∷ rest) × BreaksHit image t k broken.place broken.rule
        × Takes V.step visitor.old (map (entry_at image t) front) visitor.new)) }

    // Whatever the bytes, the positions that are asked for rise; in a file that breaks no rule they are just those of
    // the features, and of the holes that are shorter than the gap.
    ensures rising { AsksRising section.now.first section.now.end (S.seen source.old) (S.seen source.new) }
    ensures reads { OnOk result (IfTold (S.seen source.old) (λ image. (t : Shape) (leaves : List ℕ) (pieces : List (List ℕ)) → IsOpen image (Some t) → IsSection image t section.now
        → AreLeaves image t hits.items leaves → Ascends 0 t.leaves leaves → IsFile image (Some t) pieces
        → Reads (IsInside section.now.first section.now.end) (S.seen source.old) (S.seen source.new) (bridged gap (feature_positions image t leaves)))) }
    ensures front { OnErr result (IfTold (S.seen source.old) (λ image. (t : Shape) (leaves : List ℕ) (pieces : List (List ℕ)) → IsOpen image (Some t) → IsSection image t section.now
        → AreLeaves image t hits.items leaves → Ascends 0 t.leaves leaves → IsFile image (Some t) pieces
        → ReadsFront (IsInside section.now.first section.now.end) (S.seen source.old) (S.seen source.new) (bridged gap (feature_positions image t leaves)))) }
    ensures failed { IsErrOf result QueryError.SourceFailed → Rose (S.seen source.old).faults (S.seen source.new).faults }
    ensures handed { Handed V.step V.failed_step visitor.old visitor.new }
    ensures stopped { IsErrOf result QueryError.VisitorStopped → Rose (V.stops visitor.old) (V.stops visitor.new) }
    ensures later { V.stops visitor.old ≤ V.stops visitor.new }
    ensures tells { V.told visitor.new ≡ V.told visitor.old }
{
    let mut runs = HitRuns::new(alloc, hits, section.first, section.end, gap);
    while runs.advance(section, source)? {
        visitor.take(&runs.feature())?;
    }
    Ok(())
}
