// The features of leaves that were found.
ghost use Rattle.std.specs.Prelude.{◌≡◌, ℕ, ◌+◌, ◌*◌, ◌<◌, ◌≤◌, ◌^◌, ◌∷◌, ◌++◌, ◌-◌, ◌↔◌, List, Some, OnOk, OnErr, IsErrOf, IsTrue, length, map, slice_get};
ghost use Rattle.std.specs.List.{AllByRecursion};
ghost use Rattle.level_bounds.specs.Levels.{Shape, place as place_of_node};
ghost use Rattle.fgb_outside.specs.Source.{IfTold, Rose};
ghost use Rattle.fgb_outside.specs.Asked.{IsInside, Reads, ReadsFront};
ghost use Rattle.fgb_header.specs.Views.{header_shown};
ghost use Rattle.fgb_file.specs.File.{IsFile, header_end};
ghost use Rattle.tree_search.specs.declared.search.Hit.{Hit};
ghost use Rattle.found_features.specs.Stops.{IfRefused};
ghost use Rattle.found_features.specs.Visits.{Handed, Takes, TakesPart, TellsOnly};
ghost use Rattle.hit_reader.specs.Met.{AreLeaves, BreaksHit, IsMet, entry_at};
ghost use Rattle.hit_reader.specs.Going.{IsNext};
ghost use Rattle.hit_reader.specs.Asking.{AsksRising, feature_positions};

use crate::run::take_run;
use crate::section::Section;
use fgb_outside::RangeSource;
use found_features::{QueryError, Visitor};
use section_window::Window;
use std::alloc::Global;
use tree_search::Hit;

/// Reads the features that stand where these leaves say, which ascend, and hands them to the visitor one after another.
///
/// Refuses at a leaf LeafPastEnd where no size prefix fits in where it says, LeafOrder where the feature before passes
/// that place, or LeafBox where its box differs from the feature's own by their keys; FeaturePastEnd or FeatureSize at
/// a size prefix; or what a feature's buffer breaks. The features before a refusal were handed over.
pub fn take_hits<S: RangeSource, V: Visitor>(
    alloc: Global,
    section: &Section,
    hits: &[Hit],
    source: &mut S,
    visitor: &mut V,
) -> Result<(), QueryError>
    requires order { section.now.first ≤ section.now.end }
    requires small { section.now.end ≤ 2 ^ 48 }
    requires inside { section.now.end ≤ (S.seen source.old).size }
    requires leaves { AllByRecursion (λ hit. section.now.leaves + 40 * hit.number ≤ 2 ^ 48) hits.now }
    requires told { TellsOnly (header_shown section.now.header.now) (V.told visitor.old) }
    ensures done { let h = header_shown section.now.header.now in OnOk result (IfTold (S.seen source.old) (λ image. (t : Shape) (at : ℕ) (leaves : List ℕ)
        → AreLeaves image t h at section.now.first section.now.end hits.now leaves → section.now.leaves ≡ at + 40 * place_of_node t 0 0
        → Takes V.step visitor.old (map (entry_at image t) leaves) visitor.new × AllByRecursion (IsMet image t) leaves)) }
    ensures part { let h = header_shown section.now.header.now in OnErr result (IfTold (S.seen source.old) (λ image. (t : Shape) (at : ℕ) (leaves : List ℕ)
        → AreLeaves image t h at section.now.first section.now.end hits.now leaves → section.now.leaves ≡ at + 40 * place_of_node t 0 0
        → TakesPart V.step V.failed_step visitor.old (map (entry_at image t) leaves) visitor.new)) }
    ensures refused { let h = header_shown section.now.header.now in IfRefused result (λ broken. IfTold (S.seen source.old) (λ image. (t : Shape) (at : ℕ) (leaves : List ℕ)
        → AreLeaves image t h at section.now.first section.now.end hits.now leaves → section.now.leaves ≡ at + 40 * place_of_node t 0 0
        → (front : List ℕ) × (k : ℕ) × (rest : List ℕ) × (leaves ≡ front ++ k ∷ rest) × BreaksHit image t k broken.place broken.rule
        × Takes V.step visitor.old (map (entry_at image t) front) visitor.new)) }

    // Whatever the bytes, the positions that are asked for rise; in a file that breaks no rule they are just those of
    // the features.
    ensures rising { AsksRising section.now.first section.now.end (S.seen source.old) (S.seen source.new) }
    ensures reads { let h = header_shown section.now.header.now in OnOk result (IfTold (S.seen source.old) (λ image. (t : Shape) (at : ℕ) (leaves : List ℕ) (pieces : List (List ℕ))
        → AreLeaves image t h at section.now.first section.now.end hits.now leaves → IsFile image (Some t) pieces
        → Reads (IsInside section.now.first section.now.end) (S.seen source.old) (S.seen source.new) (feature_positions image t leaves))) }
    ensures front { let h = header_shown section.now.header.now in OnErr result (IfTold (S.seen source.old) (λ image. (t : Shape) (at : ℕ) (leaves : List ℕ) (pieces : List (List ℕ))
        → AreLeaves image t h at section.now.first section.now.end hits.now leaves → IsFile image (Some t) pieces
        → ReadsFront (IsInside section.now.first section.now.end) (S.seen source.old) (S.seen source.new) (feature_positions image t leaves))) }
    ensures failed { IsErrOf result QueryError.SourceFailed → Rose (S.seen source.old).faults (S.seen source.new).faults }
    ensures handed { Handed V.step V.failed_step visitor.old visitor.new }
    ensures stopped { IsErrOf result QueryError.VisitorStopped → Rose (V.stops visitor.old) (V.stops visitor.new) }
    ensures later { V.stops visitor.old ≤ V.stops visitor.new }
    ensures tells { V.told visitor.new ≡ V.told visitor.old }
{
    let mut window = Window::new(alloc, section.first, section.end);
    let mut rest = hits;
    while !rest.is_empty() {
        let (run, later) = rest.split_at(run_len(rest));
        take_run(section, run, &mut window, source, visitor)?;
        rest = later;
    }
    Ok(())
}

/// How many neighbours stand in front.
fn run_len(hits: &[Hit]) -> usize
    requires { 0 < length hits.now }
    ensures some { 0 < result }
    ensures within { result ≤ length hits.now }
    ensures neighbours { (i : ℕ) (a b : Hit) → i + 1 < result → slice_get hits.now i ≡ Some a → slice_get hits.now (i + 1) ≡ Some b → IsNext a b }
    ensures all { (a b : Hit) → slice_get hits.now (result - 1) ≡ Some a → slice_get hits.now result ≡ Some b → ¬ IsNext a b }
{
    let mut len = 1;
    while len < hits.len() && are_neighbours(hits[len - 1], hits[len]) {
        len += 1;
    }
    len
}

/// Whether the second leaf is the next one behind the first, and says a later place.
fn are_neighbours(first: Hit, second: Hit) -> bool
    ensures { IsTrue result ↔ IsNext first second }
{
    first.number < second.number
        && second.number - first.number == 1
        && first.item.offset < second.item.offset
}
