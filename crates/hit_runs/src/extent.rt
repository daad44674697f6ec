// How far a run is known to go on.
ghost use Rattle.std.specs.Prelude.{◌≡◌, ℕ, ◌+◌, ◌*◌, ◌≤◌, ◌^◌, ◌∷◌, max, true, List, Some, IfSome};
ghost use Rattle.std.specs.List.{AllByRecursion};
ghost use Rattle.section_window.specs.Window.{ahead};
ghost use Rattle.hit_runs.specs.Laid.{AreLaid, SaysEnd, end_there, is_joined as joined, run_end};

use crate::judge::said_place;
use box_search::Hit;
use fgb_reader::PREFIX;
use gap_window::GapWindow;
use hit_reader::Section;

/// No request is longer.
const PIECE: u64 = 1048576;

/// Whether a feature that stands here is in one run with one that ends there.
pub(crate) fn is_joined(gap: u32, end: u64, place: u64) -> bool
    requires { end ≤ 2 ^ 48 }
    ensures { result ≡ joined gap end place }
{
    place < end + gap.max(1) as u64
}

/// The offset at which the feature ends, where its leaf says one inside the section.
fn said_end(section: &Section, hit: Hit) -> Option<u64>
    requires order { section.now.first ≤ section.now.end }
    ensures { IfSome result (λ end. (hit.next ≡ Some end) × (section.now.first + end ≤ section.now.end)) }
{
    match hit.next {
        Some(next) if next <= section.end - section.first => Some(next),
        _ => None,
    }
}

/// Whether the run is known to go on from this leaf's feature to the next one's, and a request may have to.
fn leads_on(section: &Section, hit: Hit, next: Hit, gap: u32, enough: u64) -> bool
    requires order { section.now.first ≤ section.now.end }
    requires small { section.now.end ≤ 2 ^ 48 }
    ensures { result ≡ true → (end : ℕ) × (hit.next ≡ Some end) × (joined gap end next.item.offset ≡ true) }
{
    match said_end(section, hit) {
        Some(end) => section.first + end < enough && is_joined(gap, end, next.item.offset),
        None => false,
    }
}

/// Where this leaf's feature is known to end, or to go on.
fn known_end(section: &Section, hit: Hit) -> u64
    requires order { section.now.first ≤ section.now.end }
    requires small { section.now.end ≤ 2 ^ 48 }
    requires leaf { section.now.leaves + 40 * hit.number ≤ 2 ^ 48 }
    ensures within { result ≤ section.now.end }
    ensures known { (image : List ℕ) → SaysEnd image section.now.first hit → result ≤ end_there image section.now.first hit }
{
    if let Some(end) = said_end(section, hit) {
        return section.first + end;
    }
    match said_place(section, hit) {
        Ok(place) => place + PREFIX as u64,
        Err(_) => section.first,
    }
}

/// How far the run goes on that begins with this leaf's feature, as far as the leaves say it, or as far as is enough.
fn known_until(section: &Section, hit: Hit, later: &[Hit], gap: u32, enough: u64) -> u64
    requires order { section.now.first ≤ section.now.end }
    requires small { section.now.end ≤ 2 ^ 48 }
    requires leaf { section.now.leaves + 40 * hit.number ≤ 2 ^ 48 }
    requires leaves { AllByRecursion (λ h. section.now.leaves + 40 * h.number ≤ 2 ^ 48) later.now }
    ensures within { result ≤ section.now.end }
    ensures known { (image : List ℕ) → AreLaid image section.now.first (hit ∷ later.now) → result ≤ run_end image section.now.first gap (hit ∷ later.now) }
{
    let mut last = hit;
    let mut i = 0;
    while i < later.len() && leads_on(section, last, later[i], gap, enough) {
        last = later[i];
        i += 1;
    }
    known_end(section, last)
}

/// As far as this, the end of a part of this leaf's feature, or farther within its run, a request for the part goes.
pub(crate) fn until_part(
    section: &Section,
    hit: Hit,
    later: &[Hit],
    gap: u32,
    window: &GapWindow,
    end: u64,
) -> u64
    requires order { section.now.first ≤ section.now.end }
    requires small { section.now.end ≤ 2 ^ 48 }
    requires leaf { section.now.leaves + 40 * hit.number ≤ 2 ^ 48 }
    requires leaves { AllByRecursion (λ h. section.now.leaves + 40 * h.number ≤ 2 ^ 48) later.now }
    requires end { end ≤ section.now.end }
    ensures some { end ≤ result }
    ensures within { result ≤ section.now.end }
    ensures known { (image : List ℕ) → AreLaid image section.now.first (hit ∷ later.now) → result ≤ max end (run_end image section.now.first gap (hit ∷ later.now)) }
{
    let ahead = window.at() + window.bytes().len() as u64;
    if end <= ahead {
        return end;
    }
    known_until(section, hit, later, gap, end + PIECE).max(end)
}

/// As far as this, the end of a feature, or farther within its run, a request for the feature goes.
pub(crate) fn until_whole(
    section: &Section,
    later: &[Hit],
    gap: u32,
    window: &GapWindow,
    end: u64,
) -> u64
    requires order { section.now.first ≤ end }
    requires small { section.now.end ≤ 2 ^ 48 }
    requires leaves { AllByRecursion (λ h. section.now.leaves + 40 * h.number ≤ 2 ^ 48) later.now }
    requires end { end ≤ section.now.end }
    ensures some { end ≤ result }
    ensures within { result ≤ section.now.end }
    ensures known { (image : List ℕ) (hit : Hit) → end_there image section.now.first hit ≡ end → AreLaid image section.now.first (hit ∷ later.now) → result ≤ run_end image section.now.first gap (hit ∷ later.now) }
{
    let Some((next, rest)) = later.split_first() else {
        return end;
    };
    if !is_joined(gap, end - section.first, next.item.offset) {
        return end;
    }
    until_part(section, *next, rest, gap, window, end)
}
