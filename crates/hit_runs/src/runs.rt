// The features of leaves that were found, one after another.
ghost use Rattle.std.specs.Prelude.{◌≡◌, ℕ, ◌+◌, ◌*◌, ◌-◌, ◌<◌, ◌≤◌, ◌^◌, List, length, IfOk, OnOk, OnErr, IsErrOf};
ghost use Rattle.std.specs.Bool.{MatchBool};
ghost use Rattle.std.specs.List.{AllByRecursion};
ghost use Rattle.fgb_outside.specs.Source.{IfTold, Rose};
ghost use Rattle.fgb_outside.specs.Asked.{IsInside, ReadsFront};
ghost use Rattle.found_features.specs.Stops.{IfRefused};
ghost use Rattle.hit_reader.specs.Rising.{Rises, RisesPart};
ghost use Rattle.hit_runs.specs.Laid.{AreLaid};

use crate::fetch::fetch;
use crate::judge::{due_place, judge};
use box_search::Hit;
use fgb_outside::RangeSource;
use fgb_reader::PREFIX;
use found_features::{Found, QueryError};
use gap_window::GapWindow;
use hit_reader::Section;
use order_keys::Bounds;
use std::alloc::Global;

/// Goes through the features that stand where leaves say, and lends one after another. The features of a run are read
/// together, each byte once where no request fails, into a buffer that is used again.
#[derive(Drop)]
pub struct HitRuns {
    window: GapWindow,
    hits: Vec<Hit>,
    gap: u32,
    /// How many features were given.
    given: usize,
    /// Of the feature that is lent: its number, its offset, its box, and its bytes with the size prefix; no bytes before
    /// the first and at the end.
    number: u64,
    offset: u64,
    bounds: Bounds,
    len: usize,
    pub ghost same_gap: { window.gap ≡ gap },
    pub ghost in_list: { given ≤ length hits.items },
    pub ghost held_whole: { len ≤ length window.held.bytes },
    pub ghost small: { len ≤ 268435460 },
}

impl HitRuns {
    ghost use Rattle.std.specs.Prelude.{◌≡◌, [], false};
    ghost use Rattle.hit_runs.specs.Runs.{ComesTo, Goes, HasEnded, IsAgain, Owes, Pays, RefusesTurn, entry_of, next_of, rest_of};

    /// The features of these leaves, which ascend, of a section from `first` to `end`. It takes no memory, and asks for
    /// nothing.
    pub fn new(alloc: Global, hits: Vec<Hit>, first: u64, end: u64, gap: u32) -> HitRuns
        requires order { first ≤ end }
        requires small { end ≤ 2 ^ 48 }
        ensures window { result.window ≡ record { held = record { at = first; bytes = []; end = end }; gap = gap; begun = false } }
        ensures hits { result.hits.items ≡ hits.items }
        ensures given { result.given ≡ 0 }
        ensures place { next_of result ≡ first }
    {
        HitRuns {
            window: GapWindow::new(alloc, first, end, gap),
            hits,
            gap,
            given: 0,
            number: 0,
            offset: 0,
            bounds: Bounds::empty(),
            len: 0,
        }
    }

    /// Goes on to the feature that is due, and judges it, or says that none is left.
    ///
    /// Refuses at a leaf LeafPastEnd where no size prefix fits in where it says, LeafOrder where the feature before
    /// passes that place, or LeafBox where its box differs from the feature's own by their keys; FeaturePastEnd or
    /// FeatureSize at a size prefix; or what a feature's buffer breaks. After SourceFailed or Memory the same feature is
    /// due again.
    pub fn advance<S: RangeSource>(
        &mut self,
        section: &Section,
        source: &mut S,
    ) -> Result<bool, QueryError>
        requires order { section.now.first ≤ section.now.end }
        requires small { section.now.end ≤ 2 ^ 48 }
        requires goes { Goes section.now self.old (S.seen source.old) }
        ensures goes { Goes section.now self.new (S.seen source.new) }
        ensures list { self.new.hits.items ≡ self.old.hits.items }
        ensures comes { IfOk result (λ more. MatchBool more (ComesTo section.now self.old self.new (S.seen source.old)) (HasEnded self.old self.new)) }
        ensures refused { IfRefused result (λ broken. IfTold (S.seen source.old) (RefusesTurn section.now self.old broken)) }
        ensures again { OnErr result (IsAgain section.now self.old self.new (S.seen source.old)) }

        // Whatever the bytes, the positions that are asked for rise.
        ensures rises { OnOk result (Rises section.now self.old.window.held self.new.window.held (S.seen source.old) (S.seen source.new)) }
        ensures rises_part { OnErr result (RisesPart section.now self.old.window.held (S.seen source.old) (S.seen source.new)) }

        // Where the features stand one behind another, just those of the features are asked for, and of short holes.
        ensures pays { OnOk result (IfTold (S.seen source.old) (λ image. (due : List ℕ) → section.now.end ≡ length image → AreLaid image section.now.first (rest_of self.old)
            → Owes image section.now.first self.old due → Pays image section.now self.new (S.seen source.old) (S.seen source.new) due)) }
        ensures front { OnErr result (IfTold (S.seen source.old) (λ image. (due : List ℕ) → section.now.end ≡ length image → AreLaid image section.now.first (rest_of self.old)
            → Owes image section.now.first self.old due → ReadsFront (IsInside section.now.first section.now.end) (S.seen source.old) (S.seen source.new) due)) }
        ensures failed { IsErrOf result QueryError.SourceFailed → Rose (S.seen source.old).faults (S.seen source.new).faults }
        ensures unstopped { IsErrOf result QueryError.VisitorStopped → ⊥ }
    {
        self.window.pass(self.len);
        self.len = 0;
        if self.given == self.hits.len() {
            return Ok(false);
        }
        let hit = self.hits[self.given];
        let place = due_place(section, hit, self.window.at())?;
        let later = &self.hits[self.given + 1..];
        let len = fetch(
            section,
            hit,
            later,
            self.gap,
            place,
            &mut self.window,
            source,
        )?;
        let buffer = &self.window.bytes()[PREFIX..len];
        let bounds = judge(section, hit, place, buffer)?;
        self.number = hit.number;
        self.offset = hit.item.offset;
        self.bounds = bounds;
        self.len = len;
        self.given += 1;
        Ok(true)
    }

    /// The feature to which the last call came. There is none before the first call, after an error, and at the end.
    pub fn feature(&self) -> Found<'_>
        requires { 4 ≤ self.now.len }
        ensures { record { number = result.number; offset = result.offset; buffer = result.bytes.now; own = result.bounds } ≡ entry_of self.now }
    {
        Found {
            number: self.number,
            offset: self.offset,
            bytes: &self.window.bytes()[PREFIX..self.len],
            bounds: self.bounds,
        }
    }
}
