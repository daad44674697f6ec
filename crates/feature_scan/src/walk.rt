// The scan.
ghost use Rattle.std.specs.Prelude.{◌≡◌, ℕ, ◌+◌, ◌-◌, ◌≤◌, ◌^◌, List, length, IfOk, OnOk, OnErr, IsErrOf};
ghost use Rattle.std.specs.List.{range_with_len};
ghost use Rattle.flat_layout.specs.Promises.{Names};
ghost use Rattle.fgb_schema.specs.Paths.{feature_root};
ghost use Rattle.fgb_schema.specs.Weights.{BreaksBuffer};
ghost use Rattle.fgb_outside.specs.Source.{IfTold, Rose};
ghost use Rattle.fgb_outside.specs.Asked.{IsInside, Reads, ReadsFront};
ghost use Rattle.fgb_header.specs.Views.{header_shown};
ghost use Rattle.fgb_reader.specs.Reading.{buffer_of, place_of};
ghost use Rattle.fgb_reader.specs.Requests.{AsksAtMost, mebibytes};
ghost use Rattle.found_features.specs.Entries.{Entry};
ghost use Rattle.found_features.specs.Stops.{IfRefused};
ghost use Rattle.found_features.specs.Visits.{Handed, Takes, TakesPart, TellsOnly};
ghost use Rattle.feature_scan.specs.Scans.{IsScan, ScanRefused, Scanned, ScannedPart};
ghost use Rattle.feature_scan.specs.Walks.{FailsOne, PassesOne};

use box_list::Boxes;
use fgb_feature::FeatureView;
use fgb_header::HeaderView;
use fgb_outside::RangeSource;
use fgb_reader::{PREFIX, Pieces, Tally};
use found_features::{Found, QueryError, Visitor};
use std::alloc::Global;

/// Goes through the features of a file with this header that stand from `first` to `end`, and hands the visitor those
/// whose own boxes meet one of these boxes; gives how many. Refuses FeaturePastEnd or FeatureSize at a size prefix, what a
/// feature's buffer breaks, and at the end FeatureCount. The features before a refusal were handed over.
pub fn scan<S: RangeSource, V: Visitor>(
    alloc: Global,
    header: &HeaderView,
    boxes: &Boxes,
    first: u64,
    end: u64,
    source: &mut S,
    visitor: &mut V,
) -> Result<u64, QueryError>
    requires behind { 12 ≤ first }
    requires order { first ≤ end }
    requires small { end ≤ 2 ^ 48 }
    requires inside { end ≤ (S.seen source.old).size }
    requires told { TellsOnly (header_shown header.now) (V.told visitor.old) }
    ensures done { IfOk result (λ count. IfTold (S.seen source.old) (λ image. IsScan image (header_shown header.now) first end
        → (entries : List Entry) × Scanned image boxes.now entries × Takes V.step visitor.old entries visitor.new × (count ≡ length entries))) }
    ensures part { OnErr result (IfTold (S.seen source.old) (λ image. IsScan image (header_shown header.now) first end
        → (entries : List Entry) × ScannedPart image boxes.now entries × TakesPart V.step V.failed_step visitor.old entries visitor.new)) }
    ensures refused { IfRefused result (λ broken. IfTold (S.seen source.old) (λ image. IsScan image (header_shown header.now) first end
        → (entries : List Entry) × ScanRefused image boxes.now broken entries × Takes V.step visitor.old entries visitor.new)) }
    ensures reads { OnOk result (Reads (IsInside first end) (S.seen source.old) (S.seen source.new) (range_with_len first (end - first))) }
    ensures few { OnOk result (AsksAtMost (mebibytes (end - first)) (S.seen source.old) (S.seen source.new)) }
    ensures front { OnErr result (ReadsFront (IsInside first end) (S.seen source.old) (S.seen source.new) (range_with_len first (end - first))) }
    ensures failed { IsErrOf result QueryError.SourceFailed → Rose (S.seen source.old).faults (S.seen source.new).faults }
    ensures handed { Handed V.step V.failed_step visitor.old visitor.new }
    ensures stopped { IsErrOf result QueryError.VisitorStopped → Rose (V.stops visitor.old) (V.stops visitor.new) }
    ensures later { V.stops visitor.old ≤ V.stops visitor.new }
    ensures tells { V.told visitor.new ≡ V.told visitor.old }
{
    let mut pieces = Pieces::new(alloc, first, end);
    let mut tally = Tally::new(header.features_count());
    let mut count = 0;
    while pieces.advance(source)? {
        if pass_feature(header, boxes, &pieces, tally.seen(), visitor)? {
            count += 1;
        }
        tally.add(pieces.place());
    }
    tally.judge(end)?;
    Ok(count)
}

/// Reads the feature that is lent, which has this number, hands it over if its own box meets one of these boxes, and says
/// whether it does.
fn pass_feature<V: Visitor>(
    header: &HeaderView,
    boxes: &Boxes,
    pieces: &Pieces,
    number: u64,
    visitor: &mut V,
) -> Result<bool, QueryError>
    requires lent { 4 ≤ pieces.now.len }
    requires told { TellsOnly (header_shown header.now) (V.told visitor.old) }
    ensures passes { IfOk result (λ handed. PassesOne V.step (header_shown header.now) boxes.now pieces.now number handed visitor.old visitor.new) }
    ensures fails { OnErr result (FailsOne V.failed_step (header_shown header.now) boxes.now pieces.now number visitor.old visitor.new) }
    ensures refused { IfRefused result (λ broken. (visitor.new ≡ visitor.old)
        × Names (place_of pieces.now + 4) (BreaksBuffer (buffer_of pieces.now) (feature_root (header_shown header.now))) broken) }
    ensures no_source { IsErrOf result QueryError.SourceFailed → ⊥ }
    ensures stopped { IsErrOf result QueryError.VisitorStopped → Rose (V.stops visitor.old) (V.stops visitor.new) }
    ensures later { V.stops visitor.old ≤ V.stops visitor.new }
    ensures tells { V.told visitor.new ≡ V.told visitor.old }
{
    let bytes = pieces.buffer();
    let place = pieces.place();
    let own = FeatureView::read(bytes, place + PREFIX as u64, header)?.bounds();
    if !boxes.meets(own) {
        return Ok(false);
    }
    visitor.take(&Found {
        number,
        offset: place - pieces.first(),
        bytes,
        bounds: own,
    })?;
    Ok(true)
}
