// Checking a source.
ghost use Rattle.std.specs.Prelude.{◌≡◌, ⊤, ℕ, ◌+◌, ◌-◌, ◌*◌, ◌≤◌, ◌^◌, min, Some, None, IfOk, OnOk, OnErr, IsErrOf, length};
ghost use Rattle.std.specs.List.{range_with_len};
ghost use Rattle.flat_layout.specs.Promises.{Judges};
ghost use Rattle.level_bounds.specs.Levels.{Shape, node_count};
ghost use Rattle.level_bounds.specs.Shapes.{shape_of};
ghost use Rattle.fgb_outside.specs.Source.{IfTold, Keeps, Rose};
ghost use Rattle.fgb_outside.specs.Asked.{IsInside, Reads, ReadsFront};
ghost use Rattle.fgb_schema.specs.Paths.{feature_root};
ghost use Rattle.fgb_schema.specs.Weights.{BreaksBuffer};
ghost use Rattle.fgb_schema.specs.Features.{feature_of, own_box};
ghost use Rattle.fgb_header.specs.Views.{header_shown};
ghost use Rattle.fgb_file.specs.File.{BreaksFirst, IsDeclared, IsOpen, IsUnindexed, LeafAgrees, header_end, header_in};
ghost use Rattle.read_stop.specs.Asks.{AsksOnly};
ghost use Rattle.read_stop.specs.Stops.{IfRefused};
ghost use Rattle.index_reader.specs.Going.{IsOver, Shows, given_of};
ghost use Rattle.fgb_reader.specs.Reading.{buffer_of, place_of};
ghost use Rattle.fgb_reader.specs.Requests.{AsksAll, AsksAtMost, AsksFront, mebibytes};
ghost use Rattle.fgb_check.specs.Leaves.{RefusesLeaf};
ghost use Rattle.fgb_check.specs.Verdicts.{IfAccepted, IsFileOf, IsFileWith, IsVerdict};
ghost use Rattle.fgb_check.specs.Walks.{AreLeaves, IsBehind, IsOpened};

use crate::leaf::judge_leaf;
use crate::verdict::{CheckError, Verdict};
use fgb_feature::FeatureView;
use fgb_header::HeaderView;
use fgb_outside::RangeSource;
use fgb_reader::{
    PREFIX, Pieces, ReadStop, START, Tally, judge_header, judge_levels, read_header, read_start,
};
use flat_views::Broken;
use index_reader::{Leaves, read_index};
use level_bounds::Levels;
use node_items::NODE;
use order_keys::Bounds;
use std::alloc::Global;

/// Judges the file of a source, which it reads front to back; its leaves it reads twice, by themselves and beside their
/// features.
///
/// Accepted exactly where no rule is broken anywhere. Refused names a rule that is broken at its place in the first
/// unit in which any is; the units are the start, the header, the index, each feature with its leaf, the end. Where a
/// unit breaks several rules, which of them is named is open.
pub fn check<S: RangeSource>(alloc: Global, source: &mut S) -> Result<Verdict, CheckError>
    ensures judged { IfOk result (λ verdict. IfTold (S.seen source.old) (λ image. IsVerdict image verdict)) }

    // Each request lies inside one section that may be asked for.
    ensures declared { IfTold (S.seen source.old) (λ image. AsksOnly (IsDeclared image) (S.seen source.old) (S.seen source.new)) }

    // Of a file without an index that is accepted each position was asked for once, in order, by few requests; of a file
    // of which no index is read, a front of them.
    ensures asked { IfAccepted result (IfTold (S.seen source.old) (λ image. IsUnindexed image → AsksAll image (S.seen source.old) (S.seen source.new))) }
    ensures front { IfTold (S.seen source.old) (λ image. ((t : Shape) → IsOpen image (Some t) → ⊥) → AsksFront image (S.seen source.old) (S.seen source.new)) }

    ensures keeps { Keeps (S.seen source.old) (S.seen source.new) }
    ensures failed { IsErrOf result CheckError.SourceFailed → Rose (S.seen source.old).faults (S.seen source.new).faults }
{
    match count(alloc, source) {
        Ok((features, nodes)) => Ok(Verdict::Accepted { features, nodes }),
        Err(ReadStop::Refused(broken)) => Ok(Verdict::Refused(broken)),
        Err(ReadStop::SourceFailed) => Err(CheckError::SourceFailed),
        Err(ReadStop::Memory) => Err(CheckError::Memory),
    }
}

/// The numbers of features and of nodes of a file that breaks no rule.
fn count<S: RangeSource>(alloc: Global, source: &mut S) -> Result<(u64, u64), ReadStop>
    ensures file { IfOk result (λ counts. IfTold (S.seen source.old) (λ image. IsFileOf image counts.0 counts.1)) }
    ensures refused { IfRefused result (λ broken. IfTold (S.seen source.old) (λ image. BreaksFirst image broken)) }
    ensures declared { IfTold (S.seen source.old) (λ image. AsksOnly (IsDeclared image) (S.seen source.old) (S.seen source.new)) }
    ensures asked { OnOk result (IfTold (S.seen source.old) (λ image. IsUnindexed image → AsksAll image (S.seen source.old) (S.seen source.new))) }
    ensures front { OnErr result (IfTold (S.seen source.old) (λ image. ((t : Shape) → IsOpen image (Some t) → ⊥) → AsksFront image (S.seen source.old) (S.seen source.new))) }
    ensures keeps { Keeps (S.seen source.old) (S.seen source.new) }
    ensures failed { IsErrOf result ReadStop.SourceFailed → Rose (S.seen source.old).faults (S.seen source.new).faults }
{
    let size = source.size();
    let len = read_start(source, size)?;
    let buffer = read_header(alloc, source, len)?;
    let header = judge_header(&buffer)?;
    let place = (START + len) as u64;
    match judge_levels(&header, place, size)? {
        Some(levels) => {
            let features = count_indexed(alloc, &header, place, &levels, size, source)?;
            Ok((features, levels.nodes()))
        }
        None => {
            let features = count_features(alloc, &header, place, size, source)?;
            Ok((features, 0))
        }
    }
}

/// The number of features behind the index that begins at this place, which end a file with this header.
fn count_indexed<S: RangeSource>(
    alloc: Global,
    header: &HeaderView,
    place: u64,
    levels: &Levels,
    end: u64,
    source: &mut S,
) -> Result<u64, ReadStop>
    requires small { end ≤ 2 ^ 48 }
    requires order { place + 40 * node_count (shape_of levels.now) ≤ end }
    requires inside { end ≤ (S.seen source.old).size }
    requires opened { IfTold (S.seen source.old) (λ image. IsOpen image (Some (shape_of levels.now)) × (header_shown header.now ≡ header_in image) × (place ≡ header_end image)) }
    requires whole { IfTold (S.seen source.old) (λ image. length image ≡ end) }
    ensures file { IfOk result (λ features. IfTold (S.seen source.old) (λ image. IsFileWith image (Some (shape_of levels.now)) features)) }
    ensures refused { IfRefused result (λ broken. IfTold (S.seen source.old) (λ image. BreaksFirst image broken)) }
    ensures asked { AsksOnly (IsBehind place (place + 40 * node_count (shape_of levels.now)) end) (S.seen source.old) (S.seen source.new) }
    ensures failed { IsErrOf result ReadStop.SourceFailed → Rose (S.seen source.old).faults (S.seen source.new).faults }
{
    read_index(alloc, source, place, levels)?;
    let first = place + NODE as u64 * levels.nodes();
    let mut leaves = Leaves::new(alloc, place, levels);
    let mut pieces = Pieces::new(alloc, first, end);
    let mut tally = Tally::new(header.features_count());
    while pieces.advance(source)? {
        let own = read_box(&pieces, header)?;
        judge_next(&mut leaves, source, pieces.place() - first, own)?;
        tally.add(pieces.place());
    }
    let features = tally.judge(end)?;
    Ok(features)
}

/// Judges the next leaf, if there is one more, by the offset and the own box of its feature.
fn judge_next<S: RangeSource>(
    leaves: &mut Leaves,
    source: &mut S,
    offset: u64,
    own: Bounds,
) -> Result<(), ReadStop>
    requires leaves { AreLeaves leaves.old }
    requires shows { Shows leaves.old (S.seen source.old) }
    ensures agrees { (place : ℕ) (t : Shape) → IsOver leaves.old place t
        → OnOk result (IfTold (S.seen source.old) (λ image. place ≡ header_end image → LeafAgrees image (Some t) (given_of leaves.old) offset own)) }
    ensures refused { (place : ℕ) (t : Shape) → IsOver leaves.old place t
        → IfRefused result (λ broken. IfTold (S.seen source.old) (λ image. place ≡ header_end image → RefusesLeaf image (Some t) (given_of leaves.old) offset own broken)) }
    ensures given { (place : ℕ) (t : Shape) → IsOver leaves.old place t → OnOk result (given_of leaves.new ≡ min (given_of leaves.old + 1) t.leaves) }
    ensures over { (place : ℕ) (t : Shape) → IsOver leaves.old place t → IsOver leaves.new place t }
    ensures shows { Shows leaves.new (S.seen source.new) }
    ensures asked { (place : ℕ) (t : Shape) → IsOver leaves.old place t → AsksOnly (IsInside place (place + 40 * node_count t)) (S.seen source.old) (S.seen source.new) }
    ensures failed { IsErrOf result ReadStop.SourceFailed → Rose (S.seen source.old).faults (S.seen source.new).faults }
{
    let Some(leaf) = leaves.next(source)? else {
        return Ok(());
    };
    judge_leaf(leaf, leaves.place(), offset, own)?;
    Ok(())
}

/// The number of features between these places, which end a file with this header that has no index.
fn count_features<S: RangeSource>(
    alloc: Global,
    header: &HeaderView,
    first: u64,
    end: u64,
    source: &mut S,
) -> Result<u64, ReadStop>
    requires order { first ≤ end }
    requires small { end ≤ 2 ^ 48 }
    requires inside { end ≤ (S.seen source.old).size }
    requires opened { IfTold (S.seen source.old) (λ image. IsOpened image None (header_shown header.now) first) }
    requires whole { IfTold (S.seen source.old) (λ image. length image ≡ end) }
    ensures file { IfOk result (λ features. IfTold (S.seen source.old) (λ image. IsFileWith image None features)) }
    ensures refused { IfRefused result (λ broken. IfTold (S.seen source.old) (λ image. BreaksFirst image broken)) }
    ensures reads { OnOk result (Reads (IsInside first end) (S.seen source.old) (S.seen source.new) (range_with_len first (end - first))) }
    ensures few { OnOk result (AsksAtMost (mebibytes (end - first)) (S.seen source.old) (S.seen source.new)) }
    ensures front { OnErr result (ReadsFront (IsInside first end) (S.seen source.old) (S.seen source.new) (range_with_len first (end - first))) }
    ensures failed { IsErrOf result ReadStop.SourceFailed → Rose (S.seen source.old).faults (S.seen source.new).faults }
{
    let mut pieces = Pieces::new(alloc, first, end);
    let mut tally = Tally::new(header.features_count());
    while pieces.advance(source)? {
        judge_feature(&pieces, header)?;
        tally.add(pieces.place());
    }
    let features = tally.judge(end)?;
    Ok(features)
}

/// Judges the buffer of the feature that is lent.
fn judge_feature(pieces: &Pieces, header: &HeaderView) -> Result<(), Broken>
    requires { 4 ≤ pieces.now.len }
    ensures { Judges (place_of pieces.now + 4) (BreaksBuffer (buffer_of pieces.now) (feature_root (header_shown header.now))) (λ _. ⊤) result }
{
    FeatureView::read(pieces.buffer(), pieces.place() + PREFIX as u64, header)?;
    Ok(())
}

/// The own box of the feature that is lent, whose buffer it judges.
fn read_box(pieces: &Pieces, header: &HeaderView) -> Result<Bounds, Broken>
    requires { 4 ≤ pieces.now.len }
    ensures { Judges (place_of pieces.now + 4) (BreaksBuffer (buffer_of pieces.now) (feature_root (header_shown header.now)))
        (λ own. own ≡ own_box (feature_of (header_shown header.now) (buffer_of pieces.now))) result }
{
    let feature = FeatureView::read(pieces.buffer(), pieces.place() + PREFIX as u64, header)?;
    Ok(feature.bounds())
}
