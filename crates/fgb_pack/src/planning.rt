// What a packing is made of.
ghost use Rattle.std.specs.Prelude.{◌≡◌, ◌≢◌, ◌+◌, ◌*◌, ◌^◌, ◌<◌, ◌≤◌, ℕ, List, Option, Err, length, option_map, IfOk, IfErr, IsErrOf, MatchResult};
ghost use Rattle.std.specs.List.{AllByRecursion};
ghost use Rattle.order_keys.specs.Boxes.{IsBox};
ghost use Rattle.level_bounds.specs.Levels.{Shape};
ghost use Rattle.level_bounds.specs.Shapes.{shape_of};
ghost use Rattle.fgb_outside.specs.Source.{IfTold, Keeps, Rose};
ghost use Rattle.fgb_header.specs.Views.{header_shown};
ghost use Rattle.fgb_file.specs.File.{IsFile, first_place, header_end, header_in, nodes_of};
ghost use Rattle.packed_file.specs.Packing.{IsTooLarge, IsTreeOver, header_bytes};
ghost use Rattle.fgb_pack.specs.Causes.{IfRefused};
ghost use Rattle.fgb_pack.specs.Plans.{HasNoRoom, HasNoTree, IsOfPlan, IsPlan, IsWritable, Plans, leaves_over, spans_in_order};

use crate::done::PackError;
use feature_order::order;
use feature_spans::{Span, Survey, survey_features};
use fgb_header::HeaderView;
use fgb_outside::RangeSource;
use fgb_reader::{START, judge_header, judge_levels, read_header, read_start};
use flat_views::Broken;
use header_info::HeaderInfo;
use level_bounds::Levels;
use node_items::{NODE, NodeItem};
use packed_file::packings_are_files;
use std::alloc::{AllocError, Global};

/// The most bytes of a file.
const MAX_FILE: u64 = 1 << 48;

/// A packing that is not too large, before any of it is written.
#[derive(Drop)]
pub(crate) struct Plan {
    /// The buffer of the header.
    pub(crate) head: Vec<u8>,
    /// The levels of the index, if there are features.
    pub(crate) levels: Option<Levels>,
    /// The leaf of each feature, in their order.
    pub(crate) leaves: Vec<NodeItem>,
    /// Where each feature stands in the source, in their order.
    pub(crate) spans: Vec<Span>,
    /// The bytes of the whole file.
    pub(crate) size: u64,
}

/// Plans the packing of the file of a source, which it reads. Its features are judged again, since a source may not tell
/// what it holds.
pub(crate) fn plan_packing<S: RangeSource>(
    alloc: Global,
    source: &mut S,
    node_size: u16,
) -> Result<Plan, PackError>
    requires { 2 ≤ node_size }

    // Of a file that breaks no rule it is its packing, or that is too large, and none is refused.
    ensures plans { IfOk result (λ plan. IfTold (S.seen source.old) (λ image. (index : Option Shape) (pieces : List (List ℕ)) → IsFile image index pieces
        → IsPlan image pieces node_size plan)) }
    ensures too_large { result ≡ Err PackError.TooLarge → IfTold (S.seen source.old) (λ image. (index : Option Shape) (pieces : List (List ℕ)) → IsFile image index pieces
        → IsTooLarge (header_in image) pieces node_size) }
    ensures unrefused { IfRefused result (λ _. IfTold (S.seen source.old) (λ image. (index : Option Shape) (pieces : List (List ℕ)) → IsFile image index pieces → ⊥)) }

    // Whatever the file, it can be written.
    ensures writable { IfOk result (IsWritable (S.seen source.old).size) }
    ensures keeps { Keeps (S.seen source.old) (S.seen source.new) }
    ensures failed { IsErrOf result PackError.SourceFailed → Rose (S.seen source.old).faults (S.seen source.new).faults }
    ensures no_sink { result ≢ Err PackError.SinkFailed }
{
    let end = source.size();
    let len = read_start(source, end)?;
    let buffer = read_header(alloc, source, len)?;
    let header = judge_header(&buffer)?;
    let first = first_feature(&header, (START + len) as u64, end)?;
    let survey = survey_features(alloc, &header, first, end, source)?;
    packings_are_files();
    plan_features(alloc, &header, node_size, &survey, end - first)
}

/// Where the first feature stands in a file with this header, which ends at `place`, and of this size.
fn first_feature(header: &HeaderView, place: u64, size: u64) -> Result<u64, Broken>
    requires order { place ≤ size }
    requires small { size ≤ 2 ^ 48 }
    ensures judged { (image : List ℕ) (index : Option Shape) (pieces : List (List ℕ)) → IsFile image index pieces → header_shown header.now ≡ header_in image
        → place ≡ header_end image → size ≡ length image → MatchResult result (λ first. first ≡ first_place image index) (λ _. ⊥) }
    ensures within { IfOk result (λ first. first ≤ size) }
{
    let levels = judge_levels(header, place, size)?;
    Ok(place + NODE as u64 * count_nodes(&levels))
}

/// How many nodes an index has, if there is one.
pub(crate) fn count_nodes(levels: &Option<Levels>) -> u64
    ensures nodes { result ≡ nodes_of (option_map shape_of levels.now) }
    ensures few { 40 * result ≤ 2 ^ 48 }
{
    match levels {
        Some(levels) => levels.nodes(),
        None => 0,
    }
}

/// Plans the packing of features that have so many bytes together, with their size prefixes.
fn plan_features(
    alloc: Global,
    header: &HeaderView,
    node_size: u16,
    survey: &Survey,
    bytes: u64,
) -> Result<Plan, PackError>
    requires wide { 2 ≤ node_size }
    requires boxes { AllByRecursion IsBox survey.now.boxes.items }
    requires each { length survey.now.spans.items ≡ length survey.now.boxes.items }
    requires small { bytes ≤ 2 ^ 48 }
    ensures plans { IfOk result (Plans (header_shown header.now) survey.now node_size bytes) }
    ensures too_large { result ≡ Err PackError.TooLarge → HasNoRoom (header_shown header.now) (length survey.now.boxes.items) node_size bytes }
    ensures own { IfErr result IsOfPlan }
{
    let features = survey.spans.len() as u64;
    let head = header_bytes(alloc, header, features, node_size)?;
    let levels = levels_over(features, node_size)?;
    let size = packed_size(head.len() as u64, &levels, bytes)?;
    let numbers = order(alloc, &survey.boxes)?;
    let spans = in_order(alloc, &survey.spans, &numbers)?;
    let leaves = leaves_of(alloc, survey, &numbers)?;
    Ok(Plan {
        head,
        levels,
        leaves,
        spans,
        size,
    })
}

/// The buffer of the header with this number of features and this node size.
fn header_bytes(
    alloc: Global,
    header: &HeaderView,
    features: u64,
    node_size: u16,
) -> Result<Vec<u8>, PackError>
    requires { 2 ≤ node_size }
    ensures bytes { IfOk result (λ head. head.items ≡ header_bytes (header_shown header.now) features node_size) }
    ensures small { IfOk result (λ head. length head.items ≤ 10485760) }
    ensures too_large { result ≡ Err PackError.TooLarge → 10485760 < length (header_bytes (header_shown header.now) features node_size) }
    ensures own { IfErr result IsOfPlan }
{
    let mut info = HeaderInfo::of(alloc, header)?;
    info.set_count(features);
    info.set_node_size(node_size);
    Ok(info.to_bytes(alloc)?)
}

/// The levels of an index over so many features, or None where there are none.
fn levels_over(features: u64, node_size: u16) -> Result<Option<Levels>, PackError>
    requires { 2 ≤ node_size }
    ensures over { IfOk result (λ levels. IsTreeOver features node_size (option_map shape_of levels)) }
    ensures none { IfErr result (λ error. (error ≡ PackError.TooLarge) × HasNoTree features node_size) }
{
    if features == 0 {
        return Ok(None);
    }
    match Levels::new(features, node_size) {
        Some(levels) => Ok(Some(levels)),
        None => Err(PackError::TooLarge),
    }
}

/// The bytes of a file with a header of so many bytes, this index, and so many bytes of features.
fn packed_size(head: u64, levels: &Option<Levels>, features: u64) -> Result<u64, PackError>
    requires head { head ≤ 10485760 }
    requires features { features ≤ 2 ^ 48 }
    ensures { let size = 12 + head + 40 * nodes_of (option_map shape_of levels.now) + features in
        MatchResult result (λ bytes. (bytes ≡ size) × (bytes ≤ 2 ^ 48)) (λ error. (error ≡ PackError.TooLarge) × (2 ^ 48 < size)) }
{
    let size = START as u64 + head + NODE as u64 * count_nodes(levels) + features;
    if size > MAX_FILE {
        return Err(PackError::TooLarge);
    }
    Ok(size)
}

/// The parts with these numbers.
fn in_order(alloc: Global, spans: &[Span], numbers: &[usize]) -> Result<Vec<Span>, AllocError>
    requires { AllByRecursion (λ k. k < length spans.now) numbers.now }
    ensures { IfOk result (λ ordered. ordered.items ≡ spans_in_order spans.now numbers.now) }
{
    let mut ordered = Vec::with_capacity(alloc, numbers.len())?;
    for number in numbers {
        ordered.push(spans[*number])?;
    }
    Ok(ordered)
}

/// The leaves of the features with these numbers, which stand one behind the other. A sum of the sizes of parts that
/// passes 64 bits, as a source may have that tells nothing of its bytes, stays at the highest number.
fn leaves_of(alloc: Global, survey: &Survey, numbers: &[usize]) -> Result<Vec<NodeItem>, AllocError>
    requires each { length survey.now.spans.items ≡ length survey.now.boxes.items }
    requires known { AllByRecursion (λ k. k < length survey.now.boxes.items) numbers.now }
    ensures { IfOk result (λ leaves. leaves.items ≡ leaves_over survey.now 0 numbers.now) }
{
    let mut leaves = Vec::with_capacity(alloc, numbers.len())?;
    let mut offset: u64 = 0;
    for number in numbers {
        leaves.push(NodeItem {
            bounds: survey.boxes[*number],
            offset,
        })?;
        offset = offset.saturating_add(survey.spans[*number].len as u64);
    }
    Ok(leaves)
}
