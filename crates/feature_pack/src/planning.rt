// What a packing of laid features is made of.
ghost use Rattle.std.specs.Prelude.{◌≡◌, ◌≢◌, ◌+◌, ◌*◌, ◌^◌, ◌<◌, ◌≤◌, Err, length, option_map, IfOk, IfErr, MatchResult};
ghost use Rattle.std.specs.List.{AllByRecursion};
ghost use Rattle.flat_layout.specs.Promises.{IsClean};
ghost use Rattle.level_bounds.specs.Shapes.{shape_of};
ghost use Rattle.fgb_schema.specs.Headers.{header_of};
ghost use Rattle.fgb_schema.specs.Paths.{header_root};
ghost use Rattle.fgb_schema.specs.Weights.{BreaksBuffer};
ghost use Rattle.fgb_file.specs.File.{IsFeature, nodes_of};
ghost use Rattle.packed_file.specs.Packing.{IsTooLarge, IsTreeOver, header_bytes, packed_header};
ghost use Rattle.fgb_pack.specs.Plans.{HasNoTree, IsOfPlan};
ghost use Rattle.feature_pack.specs.Pieces.{pieces_in};
ghost use Rattle.feature_pack.specs.Plans.{IsPlan};

use crate::pieces::{leaves_of, own_boxes, pieces_len};
use feature_order::order;
use fgb_pack::PackError;
use fgb_reader::START;
use header_info::HeaderInfo;
use level_bounds::Levels;
use node_items::{NODE, NodeItem};
use std::alloc::Global;

/// The most bytes of a file.
const MAX_FILE: u64 = 1 << 48;

/// A packing that is not too large, before any of it is written.
#[derive(Drop)]
pub(crate) struct Plan {
    /// The buffer of the header.
    pub(crate) head: Vec<u8>,
    /// The levels of the index, if there are features.
    pub(crate) levels: Option<Levels>,
    /// The leaf of each feature, in their order.
    pub(crate) leaves: Vec<NodeItem>,
    /// The numbers of the features, in their order.
    pub(crate) numbers: Vec<usize>,
    /// The bytes of the whole file.
    pub(crate) size: u64,
}

/// Plans the packing of laid features under a header.
pub(crate) fn plan_packing(
    alloc: Global,
    header: &HeaderInfo,
    buffers: &[Vec<u8>],
    node_size: u16,
) -> Result<Plan, PackError>
    requires wide { 2 ≤ node_size }
    requires sound { AllByRecursion (IsFeature header.now) (pieces_in buffers.now) }
    ensures plans { IfOk result (IsPlan header.now (pieces_in buffers.now) node_size) }
    ensures too_large { result ≡ Err PackError.TooLarge → IsTooLarge header.now (pieces_in buffers.now) node_size }
    ensures own { IfErr result IsOfPlan }
{
    let features = buffers.len() as u64;
    let head = header_bytes(alloc, header, features, node_size)?;
    let levels = levels_over(features, node_size)?;
    let size = packed_size(head.len() as u64, &levels, pieces_len(buffers))?;
    let boxes = own_boxes(alloc, header, buffers)?;
    let numbers = order(alloc, &boxes)?;
    let leaves = leaves_of(alloc, &boxes, buffers, &numbers)?;
    Ok(Plan {
        head,
        levels,
        leaves,
        numbers,
        size,
    })
}

/// The buffer of the header with this number of features and this node size.
fn header_bytes(
    alloc: Global,
    header: &HeaderInfo,
    features: u64,
    node_size: u16,
) -> Result<Vec<u8>, PackError>
    requires { 2 ≤ node_size }
    ensures bytes { IfOk result (λ head. head.items ≡ header_bytes header.now features node_size) }
    ensures small { IfOk result (λ head. length head.items ≤ 10485760) }
    ensures clean { IfOk result (λ head. IsClean (BreaksBuffer head.items header_root)) }
    ensures shown { IfOk result (λ head. header_of head.items ≡ packed_header header.now features node_size) }
    ensures too_large { result ≡ Err PackError.TooLarge → 10485760 < length (header_bytes header.now features node_size) }
    ensures own { IfErr result IsOfPlan }
{
    let mut told = header.again(alloc)?;
    told.set_count(features);
    told.set_node_size(node_size);
    Ok(told.to_bytes(alloc)?)
}

/// The levels of an index over so many features, or None where there are none.
fn levels_over(features: u64, node_size: u16) -> Result<Option<Levels>, PackError>
    requires { 2 ≤ node_size }
    ensures over { IfOk result (λ levels. IsTreeOver features node_size (option_map shape_of levels)) }
    ensures none { IfErr result (λ error. (error ≡ PackError.TooLarge) × HasNoTree features node_size) }
{
    if features == 0 {
        return Ok(None);
    }
    match Levels::new(features, node_size) {
        Some(levels) => Ok(Some(levels)),
        None => Err(PackError::TooLarge),
    }
}

/// The bytes of a file with a header of so many bytes, this index, and so many bytes of features.
fn packed_size(head: u64, levels: &Option<Levels>, features: u64) -> Result<u64, PackError>
    requires { head ≤ 10485760 }
    ensures { let size = 12 + head + 40 * nodes_of (option_map shape_of levels.now) + features in
        MatchResult result (λ bytes. (bytes ≡ size) × (bytes ≤ 2 ^ 48)) (λ error. (error ≡ PackError.TooLarge) × (2 ^ 48 < size)) }
{
    let front = START as u64 + head + NODE as u64 * count_nodes(levels);
    let size = front.saturating_add(features);
    if size > MAX_FILE {
        return Err(PackError::TooLarge);
    }
    Ok(size)
}

/// How many nodes an index has, if there is one.
pub(crate) fn count_nodes(levels: &Option<Levels>) -> u64
    ensures nodes { result ≡ nodes_of (option_map shape_of levels.now) }
    ensures few { 40 * result ≤ 2 ^ 48 }
{
    match levels {
        Some(levels) => levels.nodes(),
        None => 0,
    }
}
