// The pieces of a file that laid features are: each buffer behind its size prefix.
ghost use Rattle.std.specs.Prelude.{◌≡◌, ◌-◌, ◌^◌, ◌<◌, ◌≤◌, IfOk, length, min};
ghost use Rattle.std.specs.List.{AllByRecursion, concat};
ghost use Rattle.order_keys.specs.Boxes.{IsBox};
ghost use Rattle.fgb_schema.specs.Headers.{Header};
ghost use Rattle.fgb_file.specs.File.{IsFeature, box_of};
ghost use Rattle.packed_file.specs.Packing.{boxes_of, in_order, leaves_from};
ghost use Rattle.laid_features.specs.Buffers.{framed};
ghost use Rattle.feature_pack.specs.Pieces.{HasPatterns, HasRoom, pieces_in};

use fgb_feature::geometry_under;
use header_info::HeaderInfo;
use node_items::NodeItem;
use order_keys::Bounds;
use std::alloc::{AllocError, Global};

/// The bytes of a size prefix.
const PREFIX: u64 = 4;

/// The bytes of all pieces, or 2^64 - 1 where they are more.
pub(crate) fn pieces_len(buffers: &[Vec<u8>]) -> u64
    requires { AllByRecursion HasRoom buffers.now }
    ensures { result ≡ min (length (concat (pieces_in buffers.now))) (2 ^ 64 - 1) }
{
    let mut bytes: u64 = 0;
    for buffer in buffers {
        bytes = bytes.saturating_add(piece_len(buffer));
    }
    bytes
}

/// The bytes of a piece.
#[tactic(auto, using(laid_features::proofs::Framing::framed_long))]
fn piece_len(buffer: &[u8]) -> u64
    requires { length buffer.now ≤ 268435456 }
    ensures { result ≡ length (framed buffer.now) }
{
    PREFIX + buffer.len() as u64
}

/// The own box of each feature under a header.
pub(crate) fn own_boxes(
    alloc: Global,
    header: &HeaderInfo,
    buffers: &[Vec<u8>],
) -> Result<Vec<Bounds>, AllocError>
    requires { AllByRecursion (IsFeature header.now) (pieces_in buffers.now) }
    ensures boxes { IfOk result (λ boxes. boxes.items ≡ boxes_of header.now (pieces_in buffers.now)) }
    ensures sound { IfOk result (λ boxes. AllByRecursion IsBox boxes.items) }
    ensures patterns { IfOk result (λ boxes. AllByRecursion HasPatterns boxes.items) }
{
    let mut boxes = Vec::with_capacity(alloc, buffers.len())?;
    for buffer in buffers {
        boxes.push(own_box(header, buffer))?;
    }
    Ok(boxes)
}

/// The own box of the feature in a buffer, which breaks no rule.
fn own_box(header: &HeaderInfo, buffer: &[u8]) -> Bounds
    requires { IsFeature header.now (framed buffer.now) }
    ensures value { result ≡ box_of header.now (framed buffer.now) }
    ensures sound { IsBox result }
    ensures patterns { HasPatterns result }
{
    match geometry_under(buffer, 0, header.geometry_type()) {
        Ok(Some(geometry)) => geometry.bounds(),
        Ok(None) => Bounds::empty(),
        Err(_) => unreachable!(),
    }
}

/// The leaves of the features with these numbers, which stand one behind the other.
pub(crate) fn leaves_of(
    alloc: Global,
    boxes: &[Bounds],
    buffers: &[Vec<u8>],
    numbers: &[usize],
) -> Result<Vec<NodeItem>, AllocError>
    requires each { length boxes.now ≡ length buffers.now }
    requires known { AllByRecursion (λ k. k < length buffers.now) numbers.now }
    requires room { AllByRecursion HasRoom buffers.now }
    requires small { length (concat (in_order (pieces_in buffers.now) numbers.now)) ≤ 2 ^ 48 }
    ensures { (header : Header) → boxes.now ≡ boxes_of header (pieces_in buffers.now)
        → IfOk result (λ leaves. leaves.items ≡ leaves_from header 0 (in_order (pieces_in buffers.now) numbers.now)) }
{
    let mut leaves = Vec::with_capacity(alloc, numbers.len())?;
    let mut offset: u64 = 0;
    for number in numbers {
        leaves.push(NodeItem {
            bounds: boxes[*number],
            offset,
        })?;
        offset += piece_len(&buffers[*number]);
    }
    Ok(leaves)
}
