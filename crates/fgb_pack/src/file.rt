// Packing a source.
ghost use Rattle.std.specs.Prelude.{◌≡◌, ◌++◌, ◌∷◌, ◌^◌, ◌<◌, ◌≤◌, ℕ, List, Option, Err, IfOk, IfErr, IfSome, OnOk, IsErrOf, length, option_map};
ghost use Rattle.byteorder.specs.Endian.{little_bytes};
ghost use Rattle.level_bounds.specs.Levels.{Shape};
ghost use Rattle.level_bounds.specs.Shapes.{shape_of};
ghost use Rattle.fgb_outside.specs.Source.{IfTold, Rose};
ghost use Rattle.fgb_outside.specs.Sink.{Appends, AppendsPart};
ghost use Rattle.fgb_file.specs.File.{BreaksFirst, IsFile, IsValid, header_in, magic};
ghost use Rattle.packed_file.specs.Packing.{IsTooLarge, index_bytes, start_bytes};
ghost use Rattle.fgb_pack.specs.Causes.{IfRefused};
ghost use Rattle.fgb_pack.specs.Packs.{Packs, PacksPart};
ghost use Rattle.fgb_pack.specs.Plans.{IsOfWriting, IsWritable, planned_bytes};

use crate::done::{PackDone, PackError};
use crate::planning::{Plan, count_nodes, plan_packing};
use byteorder::{ByteOrder, LittleEndian};
use feature_spans::copy_spans;
use fgb_check::{Verdict, check};
use fgb_outside::{RangeSource, Sink, SinkError};
use fgb_reader::START;
use level_bounds::Levels;
use node_items::NodeItem;
use std::alloc::Global;
use tree_writer::write_tree;

/// The magic bytes; this writer ends them in 1.
const MAGIC: [u8; 8] = [0x66, 0x67, 0x62, 3, 0x66, 0x67, 0x62, 1];

/// Writes the packing of the file of a source: its header with the number of its features and this node size, an index over
/// them, and its features, unchanged, in the order of the Hilbert curve. Without features there is no index.
///
/// Refuses the file as `check` of `fgb_check` does. TooLarge where the header laid anew would be longer than 10,485,760
/// bytes, or the file than 2^48. In both cases nothing is written; after another error a front of the packing was.
pub fn pack<S: RangeSource, W: Sink>(
    alloc: Global,
    source: &mut S,
    node_size: u16,
    out: &mut W,
) -> Result<PackDone, PackError>
    requires { 2 ≤ node_size }

    // The packing was written, of a file that breaks no rule.
    ensures packed { IfOk result (λ done. IfTold (S.seen source.old) (λ image. (index : Option Shape) (pieces : List (List ℕ)) → IsFile image index pieces
        → Packs image pieces node_size done (W.shown out.old) (W.shown out.new))) }
    ensures valid { OnOk result (IfTold (S.seen source.old) (λ image. IsValid image)) }

    // It is refused for a rule that it breaks in the first unit in which any is.
    ensures refused { IfRefused result (λ broken. IfTold (S.seen source.old) (λ image. BreaksFirst image broken)) }

    // It is too large exactly where its packing is, and then nothing was written.
    ensures too_large { result ≡ Err PackError.TooLarge → IfTold (S.seen source.old) (λ image. (index : Option Shape) (pieces : List (List ℕ)) → IsFile image index pieces
        → IsTooLarge (header_in image) pieces node_size) }
    ensures too_large_valid { result ≡ Err PackError.TooLarge → IfTold (S.seen source.old) (λ image. IsValid image) }
    ensures fits { OnOk result (IfTold (S.seen source.old) (λ image. (index : Option Shape) (pieces : List (List ℕ)) → IsFile image index pieces
        → IsTooLarge (header_in image) pieces node_size → ⊥)) }
    ensures too_large_none { IfTold (S.seen source.old) (λ image. (index : Option Shape) (pieces : List (List ℕ)) → IsFile image index pieces
        → IsTooLarge (header_in image) pieces node_size → W.shown out.new ≡ W.shown out.old) }

    // Whatever comes of it, a front of the packing was written, or nothing.
    ensures part { IfTold (S.seen source.old) (λ image. (index : Option Shape) (pieces : List (List ℕ)) → IsFile image index pieces
        → PacksPart image pieces node_size (W.shown out.old) (W.shown out.new)) }
    ensures broken { IfTold (S.seen source.old) (λ image. (IsValid image → ⊥) → W.shown out.new ≡ W.shown out.old) }
    ensures unwritten { IfRefused result (λ _. W.shown out.new ≡ W.shown out.old) }
    ensures large_unwritten { result ≡ Err PackError.TooLarge → W.shown out.new ≡ W.shown out.old }

    ensures failed { IsErrOf result PackError.SourceFailed → Rose (S.seen source.old).faults (S.seen source.new).faults }
    ensures sink_failed { IsErrOf result PackError.SinkFailed → Rose (W.shown out.old).faults (W.shown out.new).faults }
    ensures later { (W.shown out.old).faults ≤ (W.shown out.new).faults }
{
    match check(alloc, source)? {
        Verdict::Accepted { .. } => {}
        Verdict::Refused(broken) => return Err(PackError::Refused(broken)),
    }
    let plan = plan_packing(alloc, source, node_size)?;
    write_plan(alloc, source, &plan, out)?;
    Ok(PackDone {
        features: plan.spans.len() as u64,
        nodes: count_nodes(&plan.levels),
        bytes: plan.size,
    })
}

/// Writes what was planned.
fn write_plan<S: RangeSource, W: Sink>(
    alloc: Global,
    source: &mut S,
    plan: &Plan,
    out: &mut W,
) -> Result<(), PackError>
    requires { IsWritable (S.seen source.old).size plan.now }
    ensures whole { OnOk result (IfTold (S.seen source.old) (λ image. Appends (W.shown out.old) (W.shown out.new) (planned_bytes image plan.now))) }
    ensures part { IfTold (S.seen source.old) (λ image. AppendsPart (W.shown out.old) (W.shown out.new) (planned_bytes image plan.now)) }
    ensures own { IfErr result IsOfWriting }
    ensures failed { IsErrOf result PackError.SourceFailed → Rose (S.seen source.old).faults (S.seen source.new).faults }
    ensures sink_failed { IsErrOf result PackError.SinkFailed → Rose (W.shown out.old).faults (W.shown out.new).faults }
    ensures later { (W.shown out.old).faults ≤ (W.shown out.new).faults }
{
    write_head(&plan.head, out)?;
    write_index(alloc, &plan.levels, &plan.leaves, out)?;
    copy_spans(alloc, source, &plan.spans, out)?;
    Ok(())
}

/// Writes the start of a file with this buffer of its header, and the buffer.
fn write_head<W: Sink>(head: &[u8], out: &mut W) -> Result<(), SinkError>
    requires { length head.now ≤ 10485760 }
    ensures whole { OnOk result (Appends (W.shown out.old) (W.shown out.new) (start_bytes head.now ++ head.now)) }
    ensures part { AppendsPart (W.shown out.old) (W.shown out.new) (start_bytes head.now ++ head.now) }
    ensures failed { IsErrOf result SinkError.Failed → Rose (W.shown out.old).faults (W.shown out.new).faults }
    ensures later { (W.shown out.old).faults ≤ (W.shown out.new).faults }
{
    out.write(&start(head.len() as u32))?;
    out.write(head)
}

/// Writes the index over these leaves, if there is one.
fn write_index<W: Sink>(
    alloc: Global,
    levels: &Option<Levels>,
    leaves: &[NodeItem],
    out: &mut W,
) -> Result<(), SinkError>
    requires { IfSome levels.now (λ l. length leaves.now ≡ (shape_of l).leaves) }
    ensures whole { OnOk result (Appends (W.shown out.old) (W.shown out.new) (index_bytes (option_map shape_of levels.now) leaves.now)) }
    ensures part { AppendsPart (W.shown out.old) (W.shown out.new) (index_bytes (option_map shape_of levels.now) leaves.now) }
    ensures failed { IsErrOf result SinkError.Failed → Rose (W.shown out.old).faults (W.shown out.new).faults }
    ensures later { (W.shown out.old).faults ≤ (W.shown out.new).faults }
{
    match levels {
        Some(levels) => write_tree(alloc, levels, leaves, out),
        None => Ok(()),
    }
}

/// The start of a file whose header has this size.
fn start(header: u32) -> [u8; START]
    ensures { result ≡ magic ++ 1 ∷ little_bytes 4 header }
{
    let mut start = [0; START];
    start[..8].copy_from_slice(&MAGIC);
    LittleEndian::write_u32(&mut start[8..], header);
    start
}
