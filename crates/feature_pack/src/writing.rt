// Packing owned features.
ghost use Rattle.std.specs.Prelude.{◌≡◌, ◌++◌, ◌∷◌, ◌<◌, ◌≤◌, [], Err, IfOk, IfErr, IfSome, OnOk, IsErrOf, length, option_map};
ghost use Rattle.std.specs.List.{AllByRecursion, concat};
ghost use Rattle.byteorder.specs.Endian.{little_bytes};
ghost use Rattle.level_bounds.specs.Shapes.{shape_of};
ghost use Rattle.feature_tables.specs.Records.{Fits};
ghost use Rattle.fgb_outside.specs.Source.{Rose};
ghost use Rattle.fgb_outside.specs.Sink.{Appends, AppendsPart};
ghost use Rattle.fgb_file.specs.File.{magic};
ghost use Rattle.packed_file.specs.Packing.{in_order, index_bytes, start_bytes};
ghost use Rattle.feature_pack.specs.Packs.{LacksPacking, Packs, PacksPart};
ghost use Rattle.feature_pack.specs.Pieces.{pieces_in};
ghost use Rattle.feature_pack.specs.Plans.{IsOfFeatures, IsOfSink, IsWritable, planned_bytes};

use crate::planning::{Plan, count_nodes, plan_packing};
use byteorder::{ByteOrder, LittleEndian};
use feature_info::FeatureInfo;
use fgb_outside::{Sink, SinkError};
use fgb_pack::{PackDone, PackError};
use fgb_reader::START;
use header_info::HeaderInfo;
use laid_features::lay_features;
use level_bounds::Levels;
use node_items::NodeItem;
use sink_page::Page;
use std::alloc::Global;
use tree_writer::write_tree;

/// The magic bytes; this writer ends them in 1.
const MAGIC: [u8; 8] = [0x66, 0x67, 0x62, 3, 0x66, 0x67, 0x62, 1];

/// Writes the packing of features under a header: the header with their number and this node size, an index over them, and
/// the features, each laid, in the order of the Hilbert curve. Without features there is no index.
///
/// TooLarge where a laid feature would be longer than 268,435,456 bytes, the header than 10,485,760, or the file than 2^48,
/// and then nothing is written. After another error a front of the packing was. Refused and SourceFailed never come.
pub fn pack_features<W: Sink>(
    alloc: Global,
    header: &HeaderInfo,
    features: &[FeatureInfo],
    node_size: u16,
    out: &mut W,
) -> Result<PackDone, PackError>
    requires wide { 2 ≤ node_size }
    requires fit { AllByRecursion (Fits header.now) features.now }

    // The packing was written, and it is a file that breaks no rule.
    ensures packed { IfOk result (λ done. Packs header.now features.now node_size done (W.shown out.old) (W.shown out.new)) }

    // It is too large exactly where there is no packing that the format admits, and then nothing was written.
    ensures too_large { result ≡ Err PackError.TooLarge → LacksPacking header.now features.now node_size }
    ensures fits { OnOk result (LacksPacking header.now features.now node_size → ⊥) }
    ensures too_large_none { LacksPacking header.now features.now node_size → W.shown out.new ≡ W.shown out.old }

    // Whatever comes of it, a front of the packing was written, or nothing.
    ensures part { PacksPart header.now features.now node_size (W.shown out.old) (W.shown out.new) }
    ensures large_unwritten { result ≡ Err PackError.TooLarge → W.shown out.new ≡ W.shown out.old }

    ensures own { IfErr result IsOfFeatures }
    ensures failed { IsErrOf result PackError.SinkFailed → Rose (W.shown out.old).faults (W.shown out.new).faults }
    ensures later { (W.shown out.old).faults ≤ (W.shown out.new).faults }
{
    let buffers = lay_features(alloc, features)?;
    let plan = plan_packing(alloc, header, &buffers, node_size)?;
    write_plan(alloc, &buffers, &plan, out)?;
    Ok(PackDone {
        features: features.len() as u64,
        nodes: count_nodes(&plan.levels),
        bytes: plan.size,
    })
}

/// Writes what was planned of laid features.
fn write_plan<W: Sink>(
    alloc: Global,
    buffers: &[Vec<u8>],
    plan: &Plan,
    out: &mut W,
) -> Result<(), PackError>
    requires { IsWritable (length buffers.now) plan.now }
    ensures whole { OnOk result (Appends (W.shown out.old) (W.shown out.new) (planned_bytes (pieces_in buffers.now) plan.now)) }
    ensures part { AppendsPart (W.shown out.old) (W.shown out.new) (planned_bytes (pieces_in buffers.now) plan.now) }
    ensures own { IfErr result IsOfSink }
    ensures failed { IsErrOf result PackError.SinkFailed → Rose (W.shown out.old).faults (W.shown out.new).faults }
    ensures later { (W.shown out.old).faults ≤ (W.shown out.new).faults }
{
    write_head(&plan.head, out)?;
    write_index(alloc, &plan.levels, &plan.leaves, out)?;
    write_pieces(alloc, buffers, &plan.numbers, out)?;
    Ok(())
}

/// Writes the start of a file with this buffer of its header, and the buffer.
fn write_head<W: Sink>(head: &[u8], out: &mut W) -> Result<(), SinkError>
    requires { length head.now ≤ 10485760 }
    ensures whole { OnOk result (Appends (W.shown out.old) (W.shown out.new) (start_bytes head.now ++ head.now)) }
    ensures part { AppendsPart (W.shown out.old) (W.shown out.new) (start_bytes head.now ++ head.now) }
    ensures failed { IsErrOf result SinkError.Failed → Rose (W.shown out.old).faults (W.shown out.new).faults }
    ensures later { (W.shown out.old).faults ≤ (W.shown out.new).faults }
{
    out.write(&start(head.len() as u32))?;
    out.write(head)
}

/// Writes the index over these leaves, if there is one.
fn write_index<W: Sink>(
    alloc: Global,
    levels: &Option<Levels>,
    leaves: &[NodeItem],
    out: &mut W,
) -> Result<(), SinkError>
    requires { IfSome levels.now (λ l. length leaves.now ≡ (shape_of l).leaves) }
    ensures whole { OnOk result (Appends (W.shown out.old) (W.shown out.new) (index_bytes (option_map shape_of levels.now) leaves.now)) }
    ensures part { AppendsPart (W.shown out.old) (W.shown out.new) (index_bytes (option_map shape_of levels.now) leaves.now) }
    ensures failed { IsErrOf result SinkError.Failed → Rose (W.shown out.old).faults (W.shown out.new).faults }
    ensures later { (W.shown out.old).faults ≤ (W.shown out.new).faults }
{
    match levels {
        Some(levels) => write_tree(alloc, levels, leaves, out),
        None => Ok(()),
    }
}

/// The start of a file whose header has this size.
fn start(header: u32) -> [u8; START]
    ensures { result ≡ magic ++ 1 ∷ little_bytes 4 header }
{
    let mut start = [0; START];
    start[..8].copy_from_slice(&MAGIC);
    LittleEndian::write_u32(&mut start[8..], header);
    start
}

/// Writes the buffers with these numbers, each behind its size prefix.
fn write_pieces<W: Sink>(
    alloc: Global,
    buffers: &[Vec<u8>],
    numbers: &[usize],
    out: &mut W,
) -> Result<(), SinkError>
    requires { AllByRecursion (λ k. k < length buffers.now) numbers.now }
    ensures whole { OnOk result (Appends (W.shown out.old) (W.shown out.new) (concat (in_order (pieces_in buffers.now) numbers.now))) }
    ensures part { AppendsPart (W.shown out.old) (W.shown out.new) (concat (in_order (pieces_in buffers.now) numbers.now)) }
    ensures failed { IsErrOf result SinkError.Failed → Rose (W.shown out.old).faults (W.shown out.new).faults }
    ensures later { (W.shown out.old).faults ≤ (W.shown out.new).faults }
{
    let mut page = Page::new(alloc);
    for number in numbers {
        page.put_framed(out, &buffers[*number])?;
    }
    page.write(out)
}
