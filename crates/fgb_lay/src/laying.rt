// Laying a file.
ghost use Rattle.std.specs.Prelude.{◌≡◌, ◌≤◌, Err, IfOk, IfErr, OnOk, IsErrOf};
ghost use Rattle.std.specs.List.{AllByRecursion};
ghost use Rattle.fgb_outside.specs.Source.{Rose};
ghost use Rattle.fgb_outside.specs.Sink.{AppendsPart};
ghost use Rattle.feature_tables.specs.Records.{Fits};
ghost use Rattle.fgb_lay.specs.Laying.{HasNoRoom, IsOfLaying, Lays, laid_file};

use crate::planning::plan_file;
use crate::writing::write_file;
use feature_info::FeatureInfo;
use fgb_outside::Sink;
use fgb_pack::{PackDone, PackError};
use header_info::HeaderInfo;
use std::alloc::Global;

/// Writes a file without an index of features that fit a header: that header, with the number of the features, and each of
/// them behind its size prefix, in order. It is written in pieces of up to 64 KiB, unless a feature is larger.
///
/// TooLarge where the header would be longer than 10,485,760 bytes, a feature than 268,435,456, or the file than 2^48. Then
/// nothing is written; after another error a front of the file was.
pub fn lay_plain<W: Sink>(
    alloc: Global,
    header: &HeaderInfo,
    features: &[FeatureInfo],
    out: &mut W,
) -> Result<PackDone, PackError>
    requires { AllByRecursion (Fits header.now) features.now }

    // The file was written, which is valid and shows the same features.
    ensures laid { IfOk result (λ done. Lays header.now features.now done (W.shown out.old) (W.shown out.new)) }

    // It is too large exactly where it has no room, and then nothing was written.
    ensures too_large { result ≡ Err PackError.TooLarge → HasNoRoom header.now features.now }
    ensures fits { OnOk result (HasNoRoom header.now features.now → ⊥) }
    ensures large_none { HasNoRoom header.now features.now → W.shown out.new ≡ W.shown out.old }

    // Whatever comes of it, a front of the file was written.
    ensures part { AppendsPart (W.shown out.old) (W.shown out.new) (laid_file header.now features.now) }

    // It is not refused, and reads no source.
    ensures own { IfErr result IsOfLaying }
    ensures sink_failed { IsErrOf result PackError.SinkFailed → Rose (W.shown out.old).faults (W.shown out.new).faults }
    ensures later { (W.shown out.old).faults ≤ (W.shown out.new).faults }
{
    let plan = plan_file(alloc, header, features)?;
    write_file(alloc, &plan, out)?;
    Ok(PackDone {
        features: features.len() as u64,
        nodes: 0,
        bytes: plan.size,
    })
}
