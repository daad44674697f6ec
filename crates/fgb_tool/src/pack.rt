// The packing of a file.
ghost use Rattle.std.specs.Prelude.{◌≡◌, ◌≤◌, ℕ, List, Option, Err, OnOk, IsErrOf};
ghost use Rattle.level_bounds.specs.Levels.{Shape};
ghost use Rattle.fgb_outside.specs.Source.{IfTold, Rose};
ghost use Rattle.fgb_file.specs.File.{BreaksFirst, IsFile, IsValid, header_in};
ghost use Rattle.packed_file.specs.Packing.{IsTooLarge};
ghost use Rattle.fgb_pack.specs.Packs.{PacksPart};
ghost use Rattle.command_words.specs.Statuses.{IfRefused};
ghost use Rattle.fgb_tool.specs.Runs.{WritesPacking};

use crate::stop::pack_stop;
use command_words::Stop;
use fgb_outside::{RangeSource, Sink};
use fgb_pack::pack;
use std::alloc::Global;

/// Writes the packing of a file with nodes of so many children.
pub(crate) fn pack_file<S: RangeSource, W: Sink>(
    alloc: Global,
    node_size: u16,
    file: &mut S,
    out: &mut W,
) -> Result<(), Stop>
    requires { 2 ≤ node_size }
    ensures done { OnOk result (IfTold (S.seen file.old) (λ image. IsValid image × ((index : Option Shape) (pieces : List (List ℕ)) → IsFile image index pieces
        → WritesPacking image pieces node_size (W.shown out.old) (W.shown out.new)))) }
    ensures refused { IfRefused result (λ broken. IfTold (S.seen file.old) (λ image. BreaksFirst image broken)) }
    ensures unwritten { IfRefused result (λ _. W.shown out.new ≡ W.shown out.old) }
    ensures too_large { result ≡ Err Stop.TooLarge → (W.shown out.new ≡ W.shown out.old) × IfTold (S.seen file.old) (λ image. IsValid image
        × ((index : Option Shape) (pieces : List (List ℕ)) → IsFile image index pieces → IsTooLarge (header_in image) pieces node_size)) }
    ensures part { IfTold (S.seen file.old) (λ image. (index : Option Shape) (pieces : List (List ℕ)) → IsFile image index pieces
        → PacksPart image pieces node_size (W.shown out.old) (W.shown out.new)) }
    ensures large_none { IfTold (S.seen file.old) (λ image. (index : Option Shape) (pieces : List (List ℕ)) → IsFile image index pieces
        → IsTooLarge (header_in image) pieces node_size → (W.shown out.new ≡ W.shown out.old) × OnOk result ⊥) }
    ensures broken { IfTold (S.seen file.old) (λ image. (IsValid image → ⊥) → W.shown out.new ≡ W.shown out.old) }
    ensures failed { IsErrOf result Stop.SourceFailed → Rose (S.seen file.old).faults (S.seen file.new).faults }
    ensures sink_failed { IsErrOf result Stop.SinkFailed → Rose (W.shown out.old).faults (W.shown out.new).faults }
{
    match pack(alloc, file, node_size, out) {
        Ok(_) => Ok(()),
        Err(error) => Err(pack_stop(error)),
    }
}
