// The check of a file.
ghost use Rattle.std.specs.Prelude.{◌≡◌, ◌≢◌, ℕ, Some, Err, OnOk, IsErrOf};
ghost use Rattle.fgb_outside.specs.Source.{IfTold, Rose};
ghost use Rattle.fgb_outside.specs.Sink.{AppendsPart};
ghost use Rattle.level_bounds.specs.Levels.{Shape};
ghost use Rattle.fgb_file.specs.File.{BreaksFirst, IsDeclared, IsOpen, IsUnindexed, IsValid};
ghost use Rattle.read_stop.specs.Asks.{AsksOnly};
ghost use Rattle.fgb_check.specs.Verdicts.{IsFileOf};
ghost use Rattle.fgb_reader.specs.Requests.{AsksAll, AsksFront};
ghost use Rattle.command_words.specs.Statuses.{IfRefused};
ghost use Rattle.fgb_tool.specs.Runs.{Accepts, AcceptsPart};
ghost use Rattle.fgb_tool.specs.Texts.{accepted_text};

use crate::stop::check_stop;
use crate::texts::write_accepted;
use command_words::Stop;
use fgb_check::{Verdict, check};
use fgb_outside::{RangeSource, Sink};
use std::alloc::Global;

/// Writes how many features and nodes a file has that breaks no rule.
pub(crate) fn check_file<S: RangeSource, W: Sink>(
    alloc: Global,
    file: &mut S,
    out: &mut W,
) -> Result<(), Stop>
    ensures done { OnOk result (IfTold (S.seen file.old) (λ image. Accepts image (W.shown out.old) (W.shown out.new))) }
    ensures refused { IfRefused result (λ broken. IfTold (S.seen file.old) (λ image. BreaksFirst image broken)) }
    ensures declared { IfTold (S.seen file.old) (λ image. AsksOnly (IsDeclared image) (S.seen file.old) (S.seen file.new)) }
    ensures asked { OnOk result (IfTold (S.seen file.old) (λ image. IsUnindexed image → AsksAll image (S.seen file.old) (S.seen file.new))) }
    ensures front { IfTold (S.seen file.old) (λ image. ((t : Shape) → IsOpen image (Some t) → ⊥) → AsksFront image (S.seen file.old) (S.seen file.new)) }
    ensures failed { IsErrOf result Stop.SourceFailed → Rose (S.seen file.old).faults (S.seen file.new).faults }
    ensures sink_failed { IsErrOf result Stop.SinkFailed → Rose (W.shown out.old).faults (W.shown out.new).faults }

    // Only the line of a file that breaks no rule is written, or a front of it.
    ensures wrote { IfTold (S.seen file.old) (λ image. AcceptsPart image (W.shown out.old) (W.shown out.new)) }
    ensures part { IfTold (S.seen file.old) (λ image. (features nodes : ℕ) → IsFileOf image features nodes → AppendsPart (W.shown out.old) (W.shown out.new) (accepted_text features nodes)) }
    ensures broken { IfTold (S.seen file.old) (λ image. (IsValid image → ⊥) → W.shown out.new ≡ W.shown out.old) }
    ensures unwritten { IfRefused result (λ _. W.shown out.new ≡ W.shown out.old) }
    ensures unread { IsErrOf result Stop.SourceFailed → W.shown out.new ≡ W.shown out.old }
    ensures never_large { result ≢ Err Stop.TooLarge }
{
    let verdict = match check(alloc, file) {
        Ok(verdict) => verdict,
        Err(error) => return Err(check_stop(error)),
    };
    match verdict {
        Verdict::Accepted { features, nodes } => write_accepted(out, features, nodes)?,
        Verdict::Refused(broken) => return Err(Stop::Refused(broken)),
    }
    Ok(())
}
