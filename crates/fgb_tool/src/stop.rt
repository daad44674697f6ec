// Why a check and a packing stop before their end.
ghost use Rattle.fgb_tool.specs.Causes.{IsCheckCause, IsPackCause};

use command_words::Stop;
use fgb_check::CheckError;
use fgb_pack::PackError;

/// Why a check stops.
pub(crate) fn check_stop(error: CheckError) -> Stop
    ensures { IsCheckCause error result }
{
    match error {
        CheckError::SourceFailed => Stop::SourceFailed,
        CheckError::Memory => Stop::Memory,
    }
}

/// Why a packing stops.
pub(crate) fn pack_stop(error: PackError) -> Stop
    ensures { IsPackCause error result }
{
    match error {
        PackError::Refused(broken) => Stop::Refused(broken),
        PackError::SourceFailed => Stop::SourceFailed,
        PackError::SinkFailed => Stop::SinkFailed,
        PackError::TooLarge => Stop::TooLarge,
        PackError::Memory => Stop::Memory,
    }
}
