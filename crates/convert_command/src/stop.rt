// Why a conversion stops before its end.
ghost use Rattle.convert_command.specs.Causes.{IsLayCause, IsReadCause, IsValuesCause};

use command_words::Stop;
use fgb_pack::PackError;
use owned_features::ReadStop;
use wkb_features::ValuesError;

/// Why reading stops.
pub(crate) fn read_stop(stop: ReadStop) -> Stop
    ensures { IsReadCause stop result }
{
    match stop {
        ReadStop::Refused(broken) => Stop::Refused(broken),
        ReadStop::SourceFailed => Stop::SourceFailed,
        ReadStop::Memory => Stop::Memory,
    }
}

/// Why laying a file stops.
pub(crate) fn lay_stop(error: PackError) -> Stop
    ensures { IsLayCause error result }
{
    match error {
        PackError::Refused(broken) => Stop::Refused(broken),
        PackError::SourceFailed => Stop::SourceFailed,
        PackError::SinkFailed => Stop::SinkFailed,
        PackError::TooLarge => Stop::TooLarge,
        PackError::Memory => Stop::Memory,
    }
}

/// Why writing values stops.
pub(crate) fn values_stop(error: ValuesError) -> Stop
    ensures { IsValuesCause error result }
{
    match error {
        ValuesError::Refused(broken) => Stop::Refused(broken),
        ValuesError::SinkFailed => Stop::SinkFailed,
        ValuesError::Memory => Stop::Memory,
    }
}
