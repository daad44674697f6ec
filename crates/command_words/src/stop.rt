// Why the work of a command stops before its end.
ghost use Rattle.command_words.specs.Causes.{IsSinkCause, IsTextCause};

use fgb_outside::SinkError;
use flat_layout::Broken;
use text_query::TextError;

/// Why the work of a command stops before its end.
#[derive(Clone, Copy, Debug, PartialEq, Eq)]
pub enum Stop {
    /// The file breaks this rule at this place.
    Refused(Broken),
    /// The source failed, or the listener, and has counted a fault.
    SourceFailed,
    /// The sink failed, and has counted a fault.
    SinkFailed,
    /// There was no memory.
    Memory,
    /// What was to be written would be larger than the format lets it be.
    TooLarge,
}

impl From<TextError> for Stop {
    ghost from_gives = { IsTextCause };

    fn from(error: TextError) -> Self {
        match error {
            TextError::Refused(broken) => Stop::Refused(broken),
            TextError::SourceFailed => Stop::SourceFailed,
            TextError::SinkFailed => Stop::SinkFailed,
            TextError::TooLarge => Stop::TooLarge,
            TextError::Memory => Stop::Memory,
        }
    }
}

impl From<SinkError> for Stop {
    ghost from_gives = { IsSinkCause };

    fn from(error: SinkError) -> Self {
        match error {
            SinkError::Failed => Stop::SinkFailed,
            SinkError::Memory => Stop::Memory,
        }
    }
}
