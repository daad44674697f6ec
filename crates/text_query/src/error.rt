// Why a text is not written to its end.
ghost use Rattle.text_query.specs.Causes.{IsQueryCause, IsSinkCause};

use fgb_outside::SinkError;
use flat_views::Broken;
use found_features::QueryError;

/// Why a text is not written to its end.
#[derive(Clone, Copy, Debug, PartialEq, Eq)]
pub enum TextError {
    /// The file breaks this rule at this place.
    Refused(Broken),
    /// The source failed, and has counted a fault.
    SourceFailed,
    /// The sink failed, and has counted a fault.
    SinkFailed,
    /// The header of the file that was to be written would be longer than 10,485,760 bytes.
    TooLarge,
    /// There was no memory.
    Memory,
}

impl From<QueryError> for TextError {
    ghost from_gives = { IsQueryCause };

    fn from(error: QueryError) -> Self {
        match error {
            QueryError::Refused(broken) => TextError::Refused(broken),
            QueryError::SourceFailed => TextError::SourceFailed,
            QueryError::VisitorStopped => TextError::SinkFailed,
            QueryError::Memory => TextError::Memory,
        }
    }
}

impl From<SinkError> for TextError {
    ghost from_gives = { IsSinkCause };

    fn from(error: SinkError) -> Self {
        match error {
            SinkError::Failed => TextError::SinkFailed,
            SinkError::Memory => TextError::Memory,
        }
    }
}
