// Why a query stops before its end.
ghost use Rattle.std.specs.Prelude.{◌≡◌};
ghost use Rattle.found_features.specs.declared.stop.QueryError.TheVariants.{Memory, Refused};
ghost use Rattle.found_features.specs.Stops.{IsReadCause, IsSourceCause, IsVisitCause};

use crate::visitor::VisitError;
use fgb_outside::SourceError;
use flat_views::Broken;
use read_stop::ReadStop;
use std::alloc::AllocError;

/// Why a query stops before its end.
#[derive(Clone, Copy, Debug, PartialEq, Eq)]
pub enum QueryError {
    /// There was no memory.
    Memory,
    /// The file breaks this rule at this place.
    Refused(Broken),
    /// The source failed, and has counted a fault.
    SourceFailed,
    /// The visitor stopped, and has counted a stop.
    VisitorStopped,
}

impl From<Broken> for QueryError {
    ghost from_gives = { λ broken stop. stop ≡ Refused broken };

    fn from(broken: Broken) -> Self {
        QueryError::Refused(broken)
    }
}

impl From<SourceError> for QueryError {
    ghost from_gives = { IsSourceCause };

    fn from(error: SourceError) -> Self {
        match error {
            SourceError::Failed => QueryError::SourceFailed,
            SourceError::Memory => QueryError::Memory,
        }
    }
}

impl From<ReadStop> for QueryError {
    ghost from_gives = { IsReadCause };

    fn from(stop: ReadStop) -> Self {
        match stop {
            ReadStop::Refused(broken) => QueryError::Refused(broken),
            ReadStop::SourceFailed => QueryError::SourceFailed,
            ReadStop::Memory => QueryError::Memory,
        }
    }
}

impl From<VisitError> for QueryError {
    ghost from_gives = { IsVisitCause };

    fn from(error: VisitError) -> Self {
        match error {
            VisitError::Stopped => QueryError::VisitorStopped,
            VisitError::Memory => QueryError::Memory,
        }
    }
}

impl From<AllocError> for QueryError {
    ghost from_gives = { λ _ stop. stop ≡ Memory };

    fn from(_: AllocError) -> Self {
        QueryError::Memory
    }
}
