// Why reading stops before its end.
ghost use Rattle.std.specs.Prelude.{◌≡◌};
ghost use Rattle.read_stop.specs.Stops.{IsCause};
ghost use Rattle.read_stop.specs.declared.stop.ReadStop.TheVariants.{Memory, Refused};

use fgb_outside::SourceError;
use flat_layout::Broken;
use std::alloc::AllocError;

/// Why reading stops before its end.
#[derive(Clone, Copy, Debug, PartialEq, Eq)]
pub enum ReadStop {
    /// The file breaks this rule at this place.
    Refused(Broken),
    /// The source failed, and has counted a fault.
    SourceFailed,
    /// There was no memory.
    Memory,
}

impl From<Broken> for ReadStop {
    ghost from_gives = { λ broken stop. stop ≡ Refused broken };

    fn from(broken: Broken) -> Self {
        ReadStop::Refused(broken)
    }
}

impl From<SourceError> for ReadStop {
    ghost from_gives = { IsCause };

    fn from(error: SourceError) -> Self {
        match error {
            SourceError::Failed => ReadStop::SourceFailed,
            SourceError::Memory => ReadStop::Memory,
        }
    }
}

impl From<AllocError> for ReadStop {
    ghost from_gives = { λ _ stop. stop ≡ Memory };

    fn from(_: AllocError) -> Self {
        ReadStop::Memory
    }
}
