// Why the values of features are not written.
ghost use Rattle.std.specs.Prelude.{◌≡◌};
ghost use Rattle.wkb_features.specs.Causes.{IsSinkCause};
ghost use Rattle.wkb_features.specs.declared.error.ValuesError.TheVariants.{Memory};

use fgb_outside::SinkError;
use flat_views::Broken;
use std::alloc::AllocError;

/// Why the values of features are not written.
#[derive(Clone, Copy, Debug, PartialEq, Eq)]
pub enum ValuesError {
    /// There was no memory.
    Memory,
    /// A feature has no geometry, or one that no WKB holds: NoWkb at its place.
    Refused(Broken),
    /// The sink failed, and has counted a fault.
    SinkFailed,
}

impl From<AllocError> for ValuesError {
    ghost from_gives = { λ _ error. error ≡ Memory };

    fn from(_: AllocError) -> Self {
        ValuesError::Memory
    }
}

impl From<SinkError> for ValuesError {
    ghost from_gives = { IsSinkCause };

    fn from(error: SinkError) -> Self {
        match error {
            SinkError::Failed => ValuesError::SinkFailed,
            SinkError::Memory => ValuesError::Memory,
        }
    }
}
