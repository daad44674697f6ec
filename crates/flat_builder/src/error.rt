// Why there is no buffer.
ghost use Rattle.std.specs.Prelude.{◌≡◌};
ghost use Rattle.flat_builder.specs.declared.error.BuildError.TheVariants.{Memory};

use std::alloc::{AllocError, AllocFailed};

/// Why a table is not changed, or has no buffer.
#[derive(Clone, Copy, Debug, PartialEq, Eq)]
pub enum BuildError {
    /// The memory that it takes is not there.
    Memory,
    /// The buffer would be longer than the limit.
    TooLarge,
}

impl From<AllocError> for BuildError {
    ghost from_gives = { λ _ e. e ≡ Memory };

    fn from(_: AllocError) -> Self {
        BuildError::Memory
    }
}

impl<T: Drop> From<AllocFailed<T>> for BuildError {
    ghost from_gives = { λ _ e. e ≡ Memory };

    fn from(_: AllocFailed<T>) -> Self {
        BuildError::Memory
    }
}
