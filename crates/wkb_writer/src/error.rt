// Why a shape is not written or read.
ghost use Rattle.std.specs.Prelude.{◌≡◌};
ghost use Rattle.wkb_writer.specs.declared.error.WkbError.TheVariants.{Memory, Refused};

use flat_views::Broken;
use std::alloc::AllocError;

/// Why a shape is not written as WKB, or bytes are not read as one.
#[derive(Clone, Copy, Debug, PartialEq, Eq)]
pub enum WkbError {
    /// There was no memory.
    Memory,
    /// Writing: no WKB holds the shape (NoWkb at 0). Reading: the rule that the bytes break, and the place.
    Refused(Broken),
}

impl From<AllocError> for WkbError {
    ghost from_gives = { λ _ e. e ≡ Memory };

    fn from(_: AllocError) -> Self {
        WkbError::Memory
    }
}

impl From<Broken> for WkbError {
    ghost from_gives = { λ broken e. e ≡ Refused broken };

    fn from(broken: Broken) -> Self {
        WkbError::Refused(broken)
    }
}
