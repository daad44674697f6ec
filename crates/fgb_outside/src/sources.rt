// A source of ranges of bytes.
ghost use Rattle.std.specs.Prelude.{◌≡◌, ◌+◌, ◌<◌, ◌≤◌, length};
ghost use Rattle.fgb_outside.specs.declared.sources.SourceError.TheVariants.{Memory};
ghost use Rattle.fgb_outside.specs.Source.{Source, HasSize, ReadsAt};

use std::alloc::{AllocError, AllocFailed};

/// Why a read gave no bytes.
#[derive(Clone, Copy, Debug, PartialEq, Eq)]
pub enum SourceError {
    /// The source failed, and has counted a fault.
    Failed,
    /// There was no memory.
    Memory,
}

impl From<AllocError> for SourceError {
    ghost from_gives = { λ _ e. e ≡ Memory };

    fn from(_: AllocError) -> Self {
        SourceError::Memory
    }
}

impl<T: Drop> From<AllocFailed<T>> for SourceError {
    ghost from_gives = { λ _ e. e ≡ Memory };

    fn from(_: AllocFailed<T>) -> Self {
        SourceError::Memory
    }
}

/// Bytes that are read by place and length, as of a file or of a server that answers range requests.
pub trait RangeSource: Drop {
    /// Its bytes and what it was asked for, each where it is told, its size, and its count of faults.
    ghost seen: { Self → Source };

    /// How many bytes there are. This never changes.
    fn size(&self) -> u64
        ensures { HasSize (seen self.now) result };

    /// Fills `into` with the bytes from `at` on. After an error what `into` holds is open.
    fn read_at(&mut self, at: u64, into: &mut [u8]) -> Result<(), SourceError>
        requires not_empty { 0 < length into.old }
        requires inside { at + length into.old ≤ (seen self.old).size }
        ensures { ReadsAt (seen self.old) (seen self.new) at into.new result };
}
