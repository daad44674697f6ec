// A sink that takes pieces of bytes.
ghost use Rattle.std.specs.Prelude.{◌≡◌};
ghost use Rattle.fgb_outside.specs.declared.sinks.SinkError.TheVariants.{Memory};
ghost use Rattle.fgb_outside.specs.Sink.{Sink as SinkState, Writes};

use std::alloc::{AllocError, AllocFailed};

/// Why a piece was not taken whole.
#[derive(Clone, Copy, Debug, PartialEq, Eq)]
pub enum SinkError {
    /// The sink failed, and has counted a fault.
    Failed,
    /// There was no memory, and the sink has counted a want.
    Memory,
}

impl From<AllocError> for SinkError {
    ghost from_gives = { λ _ e. e ≡ Memory };

    fn from(_: AllocError) -> Self {
        SinkError::Memory
    }
}

impl<T: Drop> From<AllocFailed<T>> for SinkError {
    ghost from_gives = { λ _ e. e ≡ Memory };

    fn from(_: AllocFailed<T>) -> Self {
        SinkError::Memory
    }
}

/// Where bytes are written to, piece by piece.
pub trait Sink {
    /// The bytes written, where they are told, and its counts of faults and of wants of memory.
    ghost shown: { Self → SinkState };

    /// Appends the piece. After an error a front of it was appended.
    fn write(&mut self, bytes: &[u8]) -> Result<(), SinkError>
        ensures { Writes (shown self.old) (shown self.new) bytes.now result };
}
