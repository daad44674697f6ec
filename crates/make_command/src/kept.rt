// A sink in memory that never fails.
ghost use Rattle.std.specs.Prelude.{◌≡◌, []};
ghost use Rattle.make_command.specs.Files.{kept};

use fgb_outside::{Sink, SinkError};
use std::alloc::Global;

/// A sink that keeps what it takes. It never fails, but there may be no memory for more.
#[derive(Drop)]
pub(crate) struct Kept {
    pub(crate) bytes: Vec<u8>,
    wants: u64,
}

impl Kept {
    /// A sink that has taken nothing, which takes no memory.
    pub(crate) fn new(alloc: Global) -> Kept
        ensures { result.bytes.items ≡ [] }
    {
        Kept {
            bytes: Vec::new(alloc),
            wants: 0,
        }
    }
}

impl Sink for Kept {
    ghost shown = { λ k. kept k.bytes.items k.wants };

    fn write(&mut self, bytes: &[u8]) -> Result<(), SinkError> {
        if self.bytes.extend_from_slice(bytes).is_err() {
            self.wants = self.wants.saturating_add(1);
            return Err(SinkError::Memory);
        }
        Ok(())
    }
}
