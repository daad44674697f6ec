// The adapter over a writer: no contract can say what bytes it takes.
ghost use Rattle.std.specs.Prelude.{◌≡◌, None, IsErrOf, OnOk};
ghost use Rattle.fgb_outside.specs.Sink.{Writes};

use crate::sinks::{Sink, SinkError};
use std::io;
use std::io::Write;
use std::marker::Model;

/// A sink over a writer, as standard output, that is flushed at each piece. It does not tell what was written.
#[derive(Drop)]
pub struct StdSink<W: Write> {
    writer: W,
    faults: u64,
}

impl<W: Write> Model for StdSink<W> {
    ghost use Rattle.std.specs.Prelude.{None};
    ghost use Rattle.fgb_outside.specs.Sink.{Sink as SinkState};

    ghost Value = { SinkState };

    ghost view = { λ s. record { written = None; faults = s.faults; wants = 0 } };
}

// Writes all of the bytes, and flushes. A writer that takes nothing of what is left is an error.
fn write_through<W: Write>(writer: &mut W, bytes: &[u8]) -> io::Result<()> {
    writer.write_all(bytes)?;
    writer.flush()
}

impl<W: Write> StdSink<W> {
    /// A sink over this writer.
    pub fn new(writer: W) -> StdSink<W>
        ensures { result ≡ record { written = None; faults = 0; wants = 0 } }
    {
        StdSink { writer, faults: 0 }
    }
}

impl<W: Write> Sink for StdSink<W> {
    ghost shown = { λ s. s };

    /// A write or a flush that fails is a fault.
    fn write(&mut self, bytes: &[u8]) -> Result<(), SinkError>
        ensures writes { Writes self.old self.new bytes.now result }
        ensures ok { OnOk result (self.new ≡ self.old) }
        ensures no_memory { ¬ IsErrOf result SinkError.Memory }
    {
        if write_through(&mut self.writer, bytes).is_err() {
            self.faults = self.faults.saturating_add(1);
            return Err(SinkError::Failed);
        }
        Ok(())
    }
}
