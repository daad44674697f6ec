// A sink in memory, whose calls fail where they are told to.
ghost use Rattle.std.specs.Prelude.{◌≡◌, [], IfOk, IsErrOf, OnOk, OnErr, Contains};
ghost use Rattle.fgb_outside.specs.Sink.{Writes};
ghost use Rattle.fgb_outside.specs.Memory.{counted, sink_of};

use crate::sinks::{Sink, SinkError};
use std::alloc::{AllocError, Global};
use std::marker::Model;

/// A sink that keeps what it takes, and whose calls fail by number.
#[derive(Drop)]
pub struct MemorySink {
    bytes: Vec<u8>,
    fail: Vec<u64>,
    calls: u64,
    faults: u64,
    wants: u64,
}

impl Model for MemorySink {
    ghost use Rattle.fgb_outside.specs.Memory.{Taken};

    ghost Value = { Taken };

    ghost view = { λ s. record { bytes = s.bytes.items; fail = s.fail.items; calls = s.calls; faults = s.faults; wants = s.wants } };
}

impl MemorySink {
    /// An empty sink. `fail` lists the numbers of the calls that fail, where the first is 1.
    pub fn new(alloc: Global, fail: &[u64]) -> Result<MemorySink, AllocError>
        ensures { IfOk result (λ s. s ≡ record { bytes = []; fail = fail.now; calls = 0; faults = 0; wants = 0 }) }
    {
        Ok(MemorySink {
            bytes: Vec::new(alloc),
            fail: fail.to_vec(alloc)?,
            calls: 0,
            faults: 0,
            wants: 0,
        })
    }

    /// The bytes of the pieces that were taken.
    pub fn bytes(&self) -> &[u8]
        ensures { result.now ≡ self.now.bytes }
    {
        &self.bytes
    }
}

impl Sink for MemorySink {
    ghost shown = { sink_of };

    /// A piece that fails or finds no memory leaves the bytes as they were.
    fn write(&mut self, bytes: &[u8]) -> Result<(), SinkError>
        ensures writes { Writes (sink_of self.old) (sink_of self.new) bytes.now result }
        ensures err { OnErr result (self.new.bytes ≡ self.old.bytes) }
        ensures counts { self.new.calls ≡ counted self.old.calls }
        ensures list { self.new.fail ≡ self.old.fail }
        ensures fails { IsErrOf result SinkError.Failed → Contains self.old.fail (counted self.old.calls) }
        ensures succeeds { OnOk result (¬ Contains self.old.fail (counted self.old.calls)) }
        ensures fault { IsErrOf result SinkError.Failed → self.new.faults ≡ counted self.old.faults }
        ensures no_fault { ¬ IsErrOf result SinkError.Failed → self.new.faults ≡ self.old.faults }
        ensures want { IsErrOf result SinkError.Memory → self.new.wants ≡ counted self.old.wants }
        ensures no_want { ¬ IsErrOf result SinkError.Memory → self.new.wants ≡ self.old.wants }
    {
        self.calls = self.calls.saturating_add(1);
        if self.fail.contains(&self.calls) {
            self.faults = self.faults.saturating_add(1);
            return Err(SinkError::Failed);
        }
        if self.bytes.extend_from_slice(bytes).is_err() {
            self.wants = self.wants.saturating_add(1);
            return Err(SinkError::Memory);
        }
        Ok(())
    }
}
