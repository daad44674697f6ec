// Bytes written in pieces.
ghost use Rattle.std.specs.Prelude.{◌≡◌, ◌≤◌, [], OnOk, OnErr, IsOk, IsErrOf};
ghost use Rattle.fgb_outside.specs.Source.{Rose};
ghost use Rattle.fgb_outside.specs.Sink.{Appends, AppendsPart};
ghost use Rattle.text_query.specs.Pages.{Adds, AddsPart};

use fgb_outside::{Sink, SinkError};
use found_features::VisitError;
use std::alloc::Global;

/// A page is written when it has so many bytes.
const FULL: usize = 65536;

/// Bytes that are still to be written. The buffer is reused.
#[derive(Drop)]
pub struct Page {
    /// The bytes, in the order in which they are to be written.
    pub bytes: Vec<u8>,
}

impl Page {
    /// A page without bytes, which takes no memory.
    pub(crate) fn new(alloc: Global) -> Self
        ensures { result.bytes.items ≡ [] }
    {
        Page {
            bytes: Vec::new(alloc),
        }
    }

    /// Writes a piece behind what stands on the page, or puts it there. After an error a front of both was written, or
    /// the page is as it was.
    pub(crate) fn put<W: Sink>(&mut self, out: &mut W, piece: &[u8]) -> Result<(), VisitError>
        ensures ok { OnOk result (Adds (W.shown out.old) (W.shown out.new) self.old.bytes.items self.new.bytes.items piece.now) }
        ensures err { OnErr result (AddsPart (W.shown out.old) (W.shown out.new) self.old.bytes.items self.new.bytes.items piece.now) }
        ensures stopped { IsErrOf result VisitError.Stopped → Rose (W.shown out.old).faults (W.shown out.new).faults }
    {
        if piece.len() < FULL {
            self.add(out, piece)
        } else {
            self.pass(out, piece)
        }
    }

    /// Puts a piece on the page, and writes that when it is full.
    fn add<W: Sink>(&mut self, out: &mut W, piece: &[u8]) -> Result<(), VisitError>
        ensures ok { OnOk result (Adds (W.shown out.old) (W.shown out.new) self.old.bytes.items self.new.bytes.items piece.now) }
        ensures err { OnErr result (AddsPart (W.shown out.old) (W.shown out.new) self.old.bytes.items self.new.bytes.items piece.now) }
        ensures stopped { IsErrOf result VisitError.Stopped → Rose (W.shown out.old).faults (W.shown out.new).faults }
    {
        self.bytes.extend_from_slice(piece)?;
        if self.bytes.len() < FULL {
            return Ok(());
        }
        written(self.write(out))
    }

    /// Writes the page, and a piece behind it, which is not copied.
    fn pass<W: Sink>(&mut self, out: &mut W, piece: &[u8]) -> Result<(), VisitError>
        ensures ok { OnOk result (Adds (W.shown out.old) (W.shown out.new) self.old.bytes.items self.new.bytes.items piece.now) }
        ensures err { OnErr result (AddsPart (W.shown out.old) (W.shown out.new) self.old.bytes.items self.new.bytes.items piece.now) }
        ensures stopped { IsErrOf result VisitError.Stopped → Rose (W.shown out.old).faults (W.shown out.new).faults }
    {
        written(self.write(out))?;
        written(out.write(piece))
    }

    /// Writes what stands on the page, and forgets it, also where only a front of it was written.
    pub(crate) fn write<W: Sink>(&mut self, out: &mut W) -> Result<(), SinkError>
        ensures empty { self.new.bytes.items ≡ [] }
        ensures whole { OnOk result (Appends (W.shown out.old) (W.shown out.new) self.old.bytes.items) }
        ensures part { AppendsPart (W.shown out.old) (W.shown out.new) self.old.bytes.items }
        ensures later { (W.shown out.old).faults ≤ (W.shown out.new).faults }
        ensures failed { IsErrOf result SinkError.Failed → Rose (W.shown out.old).faults (W.shown out.new).faults }
        ensures idle { self.old.bytes.items ≡ [] → result ≡ Ok tt }
    {
        if self.bytes.is_empty() {
            return Ok(());
        }
        let written = out.write(&self.bytes);
        self.bytes.clear();
        written
    }
}

/// What a visitor answers to a write: it stops where the sink fails.
fn written(attempt: Result<(), SinkError>) -> Result<(), VisitError>
    ensures ok { IsOk result → IsOk attempt }
    ensures stopped { IsErrOf result VisitError.Stopped → IsErrOf attempt SinkError.Failed }
{
    match attempt {
        Ok(()) => Ok(()),
        Err(SinkError::Failed) => Err(VisitError::Stopped),
        Err(SinkError::Memory) => Err(VisitError::Memory),
    }
}
