// Bytes written in pieces.
ghost use Rattle.std.specs.Prelude.{◌≡◌, ◌≤◌, ◌++◌, [], length, OnOk, OnErr, IsErrOf};
ghost use Rattle.byteorder.specs.Endian.{little_bytes};
ghost use Rattle.fgb_outside.specs.Source.{Rose};
ghost use Rattle.fgb_outside.specs.Sink.{Appends, AppendsPart};
ghost use Rattle.sink_page.specs.Pages.{Adds, AddsPart};

use fgb_outside::{Sink, SinkError};
use std::alloc::Global;
use std::marker::Model;

/// A page is written when it has so many bytes.
const FULL: usize = 65536;

/// Bytes that are still to be written. The buffer is reused.
#[derive(Drop)]
pub struct Page {
    bytes: Vec<u8>,
}

impl Model for Page {
    ghost use Rattle.std.specs.Prelude.{ℕ, List};

    ghost Value = { List ℕ };

    ghost view = { λ page. page.bytes.items };
}

impl Page {
    /// A page without bytes, which takes no memory.
    pub fn new(alloc: Global) -> Page
        ensures { result ≡ [] }
    {
        Page {
            bytes: Vec::new(alloc),
        }
    }

    /// Writes a piece behind what stands on the page, or puts it there. After an error a front of both was written, or
    /// the page is as it was.
    pub fn put<W: Sink>(&mut self, out: &mut W, piece: &[u8]) -> Result<(), SinkError>
        ensures ok { OnOk result (Adds (W.shown out.old) (W.shown out.new) self.old self.new piece.now) }
        ensures err { OnErr result (AddsPart (W.shown out.old) (W.shown out.new) self.old self.new piece.now) }
        ensures failed { IsErrOf result SinkError.Failed → Rose (W.shown out.old).faults (W.shown out.new).faults }
    {
        if piece.len() < FULL {
            self.add(out, piece)
        } else {
            self.pass(out, piece)
        }
    }

    /// Puts a buffer behind its size prefix, which is the lowest 4 bytes of its size.
    pub fn put_framed<W: Sink>(&mut self, out: &mut W, buffer: &[u8]) -> Result<(), SinkError>
        ensures ok { OnOk result (Adds (W.shown out.old) (W.shown out.new) self.old self.new (little_bytes 4 (length buffer.now) ++ buffer.now)) }
        ensures err { OnErr result (AddsPart (W.shown out.old) (W.shown out.new) self.old self.new (little_bytes 4 (length buffer.now) ++ buffer.now)) }
        ensures failed { IsErrOf result SinkError.Failed → Rose (W.shown out.old).faults (W.shown out.new).faults }
    {
        let size = (buffer.len() as u64).to_le_bytes();
        self.put(out, &size[..4])?;
        self.put(out, buffer)
    }

    /// Puts a piece on the page, and writes that when it is full.
    fn add<W: Sink>(&mut self, out: &mut W, piece: &[u8]) -> Result<(), SinkError>
        ensures ok { OnOk result (Adds (W.shown out.old) (W.shown out.new) self.old self.new piece.now) }
        ensures err { OnErr result (AddsPart (W.shown out.old) (W.shown out.new) self.old self.new piece.now) }
        ensures failed { IsErrOf result SinkError.Failed → Rose (W.shown out.old).faults (W.shown out.new).faults }
    {
        self.bytes.extend_from_slice(piece)?;
        if self.bytes.len() < FULL {
            return Ok(());
        }
        self.write(out)
    }

    /// Writes the page, and a piece behind it, which is not copied.
    fn pass<W: Sink>(&mut self, out: &mut W, piece: &[u8]) -> Result<(), SinkError>
        ensures ok { OnOk result (Adds (W.shown out.old) (W.shown out.new) self.old self.new piece.now) }
        ensures err { OnErr result (AddsPart (W.shown out.old) (W.shown out.new) self.old self.new piece.now) }
        ensures failed { IsErrOf result SinkError.Failed → Rose (W.shown out.old).faults (W.shown out.new).faults }
    {
        self.write(out)?;
        out.write(piece)
    }

    /// Writes what stands on the page, and forgets it, also where only a front of it was written.
    pub fn write<W: Sink>(&mut self, out: &mut W) -> Result<(), SinkError>
        ensures empty { self.new ≡ [] }
        ensures whole { OnOk result (Appends (W.shown out.old) (W.shown out.new) self.old) }
        ensures part { AppendsPart (W.shown out.old) (W.shown out.new) self.old }
        ensures later { (W.shown out.old).faults ≤ (W.shown out.new).faults }
        ensures failed { IsErrOf result SinkError.Failed → Rose (W.shown out.old).faults (W.shown out.new).faults }
    {
        if self.bytes.is_empty() {
            return Ok(());
        }
        let written = out.write(&self.bytes);
        self.bytes.clear();
        written
    }
}
