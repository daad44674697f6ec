// The window.
ghost use Rattle.std.specs.Prelude.{◌≡◌, ◌+◌, ◌-◌, ◌<◌, ◌≤◌, ◌^◌, [], length, OnOk, OnErr, IsErrOf};
ghost use Rattle.std.specs.List.{range_with_len};
ghost use Rattle.fgb_outside.specs.Source.{Keeps, Rose};
ghost use Rattle.fgb_outside.specs.Asked.{IsInside, Reads, ReadsFront};
ghost use Rattle.section_window.specs.Window.{ahead, passed, Shows, Grows, IsPiece};

use crate::pieces::{PIECE, make_room, read_pieces};
use fgb_outside::{RangeSource, SourceError};
use std::alloc::Global;
use std::marker::Model;

/// A window over a section of a source. Its buffer is reused from piece to piece.
#[derive(Drop)]
pub struct Window {
    buffer: Vec<u8>,
    /// The bytes held lie between these places of the buffer.
    from: usize,
    till: usize,
    /// The first of them stands here in the source.
    at: u64,
    end: u64,
}

impl Model for Window {
    ghost use Rattle.std.specs.Prelude.{◌+◌, ◌-◌, ◌≤◌, ◌^◌, length, slice_range};
    ghost use Rattle.section_window.specs.Window.{Held};

    ghost Value = { Held };

    ghost view = { λ s. record { at = s.at; bytes = slice_range s.buffer.items s.from s.till; end = s.end } };

    ghost invariant = { λ s. (s.from ≤ s.till) × (s.till ≤ length s.buffer.items) × (s.at + (s.till - s.from) ≤ s.end) × (s.end ≤ 2 ^ 48) };
}

impl Window {
    /// A window that holds nothing yet, over the section from `at` to `end`. It takes no memory.
    pub fn new(alloc: Global, at: u64, end: u64) -> Window
        requires order { at ≤ end }
        requires small { end ≤ 2 ^ 48 }
        ensures { result ≡ record { at = at; bytes = []; end = end } }
    {
        Window {
            buffer: Vec::new(alloc),
            from: 0,
            till: 0,
            at,
            end,
        }
    }

    /// The place in the source of the first byte held.
    pub fn at(&self) -> u64
        ensures value { result ≡ self.now.at }
        ensures within { ahead self.now ≤ self.now.end }
        ensures small { self.now.end ≤ 2 ^ 48 }
    {
        self.at
    }

    /// The place in the source where the section ends.
    pub fn end(&self) -> u64
        ensures value { result ≡ self.now.end }
        ensures within { ahead self.now ≤ self.now.end }
        ensures small { self.now.end ≤ 2 ^ 48 }
    {
        self.end
    }

    /// The bytes held.
    pub fn bytes(&self) -> &[u8]
        ensures value { result.now ≡ self.now.bytes }
        ensures within { ahead self.now ≤ self.now.end }
        ensures small { self.now.end ≤ 2 ^ 48 }
    {
        &self.buffer[self.from..self.till]
    }

    /// Makes at least `want` bytes lie here, by requests of 1 MiB, or up to the section's end. It asks for
    /// nothing where they lie here already, and after an error the window is as it was.
    pub fn fill<S: RangeSource>(&mut self, source: &mut S, want: usize) -> Result<(), SourceError>
        requires shows { Shows self.old (S.seen source.old) }
        requires wanted { self.old.at + want ≤ self.old.end }
        ensures kept { (self.new.at ≡ self.old.at) × (self.new.end ≡ self.old.end) }
        ensures shows { Shows self.new (S.seen source.new) }
        ensures enough { OnOk result (want ≤ length self.new.bytes) }
        ensures grows { Grows self.old self.new }
        ensures err { OnErr result (self.new ≡ self.old) }
        ensures reads { OnOk result (Reads (IsInside self.old.at self.old.end) (S.seen source.old) (S.seen source.new) (range_with_len (ahead self.old) (ahead self.new - ahead self.old))) }
        ensures front { OnErr result (ReadsFront (IsInside self.old.at self.old.end) (S.seen source.old) (S.seen source.new) (range_with_len (ahead self.old) (self.old.end - ahead self.old))) }
        ensures keeps { Keeps (S.seen source.old) (S.seen source.new) }
        ensures pieces { OnOk result (Reads (IsPiece self.old.at self.old.end) (S.seen source.old) (S.seen source.new) (range_with_len (ahead self.old) (ahead self.new - ahead self.old))) }
        ensures front_pieces { OnErr result (ReadsFront (IsPiece self.old.at self.old.end) (S.seen source.old) (S.seen source.new) (range_with_len (ahead self.old) (self.old.end - ahead self.old))) }
        ensures held { want ≤ length self.old.bytes → self.new ≡ self.old }
        ensures failed { IsErrOf result SourceError.Failed → Rose (S.seen source.old).faults (S.seen source.new).faults }
    {
        let end = self.end;
        self.fill_until(source, want, end)
    }

    /// The same, without asking for anything from `until` on.
    pub fn fill_until<S: RangeSource>(
        &mut self,
        source: &mut S,
        want: usize,
        until: u64,
    ) -> Result<(), SourceError>
        requires shows { Shows self.old (S.seen source.old) }
        requires wanted { self.old.at + want ≤ until }
        requires within { until ≤ self.old.end }
        ensures kept { (self.new.at ≡ self.old.at) × (self.new.end ≡ self.old.end) }
        ensures shows { Shows self.new (S.seen source.new) }
        ensures enough { OnOk result (want ≤ length self.new.bytes) }
        ensures grows { Grows self.old self.new }
        ensures err { OnErr result (self.new ≡ self.old) }
        ensures reads { OnOk result (Reads (IsInside self.old.at until) (S.seen source.old) (S.seen source.new) (range_with_len (ahead self.old) (ahead self.new - ahead self.old))) }
        ensures front { OnErr result (ReadsFront (IsInside self.old.at until) (S.seen source.old) (S.seen source.new) (range_with_len (ahead self.old) (until - ahead self.old))) }
        ensures keeps { Keeps (S.seen source.old) (S.seen source.new) }
        ensures pieces { OnOk result (Reads (IsPiece self.old.at until) (S.seen source.old) (S.seen source.new) (range_with_len (ahead self.old) (ahead self.new - ahead self.old))) }
        ensures front_pieces { OnErr result (ReadsFront (IsPiece self.old.at until) (S.seen source.old) (S.seen source.new) (range_with_len (ahead self.old) (until - ahead self.old))) }
        ensures held { want ≤ length self.old.bytes → self.new ≡ self.old }
        ensures not_past { length self.old.bytes < want → ahead self.new ≤ until }
        ensures failed { IsErrOf result SourceError.Failed → Rose (S.seen source.old).faults (S.seen source.new).faults }
    {
        let held = self.till - self.from;
        if want <= held {
            return Ok(());
        }
        let section = (until - self.at) as usize;
        let room = section.min(want + PIECE);
        make_room(&mut self.buffer, self.from, self.till, room)?;
        self.from = 0;
        self.till = held;
        self.till = read_pieces(source, &mut self.buffer, held, want, self.at, until)?;
        Ok(())
    }

    /// Goes on `n` bytes, which need not lie here, and asks for nothing.
    pub fn pass(&mut self, n: usize)
        requires { self.old.at + n ≤ self.old.end }
        ensures { self.new ≡ passed self.old n }
    {
        self.from += n.min(self.till - self.from);
        self.at += n as u64;
    }
}
