// A source in memory that never fails.
ghost use Rattle.std.specs.Prelude.{◌≡◌, ◌+◌, ◌<◌, ◌≤◌, length, IsOk};
ghost use Rattle.fgb_outside.specs.Source.{ReadsAt};
ghost use Rattle.fgb_outside.specs.Memory.{plain_source};

use crate::sources::{RangeSource, SourceError};
use std::marker::Model;

/// A source over bytes in memory that keeps no list, never fails and takes no memory.
#[derive(Drop)]
pub struct PlainSource<'a> {
    image: &'a [u8],
}

impl<'a> Model for PlainSource<'a> {
    ghost use Rattle.std.specs.Prelude.{List, ℕ};

    ghost Value = { List ℕ };

    ghost view = { λ s. s.image.now };
}

impl<'a> PlainSource<'a> {
    /// A source of these bytes.
    pub fn new(image: &'a [u8]) -> PlainSource<'a>
        ensures { result ≡ image.now }
    {
        PlainSource { image }
    }
}

impl RangeSource for PlainSource<'_> {
    ghost seen = { plain_source };

    fn size(&self) -> u64 {
        self.image.len() as u64
    }

    fn read_at(&mut self, at: u64, into: &mut [u8]) -> Result<(), SourceError>
        requires not_empty { 0 < length into.old }
        requires inside { at + length into.old ≤ length self.old }
        ensures reads { ReadsAt (plain_source self.old) (plain_source self.new) at into.new result }
        ensures ok { IsOk result }
        ensures same { self.new ≡ self.old }
    {
        let from = at as usize;
        into.copy_from_slice(&self.image[from..from + into.len()]);
        Ok(())
    }
}
