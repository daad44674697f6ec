// The adapter over an opened file: no contract can say what bytes it gives.
ghost use Rattle.std.specs.Prelude.{◌≡◌, ◌+◌, ◌<◌, ◌≤◌, length, None, IfOk, IsErrOf, OnOk};
ghost use Rattle.fgb_outside.specs.Source.{ReadsAt};

use crate::sources::{RangeSource, SourceError};
use std::fs::File;
use std::io;
use std::io::{Read, Seek, SeekFrom};
use std::marker::Model;

/// A source over an opened file, whose size is taken once. It tells neither its bytes nor what it was asked for.
#[derive(Drop)]
pub struct FileSource {
    file: File,
    size: u64,
    faults: u64,
}

impl Model for FileSource {
    ghost use Rattle.std.specs.Prelude.{None};
    ghost use Rattle.fgb_outside.specs.Source.{Source};

    ghost Value = { Source };

    ghost view = { λ s. record { image = None; asked = None; size = s.size; faults = s.faults } };
}

// Fills `into` from the file's bytes from `at` on. An early end is an error.
fn read_from(file: &mut File, at: u64, into: &mut [u8]) -> io::Result<()> {
    file.seek(SeekFrom::Start(at))?;
    file.read_exact(into)
}

impl FileSource {
    /// A source over this file, with the size that it has now.
    pub fn new(mut file: File) -> io::Result<FileSource>
        ensures told { IfOk result (λ s. (s.image ≡ None) × (s.asked ≡ None)) }
        ensures faults { IfOk result (λ s. s.faults ≡ 0) }
    {
        let size = file.seek(SeekFrom::End(0))?;
        Ok(FileSource {
            file,
            size,
            faults: 0,
        })
    }
}

impl RangeSource for FileSource {
    ghost seen = { λ s. s };

    fn size(&self) -> u64 {
        self.size
    }

    /// A read that fails, or that finds the file's end too early, is a fault.
    fn read_at(&mut self, at: u64, into: &mut [u8]) -> Result<(), SourceError>
        requires not_empty { 0 < length into.old }
        requires inside { at + length into.old ≤ self.old.size }
        ensures reads { ReadsAt self.old self.new at into.new result }
        ensures ok { OnOk result (self.new ≡ self.old) }
        ensures no_memory { ¬ IsErrOf result SourceError.Memory }
    {
        if read_from(&mut self.file, at, into).is_err() {
            self.faults = self.faults.saturating_add(1);
            return Err(SourceError::Failed);
        }
        Ok(())
    }
}
