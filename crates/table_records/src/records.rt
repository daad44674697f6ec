// The records of a table, in turn.
ghost use Rattle.std.specs.Prelude.{◌≡◌, [], OnErr, IfOk};
ghost use Rattle.table_records.specs.Tables.{records_in, Gives};
ghost use Rattle.csv.specs.Records.{fields_of};

use csv::{ByteRecord, ErrorKind, Reader, ReaderBuilder};
use std::alloc::{AllocError, Global};
use std::marker::Model;

/// The records of a table in memory, in turn (RFC 4180, section 2). It is about 16 KiB large, and `csv` keeps two copies of the
/// first record in it.
#[derive(Drop)]
pub struct Records<'t> {
    reader: Reader<&'t [u8]>,
    /// Whether there was no further record, or no memory for it.
    ended: bool,
}

impl<'t> Model for Records<'t> {
    ghost use Rattle.std.specs.Prelude.{◌≡◌, ℕ, List, [], false, if◌then◌else◌};
    ghost use Rattle.table_records.specs.Reading.{rows_left, ReadsTable};

    ghost Value = { List (List (List ℕ)) };

    ghost view = { λ s. if s.ended then [] else rows_left s.reader };

    ghost invariant = { λ s. s.ended ≡ false → ReadsTable s.reader };
}

impl<'t> Records<'t> {
    /// The records of these bytes. Records may differ in length, fields need be no text, and a byte order mark in front is
    /// dropped.
    pub fn new(alloc: Global, table: &'t [u8]) -> Records<'t>
        ensures { result ≡ records_in table.now }
    {
        let reader = ReaderBuilder::new()
            .has_headers(false)
            .flexible(true)
            .from_reader(alloc, table);
        Records {
            reader,
            ended: false,
        }
    }

    /// Takes the next record into `row`, and says whether there was one. The one error is want of memory, after which no
    /// record is left.
    pub fn next(&mut self, row: &mut ByteRecord) -> Result<bool, AllocError>
        ensures ok { IfOk result (λ found. Gives found (fields_of row.new) self.old self.new) }
        ensures err { OnErr result (self.new ≡ []) }
    {
        if self.ended {
            return Ok(false);
        }
        match self.reader.read_byte_record(row) {
            Ok(found) => {
                self.ended = !found;
                Ok(found)
            }
            Err(fault) => {
                self.ended = true;
                match fault.into_kind() {
                    // `csv` leaves an error of its source open, and a slice gives none.
                    ErrorKind::OutOfMemory | ErrorKind::Io(_) => Err(AllocError),
                    _ => unreachable!(),
                }
            }
        }
    }
}
