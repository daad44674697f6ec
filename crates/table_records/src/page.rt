// A page on which records are laid.
ghost use Rattle.std.specs.Prelude.{◌≡◌, ◌++◌, [], OnOk, OnErr, IfOk};
ghost use Rattle.table_records.specs.Tables.{record_text};
ghost use Rattle.csv.specs.Records.{fields_of};

use crate::lay::lay_record;
use csv::{ByteRecord, Writer, WriterBuilder};
use std::alloc::AllocError;
use std::marker::Model;

/// A page of bytes on which records are laid one after another. It is about 8.5 KiB large besides its bytes, so one is made
/// for many records.
#[derive(Drop)]
pub struct RecordPage {
    writer: Writer<Vec<u8>>,
    /// Whether there was no memory for a record.
    lost: bool,
}

impl Model for RecordPage {
    ghost use Rattle.std.specs.Prelude.{◌≡◌, ℕ, List, [], false, if◌then◌else◌};
    ghost use Rattle.table_records.specs.Laying.{bytes_laid, LaysTable};

    ghost Value = { List ℕ };

    ghost view = { λ s. if s.lost then [] else bytes_laid s.writer };

    ghost invariant = { λ s. s.lost ≡ false → LaysTable s.writer };
}

impl RecordPage {
    /// Lays records behind what stands on this page.
    pub fn over(page: Vec<u8>) -> RecordPage
        ensures { result ≡ page.items }
    {
        let writer = WriterBuilder::new().flexible(true).from_writer(page);
        RecordPage {
            writer,
            lost: false,
        }
    }

    /// Lays a record and its line feed behind what stands on the page (RFC 4180, section 2). A field with a comma, a quote
    /// or the end of a line in it gets quotes; a record of one empty field is written as two quotes. The one error is want of
    /// memory, after which nothing stands on the page.
    pub fn lay(&mut self, row: &ByteRecord) -> Result<(), AllocError>
        ensures ok { OnOk result (self.new ≡ self.old ++ record_text (fields_of row.now)) }
        ensures err { OnErr result (self.new ≡ []) }
    {
        if self.lost {
            return Err(AllocError);
        }
        let laid = lay_record(&mut self.writer, row);
        self.lost = laid.is_err();
        laid
    }

    /// What stands on the page.
    pub fn bytes(&self) -> &[u8]
        ensures { result.now ≡ self.now }
    {
        if self.lost {
            return &[];
        }
        self.writer.get_ref()
    }

    /// The page with what stands on it. The one error is want of memory, here or when a record was laid.
    pub fn into_page(self) -> Result<Vec<u8>, AllocError>
        ensures { IfOk result (λ page. page.items ≡ self) }
    {
        if self.lost {
            return Err(AllocError);
        }
        match self.writer.into_inner() {
            Ok(page) => Ok(page),
            Err(_) => Err(AllocError),
        }
    }
}
