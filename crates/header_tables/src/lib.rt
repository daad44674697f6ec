//! The tables as which a FlatGeobuf header is laid (FlatGeobuf, header.fbs), and that they read back.
//!
//! `header_table` in `specs/Laying.antt` is the tree of tables of a header record, and `IsRecord` in `specs/Records.antt`
//! says which records can be written. [`laid_headers_read_back`] is a law: the buffer that is laid for such a record
//! breaks no rule, and shows just the record. It does nothing when it is called.
#![tactic(auto)]

ghost use Rattle.std.specs.Prelude.{◌≡◌, ◌<◌, ◌^◌, length};
ghost use Rattle.flat_layout.specs.Promises.{IsClean};
ghost use Rattle.fgb_schema.specs.Headers.{Header, header_of};
ghost use Rattle.fgb_schema.specs.Paths.{header_root};
ghost use Rattle.fgb_schema.specs.Weights.{BreaksBuffer};
ghost use Rattle.flat_builder.specs.Laying.{laid};
ghost use Rattle.header_tables.specs.Laying.{header_table};
ghost use Rattle.header_tables.specs.Records.{IsRecord};

use flat_laid::laid_reads_back;

/// A header that is laid breaks no rule, weight included, and shows its record.
pub fn laid_headers_read_back()
    ensures clean { (h : Header) → IsRecord h → length (laid (header_table h)) < 2 ^ 31 → IsClean (BreaksBuffer (laid (header_table h)) header_root) }
    ensures shown { (h : Header) → IsRecord h → length (laid (header_table h)) < 2 ^ 31 → header_of (laid (header_table h)) ≡ h }
{
    laid_reads_back();
}
