// One record, laid.
ghost use Rattle.std.specs.Prelude.{◌≡◌, ◌++◌, OnOk};
ghost use Rattle.table_records.specs.Tables.{record_text};
ghost use Rattle.table_records.specs.Laying.{bytes_laid, LaysTable};
ghost use Rattle.csv.specs.Records.{fields_of};

use csv::{ByteRecord, Writer};
use std::alloc::AllocError;

/// Writes a record, and empties the buffer of `csv` into the page, where a write fails for memory alone.
pub(crate) fn lay_record(writer: &mut Writer<Vec<u8>>, row: &ByteRecord) -> Result<(), AllocError>
    requires { LaysTable writer.old }
    ensures lays { OnOk result (LaysTable writer.new) }
    ensures text { OnOk result (bytes_laid writer.new ≡ bytes_laid writer.old ++ record_text (fields_of row.now)) }
{
    let Ok(()) = writer.write_byte_record(row) else {
        return Err(AllocError);
    };
    let Ok(()) = writer.flush() else {
        return Err(AllocError);
    };
    Ok(())
}
