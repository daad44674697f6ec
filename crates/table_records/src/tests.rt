ghost use Rattle.std.specs.Prelude.{◌≡◌, IfOk};
ghost use Rattle.table_records.specs.Tables.{records_in, table_text};

use super::*;
use std::alloc::{AllocError, Global};
use std::test::Fail;

/// Whether the next record has these fields.
fn gives(records: &mut Records<'_>, row: &mut ByteRecord, fields: &[&[u8]]) -> Result<bool, Fail> {
    if !records.next(row)? || row.len() != fields.len() {
        return Ok(false);
    }
    Ok((0..fields.len()).all(|i| row.get(i) == Some(fields[i])))
}

/// Whether a record of these fields is laid as this text.
fn lays(alloc: Global, fields: &[&[u8]], text: &[u8]) -> Result<bool, Fail> {
    let mut page = RecordPage::over(Vec::new(alloc));
    page.lay(&ByteRecord::from_fields(alloc, fields)?)?;
    Ok(page.into_page()?.as_slice() == text)
}

/// The text of the records of a table.
fn written_anew(alloc: Global, table: &[u8]) -> Result<Vec<u8>, AllocError>
    ensures { IfOk result (λ text. text.items ≡ table_text (records_in table.now)) }
{
    let mut records = Records::new(alloc, table);
    let mut row = ByteRecord::new(alloc);
    let mut page = RecordPage::over(Vec::new(alloc));
    while records.next(&mut row)? {
        page.lay(&row)?;
    }
    page.into_page()
}

#[test]
fn records_are_read(rt: HostRuntime) -> Result<(), Fail> {
    let table = b"\xef\xbb\xbfgeometry,\"a,\"\"b\"\r\n\r\n\n1\n\"\"\n\xff,\"\r\n\"";
    let mut records = Records::new(rt.alloc(), table);
    let mut row = ByteRecord::new(rt.alloc());
    assert!(rt; gives(&mut records, &mut row, &[b"geometry", b"a,\"b"])?);
    assert!(rt; gives(&mut records, &mut row, &[b"1"])?);
    assert!(rt; gives(&mut records, &mut row, &[b""])?);
    assert!(rt; gives(&mut records, &mut row, &[b"\xff", b"\r\n"])?);
    assert!(rt; !records.next(&mut row)?);
    assert!(rt; !records.next(&mut row)?);
    Ok(())
}

#[test]
fn records_are_laid(rt: HostRuntime) -> Result<(), Fail> {
    let alloc = rt.alloc();
    assert!(rt; lays(alloc, &[b"a", b"", b"c d"], b"a,,c d\n")?);
    assert!(rt; lays(alloc, &[b"a,b", b"\"", b"\n"], b"\"a,b\",\"\"\"\",\"\n\"\n")?);
    assert!(rt; lays(alloc, &[b""], b"\"\"\n")?);
    Ok(())
}

#[test]
fn a_page_holds_records_of_any_lengths(rt: HostRuntime) -> Result<(), Fail> {
    let mut page = RecordPage::over(vec![in rt.alloc(); b'#', b'\n']?);
    let mut row = ByteRecord::from_fields(rt.alloc(), &[b"x", b"y"])?;
    page.lay(&row)?;
    row.truncate(1);
    page.lay(&row)?;
    assert!(rt; page.bytes() == b"#\nx,y\nx\n".as_slice());
    Ok(())
}

#[test]
fn a_table_is_written_anew(rt: HostRuntime) -> Result<(), Fail> {
    let text = written_anew(rt.alloc(), b"geometry,\"n:Int\"\r\n\r\n,5\r\n")?;
    assert!(rt; text.as_slice() == b"geometry,n:Int\n,5\n".as_slice());
    Ok(())
}

#[test]
fn laws_are_called(rt: HostRuntime) {
    tables_read_back();
    records_are_few();
    assert!(rt; true);
}
