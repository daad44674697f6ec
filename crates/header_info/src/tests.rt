ghost use Rattle.std.specs.Prelude.{◌≤◌, length};

use super::*;
use fgb_header::HeaderView;
use flat_builder::BuildError;
use std::test::Fail;

/// A header of type Point without features.
const PLAIN: [u8; 24] = [
    16, 0, 0, 0, 10, 0, 5, 0, 0, 0, 0, 0, 4, 0, 0, 0, 12, 0, 0, 0, 1, 0, 0, 0,
];

/// The same of 179 features.
const COUNTED: [u8; 48] = [
    32, 0, 0, 0, 22, 0, 13, 0, 0, 0, 0, 0, 12, 0, 0, 0, 0, 0, 0, 0, 0, 0, 0, 0, 4, 0, 0, 0, 0, 0,
    0, 0, 28, 0, 0, 0, 179, 0, 0, 0, 0, 0, 0, 0, 1, 0, 0, 0,
];

/// A header of type Point with one column.
const ONE_COLUMN: [u8; 76] = [
    // the root, the vtable of the header and the header
    24, 0, 0, 0, 20, 0, 9, 0, 0, 0, 0, 0, 8, 0, 0, 0, 0, 0, 0, 0, 0, 0, 4, 0, 20, 0, 0, 0, 8, 0, 0,
    0, 1, 0, 0, 0,
    // one column: its vtable, its table and `id`
    1, 0, 0, 0, 16, 0, 0, 0, 8, 0, 9, 0, 4, 0, 8, 0, 0, 0, 0, 0, 12, 0, 0, 0, 8, 0, 0, 0, 8, 0, 0,
    0, 2, 0, 0, 0, 105, 100, 0, 0,
];

/// The same of 3 features.
const COUNTED_COLUMN: [u8; 92] = [
    // the root, the vtable of the header and the header
    32, 0, 0, 0, 22, 0, 17, 0, 0, 0, 0, 0, 16, 0, 0, 0, 0, 0, 0, 0, 0, 0, 12, 0, 4, 0, 0, 0, 0, 0,
    0, 0, 28, 0, 0, 0, 3, 0, 0, 0, 0, 0, 0, 0, 8, 0, 0, 0, 1, 0, 0, 0,
    // one column: its vtable, its table and `id`
    1, 0, 0, 0, 16, 0, 0, 0, 8, 0, 9, 0, 4, 0, 8, 0, 0, 0, 0, 0, 12, 0, 0, 0, 8, 0, 0, 0, 8, 0, 0,
    0, 2, 0, 0, 0, 105, 100, 0, 0,
];

/// A header with every field: two columns, of which the second has every field, and a CRS.
const FULL: [u8; 448] = [
    // the root
    40, 0, 0, 0,
    // the vtable of the header: its size, that of the table, and 14 entries
    32, 0, 47, 0, 12, 0, 16, 0, 42, 0, 43, 0, 44, 0, 45, 0, 46, 0, 20, 0, 4, 0, 40, 0, 24, 0, 28,
    0, 32, 0, 36, 0, 0, 0, 0, 0,
    // the header
    36, 0, 0, 0, 3, 0, 0, 0, 0, 0, 0, 0, 36, 0, 0, 0, 48, 0, 0, 0, 80, 0, 0, 0, 0, 1, 0, 0, 88, 1,
    0, 0, 96, 1, 0, 0, 108, 1, 0, 0, 232, 3, 6, 1, 1, 1, 1, 0,
    // `towns`
    5, 0, 0, 0, 116, 111, 119, 110, 115, 0, 0, 0, 0, 0, 0, 0,
    // four numbers: 1, 2, 3, 4
    4, 0, 0, 0, 0, 0, 0, 0, 0, 0, 240, 63, 0, 0, 0, 0, 0, 0, 0, 64, 0, 0, 0, 0, 0, 0, 8, 64, 0, 0,
    0, 0, 0, 0, 16, 64,
    // two columns
    2, 0, 0, 0, 16, 0, 0, 0, 60, 0, 0, 0,
    // the first column: its vtable, its table and `id`
    8, 0, 9, 0, 4, 0, 8, 0, 8, 0, 0, 0, 8, 0, 0, 0, 8, 0, 0, 0, 2, 0, 0, 0, 105, 100, 0, 0,
    // the vtable of the second column: 11 entries
    26, 0, 36, 0, 4, 0, 32, 0, 8, 0, 12, 0, 16, 0, 20, 0, 24, 0, 33, 0, 34, 0, 35, 0, 28, 0, 0, 0,
    // the second column
    28, 0, 0, 0, 32, 0, 0, 0, 40, 0, 0, 0, 48, 0, 0, 0, 10, 0, 0, 0, 251, 255, 255, 255, 255, 255,
    255, 127, 48, 0, 0, 0, 11, 0, 1, 1,
    // `größe`
    7, 0, 0, 0, 103, 114, 195, 182, 195, 159, 101, 0,
    // `Size`
    4, 0, 0, 0, 83, 105, 122, 101, 0, 0, 0, 0,
    // `in people`
    9, 0, 0, 0, 105, 110, 32, 112, 101, 111, 112, 108, 101, 0, 0, 0,
    // `{"unit":1}`
    10, 0, 0, 0, 123, 34, 117, 110, 105, 116, 34, 58, 49, 125, 0, 0,
    // the vtable of the CRS: 6 entries
    16, 0, 28, 0, 4, 0, 8, 0, 12, 0, 16, 0, 20, 0, 24, 0, 0, 0, 0, 0,
    // the CRS
    20, 0, 0, 0, 24, 0, 0, 0, 26, 239, 255, 255, 28, 0, 0, 0, 36, 0, 0, 0, 44, 0, 0, 0, 56, 0, 0,
    0,
    // `EPSG`
    4, 0, 0, 0, 69, 80, 83, 71, 0, 0, 0, 0,
    // `WGS 84`
    6, 0, 0, 0, 87, 71, 83, 32, 56, 52, 0, 0,
    // `degrees`
    7, 0, 0, 0, 100, 101, 103, 114, 101, 101, 115, 0,
    // `GEOGCS[]`
    8, 0, 0, 0, 71, 69, 79, 71, 67, 83, 91, 93, 0, 0, 0, 0,
    // `4326-a`
    6, 0, 0, 0, 52, 51, 50, 54, 45, 97, 0, 0,
    // `Towns`
    5, 0, 0, 0, 84, 111, 119, 110, 115, 0, 0, 0,
    // `all of them`
    11, 0, 0, 0, 97, 108, 108, 32, 111, 102, 32, 116, 104, 101, 109, 0,
    // an empty text
    0, 0, 0, 0, 0, 0, 0, 0,
];

#[test]
fn a_plain_header_is_laid(rt: HostRuntime) -> Result<(), Fail> {
    let mut info = HeaderInfo::plain(rt.alloc(), 1);
    assert_eq!(rt; info.geometry_type(), 1);
    assert_eq!(rt; info.columns(), 0);
    let buffer = info.to_bytes(rt.alloc())?;
    assert_eq!(rt; buffer.as_slice(), PLAIN.as_slice());
    info.set_count(179);
    let counted = info.to_bytes(rt.alloc())?;
    assert_eq!(rt; counted.as_slice(), COUNTED.as_slice());
    Ok(())
}

#[test]
fn a_column_is_laid(rt: HostRuntime) -> Result<(), Fail> {
    let mut info = HeaderInfo::plain(rt.alloc(), 1);
    info.push_column("id", 8)?;
    assert_eq!(rt; info.columns(), 1);
    assert_eq!(rt; info.column_kind(0), 8);
    let buffer = info.to_bytes(rt.alloc())?;
    assert_eq!(rt; buffer.as_slice(), ONE_COLUMN.as_slice());
    info.set_count(3);
    let counted = info.to_bytes(rt.alloc())?;
    assert_eq!(rt; counted.as_slice(), COUNTED_COLUMN.as_slice());
    Ok(())
}

#[test]
fn what_is_set_is_read(rt: HostRuntime) -> Result<(), Fail> {
    let mut info = HeaderInfo::plain(rt.alloc(), 3);
    info.set_node_size(0);
    info.set_dimensions(true, false);
    let buffer = info.to_bytes(rt.alloc())?;
    let view = HeaderView::read(buffer.as_slice(), 12)?;
    assert_eq!(rt; view.geometry_type(), 3);
    assert_eq!(rt; view.index_node_size(), 0);
    assert!(rt; view.has_z());
    assert!(rt; !view.has_m());
    Ok(())
}

// A header that is read and laid again gives the same bytes, and so does its copy.
fn comes_back(rt: &HostRuntime, bytes: &[u8]) -> Result<bool, Fail>
    requires { length bytes.now ≤ 10485760 }
{
    let view = HeaderView::read(bytes, 12)?;
    let info = HeaderInfo::of(rt.alloc(), &view)?;
    let buffer = info.to_bytes(rt.alloc())?;
    let copy = info.again(rt.alloc())?.to_bytes(rt.alloc())?;
    Ok(buffer.as_slice() == bytes && copy.as_slice() == bytes)
}

#[test]
fn headers_come_back(rt: HostRuntime) -> Result<(), Fail> {
    assert!(rt; comes_back(&rt, &PLAIN)?);
    assert!(rt; comes_back(&rt, &ONE_COLUMN)?);
    assert!(rt; comes_back(&rt, &COUNTED_COLUMN)?);
    assert!(rt; comes_back(&rt, &FULL)?);
    Ok(())
}

#[test]
fn a_long_header_is_refused(rt: HostRuntime) -> Result<(), Fail> {
    let name = vec![in rt.alloc(); b'x'; 10_485_760]?;
    let mut info = HeaderInfo::plain(rt.alloc(), 1);
    info.push_column(std::str::from_utf8(name.as_slice())?, 11)?;
    assert_eq!(rt; info.to_bytes(rt.alloc()).err(), Some(BuildError::TooLarge));
    Ok(())
}
