use super::*;
use flat_views::{Broken, Rule};
use std::test::Fail;

/// The header of a file of type Point without features.
const PLAIN: [u8; 24] = [
    16, 0, 0, 0, 10, 0, 5, 0, 0, 0, 0, 0, 4, 0, 0, 0, 12, 0, 0, 0, 1, 0, 0, 0,
];

/// A header with every field: two columns, of which the second has every field, and a CRS.
const FULL: [u8; 432] = [
    // the root
    36, 0, 0, 0,
    // the vtable of the header: its size, that of the table, and 14 entries
    32, 0, 47, 0, 12, 0, 16, 0, 42, 0, 43, 0, 44, 0, 45, 0, 46, 0, 20, 0, 4, 0, 40, 0, 24, 0, 28,
    0, 32, 0, 36, 0,
    // the header
    32, 0, 0, 0, 3, 0, 0, 0, 0, 0, 0, 0, 36, 0, 0, 0, 44, 0, 0, 0, 76, 0, 0, 0, 244, 0, 0, 0, 76,
    1, 0, 0, 84, 1, 0, 0, 96, 1, 0, 0, 232, 3, 7, 1, 2, 0, 255, 0,
    // `towns`
    5, 0, 0, 0, 116, 111, 119, 110, 115, 0, 0, 0,
    // four numbers: 1, 2, 3, 4
    4, 0, 0, 0, 0, 0, 0, 0, 0, 0, 240, 63, 0, 0, 0, 0, 0, 0, 0, 64, 0, 0, 0, 0, 0, 0, 8, 64, 0, 0,
    0, 0, 0, 0, 16, 64,
    // two columns
    2, 0, 0, 0, 16, 0, 0, 0, 56, 0, 0, 0,
    // the vtable of a column: its name alone
    6, 0, 8, 0, 4, 0, 0, 0,
    // the first column
    8, 0, 0, 0, 4, 0, 0, 0,
    // `id`
    2, 0, 0, 0, 105, 100, 0, 0,
    // the vtable of a column: 11 entries
    26, 0, 36, 0, 4, 0, 32, 0, 8, 0, 12, 0, 16, 0, 20, 0, 24, 0, 33, 0, 34, 0, 35, 0, 28, 0, 0, 0,
    // the second column
    28, 0, 0, 0, 32, 0, 0, 0, 40, 0, 0, 0, 48, 0, 0, 0, 10, 0, 0, 0, 251, 255, 255, 255, 255, 255,
    255, 127, 48, 0, 0, 0, 11, 0, 1, 2,
    // `größe`
    7, 0, 0, 0, 103, 114, 195, 182, 195, 159, 101, 0,
    // `Size`
    4, 0, 0, 0, 83, 105, 122, 101, 0, 0, 0, 0,
    // `in people`
    9, 0, 0, 0, 105, 110, 32, 112, 101, 111, 112, 108, 101, 0, 0, 0,
    // `{"unit":1}`
    10, 0, 0, 0, 123, 34, 117, 110, 105, 116, 34, 58, 49, 125, 0, 0,
    // the vtable of the CRS: 6 entries
    16, 0, 28, 0, 4, 0, 8, 0, 12, 0, 16, 0, 20, 0, 24, 0,
    // the CRS
    16, 0, 0, 0, 24, 0, 0, 0, 26, 239, 255, 255, 28, 0, 0, 0, 36, 0, 0, 0, 44, 0, 0, 0, 56, 0, 0,
    0,
    // `EPSG`
    4, 0, 0, 0, 69, 80, 83, 71, 0, 0, 0, 0,
    // `WGS 84`
    6, 0, 0, 0, 87, 71, 83, 32, 56, 52, 0, 0,
    // `degrees`
    7, 0, 0, 0, 100, 101, 103, 114, 101, 101, 115, 0,
    // `GEOGCS[]`
    8, 0, 0, 0, 71, 69, 79, 71, 67, 83, 91, 93, 0, 0, 0, 0,
    // `4326-a`
    6, 0, 0, 0, 52, 51, 50, 54, 45, 97, 0, 0,
    // `Towns`
    5, 0, 0, 0, 84, 111, 119, 110, 115, 0, 0, 0,
    // `all of them`
    11, 0, 0, 0, 97, 108, 108, 32, 111, 102, 32, 116, 104, 101, 109, 0,
    // an empty text
    0, 0, 0, 0, 0, 0, 0, 0,
];

#[test]
fn defaults(rt: HostRuntime) -> Result<(), Fail> {
    let header = HeaderView::read(&PLAIN, 12)?;
    assert_eq!(rt; header.geometry_type(), 1);
    assert_eq!(rt; header.index_node_size(), 16);
    assert_eq!(rt; header.features_count(), 0);
    assert_eq!(rt; header.name(), None);
    assert!(rt; header.envelope().is_none());
    assert!(rt; !header.has_z());
    assert_eq!(rt; header.columns().len(), 0);
    assert!(rt; header.crs().is_none());
    assert_eq!(rt; header.metadata(), None);
    Ok(())
}

#[test]
fn every_field(rt: HostRuntime) -> Result<(), Fail> {
    let header = HeaderView::read(&FULL, 12)?;
    assert_eq!(rt; header.name(), Some("towns"));
    let Some(envelope) = header.envelope() else {
        panic!(rt; "no envelope");
    };
    assert_eq!(rt; envelope.place(), 12 + 96);
    assert_eq!(rt; envelope.len(), 4);
    assert_eq!(rt; header.geometry_type(), 7);
    assert!(rt; header.has_z());
    assert!(rt; header.has_m());
    assert!(rt; !header.has_t());
    assert!(rt; header.has_tm());
    assert_eq!(rt; header.features_count(), 3);
    assert_eq!(rt; header.index_node_size(), 1000);
    assert_eq!(rt; header.title(), Some("Towns"));
    assert_eq!(rt; header.description(), Some("all of them"));
    assert_eq!(rt; header.metadata(), Some(""));
    Ok(())
}

#[test]
fn every_column_field(rt: HostRuntime) -> Result<(), Fail> {
    let columns = HeaderView::read(&FULL, 12)?.columns();
    assert_eq!(rt; columns.len(), 2);
    assert_eq!(rt; columns.kind(0), 0);
    assert_eq!(rt; columns.kind(1), 11);
    let id = columns.get(0);
    assert_eq!(rt; id.name(), "id");
    assert_eq!(rt; id.kind(), 0);
    assert_eq!(rt; id.title(), None);
    assert_eq!(rt; id.width(), -1);
    assert_eq!(rt; id.precision(), -1);
    assert_eq!(rt; id.scale(), -1);
    assert!(rt; id.nullable());
    assert!(rt; !id.unique());
    assert!(rt; !id.primary_key());
    let size = columns.get(1);
    assert_eq!(rt; size.name(), "gr\u{f6}\u{df}e");
    assert_eq!(rt; size.kind(), 11);
    assert_eq!(rt; size.title(), Some("Size"));
    assert_eq!(rt; size.description(), Some("in people"));
    assert_eq!(rt; size.width(), 10);
    assert_eq!(rt; size.precision(), -5);
    assert_eq!(rt; size.scale(), 2147483647);
    assert!(rt; !size.nullable());
    assert!(rt; size.unique());
    assert!(rt; size.primary_key());
    assert_eq!(rt; size.metadata(), Some("{\"unit\":1}"));
    Ok(())
}

#[test]
fn every_crs_field(rt: HostRuntime) -> Result<(), Fail> {
    let Some(crs) = HeaderView::read(&FULL, 12)?.crs() else {
        panic!(rt; "no crs");
    };
    assert_eq!(rt; crs.org(), Some("EPSG"));
    assert_eq!(rt; crs.code(), -4326);
    assert_eq!(rt; crs.name(), Some("WGS 84"));
    assert_eq!(rt; crs.description(), Some("degrees"));
    assert_eq!(rt; crs.wkt(), Some("GEOGCS[]"));
    assert_eq!(rt; crs.code_string(), Some("4326-a"));
    Ok(())
}

#[test]
fn source(rt: HostRuntime) -> Result<(), Fail> {
    let (bytes, base) = HeaderView::read(&FULL, 12)?.source();
    assert_eq!(rt; bytes, FULL.as_slice());
    assert_eq!(rt; base, 12);
    let again = HeaderView::read(bytes, base)?;
    assert_eq!(rt; again.name(), Some("towns"));
    assert_eq!(rt; again.columns().len(), 2);
    Ok(())
}

/// The refusal of a header that stands behind the start of a file, and has at most 2^20 bytes.
fn refusal(bytes: &[u8]) -> Option<Broken> {
    if bytes.len() > 1 << 20 {
        return None;
    }
    HeaderView::read(bytes, 12).err()
}

#[test]
fn hostile(rt: HostRuntime) {
    // a place of the buffer, the four bytes that are put there, and the refusal
    let cases = [
        // the byte behind the name is not zero
        (92, [115, 1, 0, 0], Rule::Zero, 12 + 84),
        // the name is not UTF-8
        (88, [116, 255, 119, 110], Rule::Utf8, 12 + 84),
        // a text, and the list of columns, count more than there are
        (84, [255, 255, 255, 255], Rule::Vector, 12 + 84),
        (132, [255, 255, 255, 255], Rule::Vector, 12 + 132),
        (96, [255, 255, 255, 255], Rule::Vector, 12 + 96),
        // the geometry type is 8
        (76, [232, 3, 8, 1], Rule::Kind, 12 + 36),
        // the node size is 1
        (76, [1, 0, 7, 1], Rule::NodeSize, 12 + 36),
        // the first column has no name
        (148, [0, 0, 0, 0], Rule::Required, 12 + 152),
        // the second column has the type 15, and a name that is not UTF-8
        (228, [15, 0, 1, 2], Rule::ColumnType, 12 + 196),
        (236, [255, 114, 195, 182], Rule::Utf8, 12 + 232),
        // the offset of the second column leads past the buffer
        (140, [255, 255, 255, 0], Rule::Offset, 12 + 140),
        // the CRS's table is larger than the buffer, and its name is not ended
        (290, [255, 255, 4, 0], Rule::Vtable, 12 + 304),
        (344, [200, 0, 0, 0], Rule::Vector, 12 + 344),
    ];
    for (at, four, rule, place) in cases {
        let mut bytes = FULL;
        assert!(rt; at <= 428);
        bytes[at..at + 4].copy_from_slice(&four);
        assert_eq!(rt; refusal(&bytes), Some(Broken { place, rule }));
    }
    assert_eq!(rt; refusal(&FULL), None);
}

/// A header with a list of columns at its end, whose count and entries follow.
const LISTED: [u8; 32] = [
    24, 0, 0, 0, 20, 0, 8, 0, 0, 0, 0, 0, 0, 0, 0, 0, 0, 0, 0, 0, 0, 0, 4, 0, 20, 0, 0, 0, 4, 0, 0,
    0,
];

#[test]
fn many_columns(rt: HostRuntime) {
    let mut bytes = [0; 262184];
    bytes[..32].copy_from_slice(&LISTED);
    // 65,537 columns, and 65,536, of which the first offset is 0
    let cases = [
        ([1, 0, 1, 0], Rule::ColumnCount, 12 + 32),
        ([0, 0, 1, 0], Rule::Offset, 12 + 36),
    ];
    for (count, rule, place) in cases {
        bytes[32..36].copy_from_slice(&count);
        assert_eq!(rt; refusal(&bytes), Some(Broken { place, rule }));
    }
}

#[test]
fn shared_text(rt: HostRuntime) {
    // twenty entries lead to one column, whose name has 100 bytes: 4 + 20 * (4 + 4 + 100) = 4 * 541
    let mut bytes = [0; 541];
    bytes[..32].copy_from_slice(&LISTED);
    bytes[32] = 20;
    for i in 0..20 {
        bytes[36 + 4 * i] = 88 - 4 * i as u8;
    }
    let column = [6, 0, 8, 0, 4, 0, 0, 0, 8, 0, 0, 0, 4, 0, 0, 0, 100, 0, 0, 0];
    bytes[116..136].copy_from_slice(&column);
    bytes[136..236].fill(110);
    assert_eq!(rt; refusal(&bytes), None);
    let heavy = Broken {
        place: 12,
        rule: Rule::Weight,
    };
    assert_eq!(rt; bytes.get(..540).and_then(refusal), Some(heavy));
}
