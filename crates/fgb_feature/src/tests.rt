ghost use Rattle.std.specs.Prelude.{◌≤◌, length};

use super::*;
use fgb_header::HeaderView;
use flat_views::{Broken, Rule};
use geometry_view::Kind;
use order_keys::{Bounds, Coord};
use std::test::Fail;

/// A header with the columns `name`, of type String, and `pop`, of type Int.
const HEADER: [u8; 96] = [
    // the root
    24, 0, 0, 0,
    // the vtable of the header: the last of its eight entries is that of the columns
    20, 0, 8, 0, 0, 0, 0, 0, 0, 0, 0, 0, 0, 0, 0, 0, 0, 0, 4, 0,
    // the header
    20, 0, 0, 0, 4, 0, 0, 0,
    // two columns
    2, 0, 0, 0, 16, 0, 0, 0, 24, 0, 0, 0,
    // the vtable of both: a name and a type
    8, 0, 9, 0, 4, 0, 8, 0,
    // the first column, and the second
    8, 0, 0, 0, 20, 0, 0, 0, 11, 0, 0, 0, 20, 0, 0, 0, 20, 0, 0, 0, 5, 0, 0, 0,
    // `name`
    4, 0, 0, 0, 110, 97, 109, 101, 0, 0, 0, 0,
    // `pop`
    3, 0, 0, 0, 112, 111, 112, 0,
];

/// The name Malta, a population of 519, and a key of the third column, which is not there.
const PAIRS: [u8; 19] = [
    0, 0, 5, 0, 0, 0, 77, 97, 108, 116, 97, 1, 0, 7, 2, 0, 0, 2, 0,
];

/// The refusal of the first so many of these bytes, where the first stands at 1000 in the file.
fn refusal(size: usize) -> Result<Option<Broken>, Fail>
    requires { size ≤ 19 }
{
    let columns = HeaderView::read(&HEADER, 12)?.columns();
    Ok(Props::read(&PAIRS[..size], 1000, columns).err())
}

#[test]
fn name_and_number(rt: HostRuntime) -> Result<(), Fail> {
    let columns = HeaderView::read(&HEADER, 12)?.columns();
    let mut props = Props::read(&PAIRS[..17], 1000, columns)?;
    assert_eq!(rt; props.columns().len(), 2);
    assert_eq!(rt; props.next(), Some((0, Value::Str(b"Malta"))));
    assert_eq!(rt; props.next(), Some((1, Value::Int(519))));
    assert_eq!(rt; props.next(), None);
    Ok(())
}

#[test]
fn broken_properties(rt: HostRuntime) -> Result<(), Fail> {
    // how many bytes there are, and the refusal
    let cases = [
        // the bytes end in the key or the value
        (1, 1000, Rule::PropEnd),
        (10, 1000, Rule::PropEnd),
        (16, 1011, Rule::PropEnd),
        (18, 1017, Rule::PropEnd),
        // no column has the number of the third key
        (19, 1017, Rule::PropColumn),
    ];
    for (size, place, rule) in cases {
        assert!(rt; size <= 19);
        assert_eq!(rt; refusal(size)?, Some(Broken { place, rule }));
    }
    assert_eq!(rt; refusal(0)?, None);
    assert_eq!(rt; refusal(11)?, None);
    Ok(())
}

/// A header without columns, whose last byte is the geometry type.
const TYPED: [u8; 21] = [
    16, 0, 0, 0, 10, 0, 5, 0, 0, 0, 0, 0, 4, 0, 0, 0, 12, 0, 0, 0, 1,
];

/// The feature with the point (1, 2).
const POINT: [u8; 84] = [
    16, 0, 0, 0, 6, 0, 8, 0, 4, 0, 0, 0, 0, 0, 0, 0, 12, 0, 0, 0, 28, 0, 0, 0, 18, 0, 9, 0, 0, 0,
    4, 0, 0, 0, 0, 0, 0, 0, 0, 0, 8, 0, 0, 0, 0, 0, 0, 0, 24, 0, 0, 0, 12, 0, 0, 0, 1, 0, 0, 0, 0,
    0, 0, 0, 2, 0, 0, 0, 0, 0, 0, 0, 0, 0, 240, 63, 0, 0, 0, 0, 0, 0, 0, 64,
];

/// A feature without anything.
const BARE: [u8; 12] = [8, 0, 0, 0, 4, 0, 4, 0, 4, 0, 0, 0];

/// A feature with the name Malta and a population of 519.
const MALTA: [u8; 49] = [
    // the root, the vtable, and two bytes between
    16, 0, 0, 0, 8, 0, 8, 0, 0, 0, 4, 0, 0, 0, 0, 0,
    // the feature
    12, 0, 0, 0, 8, 0, 0, 0,
    // four bytes between, and the properties
    0, 0, 0, 0, 17, 0, 0, 0, 0, 0, 5, 0, 0, 0, 77, 97, 108, 116, 97, 1, 0, 7, 2, 0, 0,
];

/// What is read of a feature that stands at 1000 in the file, under a header of a geometry type: its own box.
fn box_under(bytes: &[u8], geometry_type: u8) -> Result<Result<Bounds, Broken>, Fail>
    requires { length bytes.now ≤ 84 }
{
    let mut head = TYPED;
    head[20] = geometry_type;
    let header = HeaderView::read(&head, 12)?;
    match FeatureView::read(bytes, 1000, &header) {
        Ok(feature) => Ok(Ok(feature.bounds())),
        Err(broken) => Ok(Err(broken)),
    }
}

fn broken(place: u64, rule: Rule) -> Result<Bounds, Broken> {
    Err(Broken { place, rule })
}

#[test]
fn boxes(rt: HostRuntime) -> Result<(), Fail> {
    let empty = Bounds::empty();
    let point = Bounds::of_point(Coord(0x3ff0_0000_0000_0000), Coord(0x4000_0000_0000_0000));
    assert_eq!(rt; box_under(&BARE, 1)?, Ok(empty));
    // a byte of the feature and its new value, the type of the header, and the answer
    let rows = [
        (56, 1, 1, Ok(point)),
        (56, 1, 0, Ok(point)),
        (56, 9, 1, Ok(point)),
        (56, 1, 3, Ok(point)),
        (64, 0, 1, Ok(empty)),
        (56, 8, 0, broken(1048, Rule::Kind)),
        (64, 1, 2, broken(1064, Rule::PairCount)),
        (20, 69, 1, broken(1020, Rule::Offset)),
    ];
    for (at, value, geometry_type, want) in rows {
        assert!(rt; at < POINT.len());
        let mut bytes = POINT;
        bytes[at] = value;
        assert_eq!(rt; box_under(&bytes, geometry_type)?, want, "{value} at {at}");
    }
    Ok(())
}

#[test]
fn geometry_alone(rt: HostRuntime) -> Result<(), Fail> {
    let Some(point) = geometry_under(&POINT, 1000, 1)? else {
        return Err(Fail::new("no geometry"));
    };
    assert_eq!(rt; point.kind(), Kind::Point);
    assert_eq!(rt; point.points(), 1);
    let (x, y) = point.xy(0);
    assert_eq!(rt; x, Coord(0x3ff0_0000_0000_0000));
    assert_eq!(rt; y, Coord(0x4000_0000_0000_0000));
    Ok(())
}

#[test]
fn bare(rt: HostRuntime) -> Result<(), Fail> {
    let header = HeaderView::read(&HEADER, 12)?;
    let feature = FeatureView::read(&BARE, 1000, &header)?;
    assert!(rt; feature.geometry().is_none());
    assert_eq!(rt; feature.properties().next(), None);
    assert_eq!(rt; feature.columns().len(), 2);
    assert_eq!(rt; feature.own_columns().len(), 0);
    Ok(())
}

#[test]
fn under_the_columns_of_the_header(rt: HostRuntime) -> Result<(), Fail> {
    let header = HeaderView::read(&HEADER, 12)?;
    let feature = FeatureView::read(&MALTA, 1000, &header)?;
    assert_eq!(rt; feature.columns().len(), 2);
    let mut properties = feature.properties();
    assert_eq!(rt; properties.next(), Some((0, Value::Str(b"Malta"))));
    assert_eq!(rt; properties.next(), Some((1, Value::Int(519))));
    assert_eq!(rt; properties.next(), None);
    Ok(())
}

/// A feature with properties and own columns, up to the list of columns.
const OWN: [u8; 28] = [
    // the root, and the vtable of the feature: no geometry, its properties, its columns
    16, 0, 0, 0, 10, 0, 12, 0, 0, 0, 4, 0, 8, 0, 0, 0,
    // the feature
    12, 0, 0, 0, 12, 1, 0, 0, 4, 0, 0, 0,
];

/// The vtable of the columns: a name and a type.
const COLUMN: [u8; 8] = [8, 0, 9, 0, 4, 0, 8, 0];

/// The properties of that feature: a value of each type in order, and another one of the first column.
const PROPERTIES: [u8; 105] = [
    0, 0, 251, 1, 0, 200, 2, 0, 7, 3, 0, 212, 254, 4, 0, 96, 234, 5, 0, 144, 238, 254, 255, 6, 0,
    0, 40, 107, 238, 7, 0, 254, 255, 255, 255, 255, 255, 255, 255, 8, 0, 255, 255, 255, 255, 255,
    255, 255, 255, 9, 0, 1, 0, 128, 127, 10, 0, 0, 0, 0, 0, 0, 0, 240, 255, 11, 0, 5, 0, 0, 0, 77,
    97, 108, 116, 97, 12, 0, 2, 0, 0, 0, 123, 125, 13, 0, 4, 0, 0, 0, 50, 48, 50, 54, 14, 0, 2, 0,
    0, 0, 255, 0, 0, 0, 7,
];

/// The place in the properties of each key, and of the last byte of its value.
const VALUES: [(u8, u8); 16] = [
    (0, 2),
    (3, 5),
    (6, 8),
    (9, 12),
    (13, 16),
    (17, 22),
    (23, 28),
    (29, 38),
    (39, 48),
    (49, 54),
    (55, 64),
    (65, 75),
    (76, 83),
    (84, 93),
    (94, 101),
    (102, 104),
];

/// The place of the list of properties in the buffer, whose count comes first, and of the first key.
const LIST: usize = 288;

const FIRST: usize = 292;

/// The feature: fifteen columns, one of each type, which share their vtable and their name.
fn feature() -> [u8; 397] {
    let mut bytes = [0; 397];
    bytes[..28].copy_from_slice(&OWN);
    bytes[28] = 15;
    for i in 0..15 {
        // the i-th column stands at 100 + 12 * i, and the name at 280
        bytes[32 + 4 * i] = 68 + 8 * i as u8;
        bytes[100 + 12 * i] = 8 + 12 * i as u8;
        bytes[104 + 12 * i] = 176 - 12 * i as u8;
        bytes[108 + 12 * i] = i as u8;
    }
    bytes[92..100].copy_from_slice(&COLUMN);
    bytes[280] = 1;
    bytes[284] = b'c';
    bytes[LIST] = 105;
    bytes[FIRST..].copy_from_slice(&PROPERTIES);
    bytes
}

#[test]
fn every_type(rt: HostRuntime) -> Result<(), Fail> {
    let header = HeaderView::read(&TYPED, 12)?;
    let bytes = feature();
    let feature = FeatureView::read(&bytes, 40, &header)?;
    assert!(rt; feature.geometry().is_none());
    assert_eq!(rt; feature.bounds(), Bounds::empty());
    assert_eq!(rt; feature.columns().len(), 15);
    assert_eq!(rt; feature.own_columns().len(), 15);
    let want = [
        (0, Value::Byte(-5)),
        (1, Value::UByte(200)),
        (2, Value::Bool(true)),
        (3, Value::Short(-300)),
        (4, Value::UShort(60000)),
        (5, Value::Int(-70000)),
        (6, Value::UInt(4_000_000_000)),
        (7, Value::Long(-2)),
        (8, Value::ULong(18_446_744_073_709_551_615)),
        (9, Value::Float(0x7f80_0001)),
        (10, Value::Double(0xfff0_0000_0000_0000)),
        (11, Value::Str(b"Malta")),
        (12, Value::Json(b"{}")),
        (13, Value::DateTime(b"2026")),
        (14, Value::Binary(&[255, 0])),
        (0, Value::Byte(7)),
    ];
    let mut properties = feature.properties();
    for wanted in want {
        assert_eq!(rt; properties.next(), Some(wanted));
    }
    assert_eq!(rt; properties.next(), None);
    Ok(())
}

/// The refusal of a feature that stands at 40 in a file.
fn refused(bytes: &[u8], header: &HeaderView) -> Option<Broken> {
    if bytes.len() > 1 << 20 {
        return None;
    }
    FeatureView::read(bytes, 40, header).err()
}

#[test]
fn cut_values(rt: HostRuntime) -> Result<(), Fail> {
    let header = HeaderView::read(&TYPED, 12)?;
    for (key, last) in VALUES {
        // the properties end before the last byte of the value
        let mut bytes = feature();
        bytes[LIST] = last;
        let cut = Broken {
            place: 40 + 292 + u64::from(key),
            rule: Rule::PropEnd,
        };
        assert_eq!(rt; refused(&bytes, &header), Some(cut));
    }
    Ok(())
}

#[test]
fn hostile(rt: HostRuntime) -> Result<(), Fail> {
    let header = HeaderView::read(&TYPED, 12)?;
    // a place of the buffer, the byte that is put there, and the refusal
    let cases = [
        // the key of the second property, and the last key, count past the columns
        (FIRST + 3, 15, Rule::PropColumn, 40 + 292 + 3),
        (FIRST + 103, 1, Rule::PropColumn, 40 + 292 + 102),
        // the properties end in the last key, and behind it
        (LIST, 103, Rule::PropEnd, 40 + 292 + 102),
        (LIST, 104, Rule::PropEnd, 40 + 292 + 102),
        // there are more properties than bytes
        (LIST, 106, Rule::Vector, 40 + 288),
        // the text has 2^24 more bytes than there are
        (FIRST + 70, 1, Rule::PropEnd, 40 + 292 + 65),
        // the columns have no name; the third has no known type
        (96, 0, Rule::Required, 40 + 100),
        (108 + 24, 15, Rule::ColumnType, 40 + 124),
        // the vtable of the feature is odd
        (4, 11, Rule::Vtable, 40 + 16),
    ];
    for (at, byte, rule, place) in cases {
        let mut bytes = feature();
        assert!(rt; at < 397);
        bytes[at] = byte;
        assert_eq!(rt; refused(&bytes, &header), Some(Broken { place, rule }));
    }
    let mut bytes = feature();
    assert_eq!(rt; refused(&bytes, &header), None);
    for i in 67..71 {
        bytes[FIRST + i] = 255;
    }
    let long = Broken {
        place: 40 + 292 + 65,
        rule: Rule::PropEnd,
    };
    assert_eq!(rt; refused(&bytes, &header), Some(long));
    Ok(())
}
