use super::*;
use fgb_outside::{MemorySink, MemorySource};
use flat_views::{Broken, Rule};
use std::alloc::{AllocError, Global};
use std::test::Fail;

/// The Point (1, 2) as WKB.
const VALUE: [u8; 21] = [
    1, 1, 0, 0, 0, 0, 0, 0, 0, 0, 0, 0xf0, 0x3f, 0, 0, 0, 0, 0, 0, 0, 0x40,
];

/// The start and the header of a file of one Point, of which no type is known.
const HEAD: [u8; 60] = [
    // the start: the magic bytes, and the size of the header
    102, 103, 98, 3, 102, 103, 98, 1, 48, 0, 0, 0,
    // the root, the vtable, and four bytes between
    32, 0, 0, 0, 24, 0, 14, 0, 0, 0, 0, 0, 0, 0, 0, 0, 0, 0, 0, 0, 0, 0, 0, 0, 4, 0, 12, 0, 0, 0,
    0, 0,
    // the header: its vtable, the number of features, and no index
    28, 0, 0, 0, 1, 0, 0, 0, 0, 0, 0, 0, 0, 0, 0, 0,
];

/// The start and the header of a file of Points.
const POINTS: [u8; 36] = [
    102, 103, 98, 3, 102, 103, 98, 1, 24, 0, 0, 0, 16, 0, 0, 0, 10, 0, 5, 0, 0, 0, 0, 0, 4, 0, 0,
    0, 12, 0, 0, 0, 1, 0, 0, 0,
];

/// The feature with the Point (1, 2), and its size prefix.
const POINT: [u8; 88] = [
    84, 0, 0, 0, 16, 0, 0, 0, 6, 0, 8, 0, 4, 0, 0, 0, 0, 0, 0, 0, 12, 0, 0, 0, 28, 0, 0, 0, 18, 0,
    9, 0, 0, 0, 4, 0, 0, 0, 0, 0, 0, 0, 0, 0, 8, 0, 0, 0, 0, 0, 0, 0, 24, 0, 0, 0, 12, 0, 0, 0, 1,
    0, 0, 0, 0, 0, 0, 0, 2, 0, 0, 0, 0, 0, 0, 0, 0, 0, 240, 63, 0, 0, 0, 0, 0, 0, 0, 64,
];

/// A feature without geometry, and its size prefix.
const NOWHERE: [u8; 16] = [12, 0, 0, 0, 8, 0, 0, 0, 4, 0, 4, 0, 4, 0, 0, 0];

/// The FlatGeobuf file over the value.
fn file(alloc: Global) -> Result<Vec<u8>, AllocError> {
    let mut file = Vec::from_slice(alloc, &HEAD)?;
    file.extend_from_slice(&POINT)?;
    Ok(file)
}

#[test]
fn a_value_as_a_file(rt: HostRuntime) -> Result<(), Fail> {
    let mut source = MemorySource::new(rt.alloc(), &VALUE, &[])?;
    let mut out = MemorySink::new(rt.alloc(), &[])?;
    let done = convert_file(rt.alloc(), Format::Wkb, Format::Fgb, &mut source, &mut out);
    assert_eq!(rt; done, Ok(()));
    assert_eq!(rt; out.bytes(), file(rt.alloc())?.as_slice());
    Ok(())
}

#[test]
fn a_file_as_a_value(rt: HostRuntime) -> Result<(), Fail> {
    let bytes = file(rt.alloc())?;
    let mut source = MemorySource::new(rt.alloc(), &bytes, &[])?;
    let mut out = MemorySink::new(rt.alloc(), &[])?;
    let done = convert_file(rt.alloc(), Format::Fgb, Format::Wkb, &mut source, &mut out);
    assert_eq!(rt; done, Ok(()));
    assert_eq!(rt; out.bytes(), VALUE.as_slice());
    Ok(())
}

#[test]
fn a_file_anew(rt: HostRuntime) -> Result<(), Fail> {
    let bytes = file(rt.alloc())?;
    let mut source = MemorySource::new(rt.alloc(), &bytes, &[])?;
    let mut out = MemorySink::new(rt.alloc(), &[])?;
    let done = convert_file(rt.alloc(), Format::Fgb, Format::Fgb, &mut source, &mut out);
    assert_eq!(rt; done, Ok(()));
    assert_eq!(rt; out.bytes(), bytes.as_slice());
    Ok(())
}

#[test]
fn a_value_anew(rt: HostRuntime) -> Result<(), Fail> {
    // the same value, the highest byte first
    let big = [
        0, 0, 0, 0, 1, 0x3f, 0xf0, 0, 0, 0, 0, 0, 0, 0x40, 0, 0, 0, 0, 0, 0, 0,
    ];
    let mut source = MemorySource::new(rt.alloc(), &big, &[])?;
    let mut out = MemorySink::new(rt.alloc(), &[])?;
    let done = convert_file(rt.alloc(), Format::Wkb, Format::Wkb, &mut source, &mut out);
    assert_eq!(rt; done, Ok(()));
    assert_eq!(rt; out.bytes(), VALUE.as_slice());
    Ok(())
}

#[test]
fn a_feature_without_geometry_is_no_value(rt: HostRuntime) -> Result<(), Fail> {
    let mut bytes = Vec::from_slice(rt.alloc(), &POINTS)?;
    bytes.extend_from_slice(&POINT)?;
    bytes.extend_from_slice(&NOWHERE)?;
    bytes.extend_from_slice(&POINT)?;
    let mut source = MemorySource::new(rt.alloc(), &bytes, &[])?;
    let mut out = MemorySink::new(rt.alloc(), &[])?;
    let stop = convert_file(rt.alloc(), Format::Fgb, Format::Wkb, &mut source, &mut out);
    let refusal = Broken {
        place: 124,
        rule: Rule::NoWkb,
    };
    assert_eq!(rt; stop, Err(Stop::Refused(refusal)));
    assert!(rt; out.bytes().is_empty());
    Ok(())
}
