use super::*;
use box_list::{Boxes, read_boxes};
use fgb_outside::{MemorySink, MemorySource};
use std::alloc::{AllocError, Global};
use std::process::Abort;
use std::str;
use std::test::Fail;

/// The start and the header of a file of type Point.
const EMPTY: [u8; 36] = [
    102, 103, 98, 3, 102, 103, 98, 1, 24, 0, 0, 0, 16, 0, 0, 0, 10, 0, 5, 0, 0, 0, 0, 0, 4, 0, 0,
    0, 12, 0, 0, 0, 1, 0, 0, 0,
];

/// A feature with a point, behind its size prefix 84 and up to the point's two patterns.
const FEATURE: [u8; 72] = [
    84, 0, 0, 0, 16, 0, 0, 0, 6, 0, 8, 0, 4, 0, 0, 0, 0, 0, 0, 0, 12, 0, 0, 0, 28, 0, 0, 0, 18, 0,
    9, 0, 0, 0, 4, 0, 0, 0, 0, 0, 0, 0, 0, 0, 8, 0, 0, 0, 0, 0, 0, 0, 24, 0, 0, 0, 12, 0, 0, 0, 1,
    0, 0, 0, 0, 0, 0, 0, 2, 0, 0, 0,
];

/// The same of a point with a time, up to the point's two patterns; and its time behind these.
const TIMED: [u8; 72] = [
    96, 0, 0, 0, 16, 0, 0, 0, 6, 0, 8, 0, 4, 0, 0, 0, 0, 0, 0, 0, 12, 0, 0, 0, 28, 0, 0, 0, 18, 0,
    13, 0, 0, 0, 4, 0, 0, 0, 0, 0, 8, 0, 0, 0, 12, 0, 0, 0, 0, 0, 0, 0, 24, 0, 0, 0, 12, 0, 0, 0,
    28, 0, 0, 0, 1, 0, 0, 0, 2, 0, 0, 0,
];

const TIME: [u8; 12] = [1, 0, 0, 0, 0, 0, 0, 0, 0, 0, 0, 0];

/// The patterns of 1, 2, 5, 10 and 11.
const ONE: u64 = 0x3FF0_0000_0000_0000;

const TWO: u64 = 0x4000_0000_0000_0000;

const FIVE: u64 = 0x4014_0000_0000_0000;

const TEN: u64 = 0x4024_0000_0000_0000;

const ELEVEN: u64 = 0x4026_0000_0000_0000;

/// Three points, of which the first two lie in the boxes of the queries.
const THREE: [(u64, u64); 3] = [(ONE, TWO), (TEN, TEN), (ELEVEN, FIVE)];

const BOX: &str = "0,0,10,10";

const LINES: &str = "0 0 84 3ff0000000000000 4000000000000000 3ff0000000000000 4000000000000000
1 88 84 4024000000000000 4024000000000000 4024000000000000 4024000000000000
";

const WKB: &str = "0101000000000000000000f03f0000000000000040
010100000000000000000024400000000000002440
";

/// The file of type Point with these points.
fn file_of(alloc: Global, points: &[(u64, u64)]) -> Result<Vec<u8>, AllocError> {
    let mut file = Vec::from_slice(alloc, &EMPTY)?;
    for (x, y) in points {
        file.extend_from_slice(&FEATURE)?;
        file.extend_from_slice(&x.to_le_bytes())?;
        file.extend_from_slice(&y.to_le_bytes())?;
    }
    Ok(file)
}

/// The boxes of a word.
fn boxes_of(text: &str) -> Result<Boxes, Fail> {
    match read_boxes(text) {
        Ok(boxes) => Ok(boxes),
        Err(_) => Err(Fail::new("no boxes")),
    }
}

/// What is written of these bytes, under these boxes.
fn written<R: Abort + AllocGlobal>(
    rt: &R,
    image: &[u8],
    boxes: &str,
    output: Output,
) -> Result<MemorySink, Fail> {
    let alloc = rt.alloc();
    let boxes = boxes_of(boxes)?;
    let mut file = MemorySource::new(alloc, image, &[])?;
    let mut out = MemorySink::new(alloc, &[])?;
    let done = write_found(alloc, &boxes, 0, output, &mut file, &mut out);
    assert_eq!(rt; done, Ok(()));
    Ok(out)
}

#[test]
fn lines_are_written(rt: HostRuntime) -> Result<(), Fail> {
    let file = file_of(rt.alloc(), &THREE)?;
    let out = written(&rt, &file, BOX, Output::Lines)?;
    assert_eq!(rt; str::from_utf8(out.bytes())?, LINES);
    Ok(())
}

#[test]
fn a_feature_in_two_boxes_is_written_once(rt: HostRuntime) -> Result<(), Fail> {
    let file = file_of(rt.alloc(), &THREE)?;
    let out = written(&rt, &file, "0,0,1,2+0,0,10,10", Output::Lines)?;
    assert_eq!(rt; str::from_utf8(out.bytes())?, LINES);
    Ok(())
}

#[test]
fn wkb_is_written(rt: HostRuntime) -> Result<(), Fail> {
    let file = file_of(rt.alloc(), &THREE)?;
    let out = written(&rt, &file, BOX, Output::Wkb)?;
    assert_eq!(rt; str::from_utf8(out.bytes())?, WKB);
    Ok(())
}

#[test]
fn a_file_is_written(rt: HostRuntime) -> Result<(), Fail> {
    let file = file_of(rt.alloc(), &THREE)?;
    let out = written(&rt, &file, BOX, Output::Fgb)?;
    let bytes = out.bytes();
    assert_eq!(rt; bytes.len(), 228);
    assert_eq!(rt;
        bytes.get(..12),
        Some([102, 103, 98, 3, 102, 103, 98, 1, 40, 0, 0, 0].as_slice())
    );
    assert_eq!(rt; bytes.get(52..), file.get(36..212));
    Ok(())
}

#[test]
fn a_point_with_a_time_has_no_wkb(rt: HostRuntime) -> Result<(), Fail> {
    let mut file = Vec::from_slice(rt.alloc(), &EMPTY)?;
    file.extend_from_slice(&TIMED)?;
    file.extend_from_slice(&ONE.to_le_bytes())?;
    file.extend_from_slice(&TWO.to_le_bytes())?;
    file.extend_from_slice(&TIME)?;
    let out = written(&rt, &file, BOX, Output::Wkb)?;
    assert_eq!(rt; str::from_utf8(out.bytes())?, "none\n");
    Ok(())
}
