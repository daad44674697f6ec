use super::*;
use fgb_outside::{MemorySink, MemorySource};
use fgb_reports::{CapReport, CountReport, Reporter, SizeReport};
use std::str;
use std::test::Fail;

/// The start and the header of a file of type Point.
const EMPTY: [u8; 36] = [
    102, 103, 98, 3, 102, 103, 98, 1, 24, 0, 0, 0, 16, 0, 0, 0, 10, 0, 5, 0, 0, 0, 0, 0, 4, 0, 0,
    0, 12, 0, 0, 0, 1, 0, 0, 0,
];

/// A feature with the point (0, 0), behind its size prefix 84.
const FEATURE: [u8; 88] = [
    84, 0, 0, 0, 16, 0, 0, 0, 6, 0, 8, 0, 4, 0, 0, 0, 0, 0, 0, 0, 12, 0, 0, 0, 28, 0, 0, 0, 18, 0,
    9, 0, 0, 0, 4, 0, 0, 0, 0, 0, 0, 0, 0, 0, 8, 0, 0, 0, 0, 0, 0, 0, 24, 0, 0, 0, 12, 0, 0, 0, 1,
    0, 0, 0, 0, 0, 0, 0, 2, 0, 0, 0, 0, 0, 0, 0, 0, 0, 0, 0, 0, 0, 0, 0, 0, 0, 0, 0,
];

#[test]
fn reports_are_fed_and_their_lines_written(rt: HostRuntime) -> Result<(), Fail> {
    let alloc = rt.alloc();
    let mut image = Vec::from_slice(alloc, &EMPTY)?;
    image.extend_from_slice(&FEATURE)?;
    image.extend_from_slice(&FEATURE)?;
    let mut file = MemorySource::new(alloc, &image, &[])?;
    let mut reports: Vec<Box<dyn Reporter>> = Vec::new(alloc);
    reports.push(Box::new(alloc, CountReport::new())?)?;
    reports.push(Box::new(alloc, CapReport::new(1))?)?;
    reports.push(Box::new(alloc, SizeReport::new())?)?;
    let mut out = MemorySink::new(alloc, &[])?;
    let mut err = MemorySink::new(alloc, &[])?;

    let words = ["report", "two.fgb"];
    let status = report_run(alloc, &words, &mut file, &mut reports, &mut out, &mut err);
    assert_eq!(rt; (status, out.bytes().len(), reports.len()), (2, 0, 3));
    assert_eq!(rt;
        str::from_utf8(err.bytes())?,
        "usage: fgb COMMAND FILE --name=value\n"
    );

    let words = ["report", "two.fgb", "--box=0,0,0,0"];
    let status = report_run(alloc, &words, &mut file, &mut reports, &mut out, &mut err);
    assert_eq!(rt;
        (status, str::from_utf8(out.bytes())?),
        (0, "count 2\nsize 168\n")
    );
    Ok(())
}
