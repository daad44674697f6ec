// What reports on a file with an index say.
use super::indexed::{NEEDED, ranges_of, row};
use fgb_outside::{MemorySink, MemorySource};
use fgb_reports::{CapReport, CountReport, ExtentReport, Reporter, SizeReport};
use report_command::report_run;
use std::process::Abort;
use std::str;
use std::test::Fail;

/// The words of a report on the points 30 to 33.
const WORDS: [&str; 3] = ["report", "row.fgb", "--box=30,-1,33,1"];

/// The lines of a count, an extent and a size of them.
const LINES: &str = "count 4
extent 403e000000000000 0000000000000000 4040800000000000 0000000000000000
size 336
";

/// Reports on the points 30 to 33, and wants these lines, and just the needed ranges asked for.
fn reports_as<R: Abort + AllocGlobal>(
    rt: &R,
    image: &[u8],
    reports: &mut Vec<Box<dyn Reporter>>,
    lines: &str,
) -> Result<(), Fail> {
    let alloc = rt.alloc();
    let mut file = MemorySource::new(alloc, image, &[])?;
    let mut out = MemorySink::new(alloc, &[])?;
    let mut err = MemorySink::new(alloc, &[])?;
    let status = report_run(alloc, &WORDS, &mut file, reports, &mut out, &mut err);
    assert_eq!(rt; (status, str::from_utf8(out.bytes())?), (0, lines));
    assert_eq!(rt; err.bytes().len(), 0);
    let asked = ranges_of(alloc, file.asked())?;
    assert_eq!(rt; asked.as_deref(), Some(NEEDED.as_slice()));
    Ok(())
}

#[test]
fn a_row_is_reported_on(rt: HostRuntime) -> Result<(), Fail> {
    let alloc = rt.alloc();
    let file = row(alloc)?;
    let mut reports: Vec<Box<dyn Reporter>> = Vec::new(alloc);
    reports.push(Box::new(alloc, CountReport::new())?)?;
    reports.push(Box::new(alloc, ExtentReport::new())?)?;
    reports.push(Box::new(alloc, SizeReport::new())?)?;
    reports_as(&rt, &file, &mut reports, LINES)
}

#[test]
fn a_report_that_refuses_is_dropped(rt: HostRuntime) -> Result<(), Fail> {
    let alloc = rt.alloc();
    let file = row(alloc)?;
    let mut reports: Vec<Box<dyn Reporter>> = Vec::new(alloc);
    reports.push(Box::new(alloc, CapReport::new(2))?)?;
    reports.push(Box::new(alloc, CountReport::new())?)?;
    reports.push(Box::new(alloc, ExtentReport::new())?)?;
    reports.push(Box::new(alloc, SizeReport::new())?)?;
    reports_as(&rt, &file, &mut reports, LINES)?;
    assert_eq!(rt; reports.len(), 3);
    Ok(())
}

#[test]
fn nothing_is_said_where_all_refuse(rt: HostRuntime) -> Result<(), Fail> {
    let alloc = rt.alloc();
    let file = row(alloc)?;
    let mut reports: Vec<Box<dyn Reporter>> = Vec::new(alloc);
    for limit in 0..3u64 {
        reports.push(Box::new(alloc, CapReport::new(limit))?)?;
    }
    reports_as(&rt, &file, &mut reports, "")?;
    assert_eq!(rt; reports.len(), 0);
    Ok(())
}
