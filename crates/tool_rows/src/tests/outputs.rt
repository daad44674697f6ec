// The outputs of a query.
use super::*;
use fgb_outside::MemorySource;
use std::alloc::{AllocError, Global};
use std::test::Fail;

/// The words of a query of the file of the three points with this output.
fn asking<'a>(output: &'a str) -> [&'a str; 4] {
    ["query", "three.fgb", output, "--box=0,0,10,10"]
}

/// The digits of the first two of the three points.
const HEXES: &str = "0101000000000000000000f03f0000000000000040
010100000000000000000024400000000000002440
";

#[test]
fn lines_are_written(rt: HostRuntime) -> Result<(), Fail> {
    let three = file_of(rt.alloc(), &THREE)?;
    answers(&rt, &asking("--out=lines"), &three, BOTH)
}

#[test]
fn digits_are_written(rt: HostRuntime) -> Result<(), Fail> {
    let three = file_of(rt.alloc(), &THREE)?;
    answers(&rt, &asking("--out=wkb"), &three, HEXES)
}

/// The file with one point that has a time.
fn timed_file(alloc: Global) -> Result<Vec<u8>, AllocError> {
    let mut file = file_of(alloc, &[])?;
    file.extend_from_slice(&TIMED)?;
    file.extend_from_slice(&ONE.to_le_bytes())?;
    file.extend_from_slice(&TWO.to_le_bytes())?;
    file.extend_from_slice(&TIME)?;
    Ok(file)
}

#[test]
fn a_time_has_no_digits(rt: HostRuntime) -> Result<(), Fail> {
    let file = timed_file(rt.alloc())?;
    answers(&rt, &asking("--out=wkb"), &file, "none\n")
}

#[test]
fn a_file_is_written(rt: HostRuntime) -> Result<(), Fail> {
    let alloc = rt.alloc();
    let three = file_of(alloc, &THREE)?;
    let mut file = MemorySource::new(alloc, &three, &[])?;
    let ran = run_over(alloc, &asking("--out=fgb"), &mut file, &[])?;
    let bytes = ran.out.bytes();
    assert_eq!(rt; (ran.status, bytes.len(), ran.err()?), (0, 228, ""));
    // the magic ends in 1, the header has 40 bytes, and the two features are unchanged
    let start = [102, 103, 98, 3, 102, 103, 98, 1, 40, 0, 0, 0];
    assert_eq!(rt; bytes.get(..12), Some(start.as_slice()));
    assert_eq!(rt; bytes.get(52..), three.get(36..212));

    let mut again = MemorySource::new(alloc, bytes, &[])?;
    let checked = run_over(alloc, &CHECK, &mut again, &[])?;
    assert_eq!(rt;
        (checked.status, checked.out()?),
        (0, "accepted 2 features 0 nodes\n")
    );
    Ok(())
}
