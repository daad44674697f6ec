// What the making of features answers.
use super::*;
use fgb_outside::MemorySource;
use std::process::Abort;
use std::test::Fail;

/// Makes so many features from this one on, and wants these lines, and that nothing is asked for.
fn makes<R: Abort + AllocGlobal>(rt: &R, options: [&str; 2], lines: &str) -> Result<(), Fail> {
    let alloc = rt.alloc();
    let mut file = MemorySource::new(alloc, &EMPTY, &[])?;
    let words = ["make", options[0], options[1]];
    let ran = run_over(alloc, &words, &mut file, &[])?;
    assert_eq!(rt; (ran.status, ran.err()?), (0, ""));
    assert_eq!(rt; ran.out.bytes(), lines.as_bytes());
    assert!(rt; file.asked().is_empty());
    Ok(())
}

#[test]
fn the_feature_in_the_middle_is_made_and_found(rt: HostRuntime) -> Result<(), Fail> {
    let lines = "0 0 100 0000000000000000 0000000000000000 0000000000000000 0000000000000000
features 1 nodes 2 bytes 288 found 1 asked 288
";
    makes(&rt, ["--count=1", "--start=32670"], lines)
}

#[test]
fn a_feature_elsewhere_is_made_and_not_found(rt: HostRuntime) -> Result<(), Fail> {
    let line = "features 1 nodes 2 bytes 288 found 0 asked 144\n";
    makes(&rt, ["--start=0", "--count=1"], line)
}

#[test]
fn no_feature_is_made(rt: HostRuntime) -> Result<(), Fail> {
    let line = "features 0 nodes 0 bytes 88 found 0 asked 88\n";
    makes(&rt, ["--count=0", "--start=0"], line)
}

#[test]
fn a_making_ends_where_the_sink_fails(rt: HostRuntime) -> Result<(), Fail> {
    let alloc = rt.alloc();
    let mut file = MemorySource::new(alloc, &EMPTY, &[])?;
    let words = ["make", "--count=0", "--start=0"];
    let ran = run_over(alloc, &words, &mut file, &[1])?;
    assert_eq!(rt;
        (ran.status, ran.out()?, ran.err()?),
        (4, "", "sink failed\n")
    );
    assert!(rt; file.asked().is_empty());
    Ok(())
}
