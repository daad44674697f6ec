// What a query of several boxes, and one with a gap, asks for and finds in the row of points.
use super::indexed::{FOUR, NEEDED, ends, ranges_of, row};
use fgb_outside::MemorySource;
use std::test::Fail;
use tool_rows::run_over;

/// The lines of the points 30 and 32.
const TWO: &str = "30 2640 84 403e000000000000 0000000000000000 403e000000000000 0000000000000000
32 2816 84 4040000000000000 0000000000000000 4040000000000000 0000000000000000
";

#[test]
fn two_boxes_apart_are_sought(rt: HostRuntime) -> Result<(), Fail> {
    let alloc = rt.alloc();
    let file = row(alloc)?;
    let mut source = MemorySource::new(alloc, &file, &[])?;
    let words = ["query", "row.fgb", "--box=30,-1,33,1+170,-1,178,1"];
    let ran = run_over(alloc, &words, &mut source, &[])?;
    assert_eq!(rt; (ran.status, ran.out()?.lines().count()), (0, 13));
    assert!(rt; ran.out()?.starts_with(FOUR));
    let asked = ranges_of(alloc, source.asked())?;
    let ranges = [
        (0, 580),
        (1220, 2500),
        (6980, 7740),
        (10_380, 10_732),
        (22_700, 23_492),
    ];
    assert_eq!(rt; asked.as_deref(), Some(ranges.as_slice()));
    Ok(())
}

#[test]
fn a_feature_in_two_boxes_is_found_once(rt: HostRuntime) -> Result<(), Fail> {
    let file = row(rt.alloc())?;
    let words = ["query", "row.fgb", "--box=30,-1,33,1+31,-1,32,1"];
    let asked = ends(&rt, &words, &file, 0, FOUR, "")?;
    assert_eq!(rt; asked.as_deref(), Some(NEEDED.as_slice()));
    Ok(())
}

#[test]
fn short_holes_are_asked_for(rt: HostRuntime) -> Result<(), Fail> {
    let file = row(rt.alloc())?;
    // the hole between the nodes below the root and the leaves has 640 bytes
    let words = ["query", "row.fgb", "--box=30,-1,33,1", "--gap=641"];
    let asked = ends(&rt, &words, &file, 0, FOUR, "")?;
    let ranges = [(0, 2500), (10_380, 10_732)];
    assert_eq!(rt; asked.as_deref(), Some(ranges.as_slice()));

    let words = ["query", "row.fgb", "--box=30,-1,33,1", "--gap=640"];
    let asked = ends(&rt, &words, &file, 0, FOUR, "")?;
    assert_eq!(rt; asked.as_deref(), Some(NEEDED.as_slice()));

    // and that between two points 88
    let both = "--box=30,-1,30,1+32,-1,32,1";
    let words = ["query", "row.fgb", both, "--gap=89"];
    let asked = ends(&rt, &words, &file, 0, TWO, "")?;
    let ranges = [(0, 580), (1220, 2500), (10_380, 10_644)];
    assert_eq!(rt; asked.as_deref(), Some(ranges.as_slice()));
    Ok(())
}
