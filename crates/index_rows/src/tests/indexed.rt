// What the calls answer on a file with an index: 179 points in a row, under 12 nodes of up to 16 leaves and the root.
use super::*;
use fgb_outside::MemorySource;
use loop_link::connect_loop;
use node_items::NodeItem;
use order_keys::{Bounds, Coord};
use std::alloc::{AllocError, Global};
use std::process::Abort;
use std::test::Fail;
use tool_rows::{CHECK, INDEXED, ZERO, push_points, run_over};

/// The pattern of a whole number.
fn whole(number: u8) -> Result<Coord, Fail> {
    match Coord::of_whole(i64::from(number)) {
        Some(coord) => Ok(coord),
        None => Err(Fail::new("no pattern")),
    }
}

/// The node over the points from `first` to `last` of the row.
fn node(first: u8, last: u8, offset: u64) -> Result<[u8; 40], Fail> {
    let bounds = Bounds {
        min_x: whole(first)?,
        min_y: Coord(ZERO),
        max_x: whole(last)?,
        max_y: Coord(ZERO),
    };
    Ok(NodeItem { bounds, offset }.encode())
}

/// The points (0, 0) to (178, 0) behind their index, which begins at 60. They begin at 7,740.
pub(super) fn row(alloc: Global) -> Result<Vec<u8>, Fail> {
    let mut file = Vec::from_slice(alloc, &INDEXED)?;
    file.extend_from_slice(&node(0, 178, 1)?)?;
    for first in (0..179u8).step_by(16) {
        let last = first.saturating_add(15).min(178);
        file.extend_from_slice(&node(first, last, 13 + u64::from(first))?)?;
    }
    for number in 0..179u8 {
        file.extend_from_slice(&node(number, number, 88 * u64::from(number))?)?;
    }
    for number in 0..179u8 {
        push_points(&mut file, &[(whole(number)?.0, ZERO)])?;
    }
    Ok(file)
}

/// The ranges from a first position to an end that the pairs asked for, if they rise and no position is asked for twice.
pub(super) fn ranges_of(
    alloc: Global,
    asked: &[(u64, u64)],
) -> Result<Option<Vec<(u64, u64)>>, AllocError> {
    let mut ranges = Vec::new(alloc);
    let mut first = 0u64;
    let mut end = 0u64;
    for (at, len) in asked {
        if *at < end {
            return Ok(None);
        }
        if *at > end {
            ranges.push((first, end))?;
            first = *at;
        }
        match at.checked_add(*len) {
            Some(behind) => end = behind,
            None => return Ok(None),
        }
    }
    ranges.push((first, end))?;
    Ok(Some(ranges))
}

/// Runs these words over these bytes, and wants this status and these texts. Gives what was asked for.
pub(super) fn ends<R: Abort + AllocGlobal>(
    rt: &R,
    words: &[&str],
    image: &[u8],
    status: u8,
    lines: &str,
    refusal: &str,
) -> Result<Option<Vec<(u64, u64)>>, Fail> {
    let alloc = rt.alloc();
    let mut file = MemorySource::new(alloc, image, &[])?;
    let ran = run_over(alloc, words, &mut file, &[])?;
    assert_eq!(rt;
        (ran.status, ran.out()?, ran.err()?),
        (status, lines, refusal)
    );
    Ok(ranges_of(alloc, file.asked())?)
}

/// Queries these bytes, and wants these lines, and just these ranges asked for, ascending and each position once.
fn finds<R: Abort + AllocGlobal>(
    rt: &R,
    area: &str,
    image: &[u8],
    lines: &str,
    ranges: &[(u64, u64)],
) -> Result<(), Fail> {
    let asked = ends(rt, &["query", "row.fgb", area], image, 0, lines, "")?;
    assert_eq!(rt; asked.as_deref(), Some(ranges));
    Ok(())
}

/// The lines of the points 30 to 33.
pub(super) const FOUR: &str =
    "30 2640 84 403e000000000000 0000000000000000 403e000000000000 0000000000000000
31 2728 84 403f000000000000 0000000000000000 403f000000000000 0000000000000000
32 2816 84 4040000000000000 0000000000000000 4040000000000000 0000000000000000
33 2904 84 4040800000000000 0000000000000000 4040800000000000 0000000000000000
";

/// The start, the header and the root; the nodes below it; the leaves below the second and the third of these; and the
/// four points.
pub(super) const NEEDED: [(u64, u64); 3] = [(0, 580), (1220, 2500), (10_380, 10_732)];

#[test]
fn a_row_is_queried(rt: HostRuntime) -> Result<(), Fail> {
    let alloc = rt.alloc();
    let file = row(alloc)?;
    finds(&rt, "--box=30,-1,33,1", &file, FOUR, &NEEDED)?;
    // the root alone is wanted, and its box does not meet that of the query
    finds(&rt, "--box=200,200,201,201", &file, "", &[(0, 100)])?;

    let mut source = MemorySource::new(alloc, &file, &[])?;
    let words = ["query", "row.fgb", "--box=-1,-1,200,1"];
    let ran = run_over(alloc, &words, &mut source, &[])?;
    assert_eq!(rt; (ran.status, ran.out()?.lines().count()), (0, 179));
    let asked = ranges_of(alloc, source.asked())?;
    assert_eq!(rt; asked.as_deref(), Some([(0, 23_492)].as_slice()));
    Ok(())
}

#[test]
fn a_served_row_is_queried(rt: HostRuntime) -> Result<(), Fail> {
    let alloc = rt.alloc();
    let file = row(alloc)?;
    assert!(rt; file.len() == 23_492);
    let mut client = connect_loop(alloc, &file, 1)?;
    let words = ["query", "http://127.0.0.1:8080/map.fgb", "--box=30,-1,33,1"];
    let ran = run_over(alloc, &words, &mut client, &[])?;
    assert_eq!(rt; (ran.status, ran.out()?, ran.err()?), (0, FOUR, ""));
    let asked = ranges_of(alloc, client.asked())?;
    assert_eq!(rt; asked.as_deref(), Some(NEEDED.as_slice()));
    Ok(())
}

#[test]
fn a_cut_row_is_queried(rt: HostRuntime) -> Result<(), Fail> {
    let file = row(rt.alloc())?;
    let Some(cut) = file.get(..23_406) else {
        return Err(Fail::new("a short row"));
    };
    finds(&rt, "--box=30,-1,33,1", cut, FOUR, &NEEDED)?;
    let words = ["query", "row.fgb", "--box=178,0,178,0"];
    ends(&rt, &words, cut, 1, "", "refused: LeafPastEnd at 7700\n")?;
    Ok(())
}

#[test]
fn a_row_is_accepted(rt: HostRuntime) -> Result<(), Fail> {
    let file = row(rt.alloc())?;
    assert_eq!(rt; file.len(), 23_492);
    ends(
        &rt,
        &CHECK,
        &file,
        0,
        "accepted 179 features 192 nodes\n",
        "",
    )?;
    Ok(())
}

#[test]
fn a_broken_row_is_refused(rt: HostRuntime) -> Result<(), Fail> {
    let mut file = row(rt.alloc())?;
    let Some(cut) = file.get(..23_406) else {
        return Err(Fail::new("a short row"));
    };
    ends(
        &rt,
        &CHECK,
        cut,
        1,
        "",
        "refused: FeaturePastEnd at 23404\n",
    )?;
    // the max x of the first node below the root, which is 15, is now the next smaller number
    let max_x = 0x402D_FFFF_FFFF_FFFFu64.to_le_bytes();
    assert!(rt; file.len() >= 124);
    file[116..124].copy_from_slice(&max_x);
    ends(&rt, &CHECK, &file, 1, "", "refused: ParentBox at 100\n")?;
    Ok(())
}
