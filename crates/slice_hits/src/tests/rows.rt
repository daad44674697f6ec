// Hits beside a query of the same bytes.
use super::*;
use box_list::read_boxes;
use box_query::{Collect, QueryDone, query};
use fgb_outside::MemorySource;
use node_items::NodeItem;
use std::process::Abort;

/// The start and the header of a file of 179 Points, which has an index.
const MANY: [u8; 60] = [
    102, 103, 98, 3, 102, 103, 98, 1, 48, 0, 0, 0, 32, 0, 0, 0, 22, 0, 13, 0, 0, 0, 0, 0, 12, 0, 0,
    0, 0, 0, 0, 0, 0, 0, 0, 0, 4, 0, 0, 0, 0, 0, 0, 0, 28, 0, 0, 0, 179, 0, 0, 0, 0, 0, 0, 0, 1, 0,
    0, 0,
];

/// The pattern of a whole number.
fn whole(number: i64) -> Result<Coord, Fail> {
    match Coord::of_whole(number) {
        Some(coord) => Ok(coord),
        None => Err(Fail::new("no pattern")),
    }
}

/// The box between these whole numbers.
fn box_of(min_x: i64, min_y: i64, max_x: i64, max_y: i64) -> Result<Bounds, Fail> {
    Ok(Bounds {
        min_x: whole(min_x)?,
        min_y: whole(min_y)?,
        max_x: whole(max_x)?,
        max_y: whole(max_y)?,
    })
}

/// Appends the feature of a point.
fn push_point(file: &mut Vec<u8>, x: i64, y: i64) -> Result<(), Fail> {
    file.extend_from_slice(&FEATURE[..72])?;
    file.extend_from_slice(&whole(x)?.0.to_le_bytes())?;
    file.extend_from_slice(&whole(y)?.0.to_le_bytes())?;
    Ok(())
}

/// Appends the node over the points from `first` to `last` of the row.
fn push_node(file: &mut Vec<u8>, first: u8, last: u8, offset: u64) -> Result<(), Fail> {
    let bounds = box_of(i64::from(first), 0, i64::from(last), 0)?;
    file.extend_from_slice(&NodeItem { bounds, offset }.encode())?;
    Ok(())
}

/// The points (0, 0) to (178, 0) behind their index: the root, 12 nodes of up to 16 leaves, and the leaves.
fn row(alloc: Global) -> Result<Vec<u8>, Fail> {
    let mut file = Vec::from_slice(alloc, &MANY)?;
    push_node(&mut file, 0, 178, 1)?;
    for first in (0..179u8).step_by(16) {
        let last = first.saturating_add(15).min(178);
        push_node(&mut file, first, last, 13 + u64::from(first))?;
    }
    for number in 0..179u8 {
        push_node(&mut file, number, number, 88 * u64::from(number))?;
    }
    for number in 0..179u8 {
        push_point(&mut file, i64::from(number), 0)?;
    }
    Ok(file)
}

/// The boxes that a text spells.
fn boxes_of(text: &str) -> Result<Boxes, Fail> {
    match read_boxes(text) {
        Ok(boxes) => Ok(boxes),
        Err(_) => Err(Fail::new("no boxes")),
    }
}

/// Wants the hits in these bytes to be what a query of them finds, and gives how many there are.
fn agree<R: Abort + AllocGlobal>(rt: &R, file: &[u8], text: &str) -> Result<usize, Fail> {
    let alloc = rt.alloc();
    let boxes = boxes_of(text)?;
    let mut source = MemorySource::new(alloc, file, &[])?;
    let mut all = Collect::new(alloc);
    assert!(rt; query(alloc, &mut source, &boxes, 0, &mut all).is_ok());
    let mut hits = Hits::new(file, boxes)?;
    for i in 0..all.len() {
        let Some(found) = hits.next() else {
            return Err(Fail::new("too few hits"));
        };
        let found = found?;
        assert_eq!(rt;
            (found.number, found.offset, found.bytes, found.bounds),
            all.item(i)
        );
    }
    assert!(rt; hits.next().is_none());
    Ok(all.len())
}

#[test]
fn three_points_are_found_alike(rt: HostRuntime) -> Result<(), Fail> {
    let mut file = Vec::from_slice(rt.alloc(), &EMPTY)?;
    push_point(&mut file, 1, 2)?;
    push_point(&mut file, 10, 10)?;
    push_point(&mut file, 11, 5)?;
    assert_eq!(rt; agree(&rt, &file, "0,0,10,10")?, 2);
    Ok(())
}

#[test]
fn a_row_is_found_alike(rt: HostRuntime) -> Result<(), Fail> {
    let file = row(rt.alloc())?;
    assert_eq!(rt; agree(&rt, &file, "30,-1,33,1")?, 4);
    assert_eq!(rt; agree(&rt, &file, "30,-1,33,1+170,-1,178,1")?, 13);
    assert_eq!(rt; agree(&rt, &file, "30,-1,33,1+31,-1,32,1")?, 4);
    assert_eq!(rt; agree(&rt, &file, "200,200,201,201")?, 0);
    assert_eq!(rt; agree(&rt, &file, "-1,-1,200,1")?, 179);
    Ok(())
}

#[test]
fn nothing_is_found_alike(rt: HostRuntime) -> Result<(), Fail> {
    assert_eq!(rt; agree(&rt, &EMPTY, "0,0,10,10")?, 0);
    Ok(())
}

#[test]
fn a_node_that_misses_hides_its_leaves(rt: HostRuntime) -> Result<(), Fail> {
    let mut file = row(rt.alloc())?;
    // the max x of the first node below the root, which is 15, is now the next smaller number
    let max_x = 0x402D_FFFF_FFFF_FFFFu64.to_le_bytes();
    assert!(rt; file.len() >= 124);
    file[116..124].copy_from_slice(&max_x);
    assert!(rt; Hits::new(&file, boxes_of("15,-1,15,1")?)?.next().is_none());
    let boxes = boxes_of("15,-1,15,1")?;
    let mut source = MemorySource::new(rt.alloc(), &file, &[])?;
    let mut none = Collect::new(rt.alloc());
    let done = query(rt.alloc(), &mut source, &boxes, 0, &mut none);
    assert_eq!(rt; done, Ok(QueryDone { found: 0 }));
    // the start, the header, the root, and the nodes below it
    let reads = [(0, 12), (12, 48), (60, 40), (100, 480)];
    assert_eq!(rt; source.asked(), reads.as_slice());
    Ok(())
}
