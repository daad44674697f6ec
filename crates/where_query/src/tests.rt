use super::*;
use box_list::{Boxes, read_boxes};
use fgb_outside::{MemorySink, MemorySource};
use fgb_where::{Condition, read_condition};
use flat_views::{Broken, Rule};
use grid_features::{grid_features, grid_header};
use std::alloc::Global;
use std::process::Abort;
use std::str;
use std::test::Fail;
use text_query::{Output, TextError};

/// What stands in front of a header's size.
const MAGIC: [u8; 8] = [102, 103, 98, 3, 102, 103, 98, 1];

/// The lines of the features whose numbers are at least 3.
const LAST: &str = "3 312 100 c051400000000000 4051400000000000 c051400000000000 4051400000000000
4 416 100 c040000000000000 c04d800000000000 c040000000000000 c04d800000000000
";

/// A file without an index, of the first five features of a grid, with their numbers.
fn grid_file(alloc: Global) -> Result<Vec<u8>, Fail> {
    let mut header = grid_header(alloc)?;
    header.set_node_size(0);
    let header = header.to_bytes(alloc)?;
    let mut file = Vec::from_slice(alloc, &MAGIC)?;
    file.extend_from_slice(&(header.len() as u32).to_le_bytes())?;
    file.extend_from_slice(&header)?;
    let features = grid_features(alloc, 5, 0)?;
    for feature in &features {
        let buffer = feature.to_bytes(alloc)?;
        file.extend_from_slice(&(buffer.len() as u32).to_le_bytes())?;
        file.extend_from_slice(&buffer)?;
    }
    Ok(file)
}

/// A box around the whole grid.
fn around() -> Result<Boxes, Fail> {
    match read_boxes("-180,-90,180,90") {
        Ok(boxes) => Ok(boxes),
        Err(_) => Err(Fail::new("no boxes")),
    }
}

/// The condition of a text.
fn condition_of(text: &str) -> Result<Condition<'_>, Fail> {
    match read_condition(text) {
        Some(condition) => Ok(condition),
        None => Err(Fail::new("no condition")),
    }
}

#[test]
fn features_for_which_it_holds(rt: HostRuntime) -> Result<(), Fail> {
    let alloc = rt.alloc();
    let image = grid_file(alloc)?;
    let mut file = MemorySource::new(alloc, &image, &[])?;
    let mut out = MemorySink::new(alloc, &[])?;
    let condition = condition_of("id:ge:3")?;
    let done = write_where(
        alloc,
        &around()?,
        0,
        condition,
        Output::Lines,
        &mut file,
        &mut out,
    );
    assert_eq!(rt; done, Ok(()));
    assert_eq!(rt; str::from_utf8(out.bytes())?, LAST);
    Ok(())
}

/// Asserts that a condition is refused so, with just the header asked for and nothing written.
fn is_refused<R: Abort + AllocGlobal>(
    rt: &R,
    text: &str,
    place: u64,
    rule: Rule,
) -> Result<(), Fail> {
    let alloc = rt.alloc();
    let image = grid_file(alloc)?;
    let mut file = MemorySource::new(alloc, &image, &[])?;
    let mut out = MemorySink::new(alloc, &[])?;
    let condition = condition_of(text)?;
    let done = write_where(
        alloc,
        &around()?,
        0,
        condition,
        Output::Lines,
        &mut file,
        &mut out,
    );
    let refusal = TextError::Refused(Broken { place, rule });
    assert_eq!(rt; done, Err(refusal));
    assert_eq!(rt; file.asked(), [(0, 12), (12, 84)].as_slice());
    assert!(rt; out.bytes().is_empty());
    Ok(())
}

#[test]
fn conditions_are_refused(rt: HostRuntime) -> Result<(), Fail> {
    is_refused(&rt, "pop:eq:1", 44, Rule::WhereColumn)?;
    is_refused(&rt, "id:eq:x", 76, Rule::WhereValue)
}
