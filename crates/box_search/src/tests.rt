ghost use Rattle.std.specs.Prelude.{◌≡◌, IfOk, vec_len};
ghost use Rattle.level_bounds.specs.Levels.{node_count};
ghost use Rattle.level_bounds.specs.Shapes.{shape_of};

use super::*;
use box_list::{Boxes, read_boxes};
use fgb_outside::{MemorySource, RangeSource};
use flat_layout::{Broken, Rule};
use level_bounds::Levels;
use node_items::NodeItem;
use order_keys::{Bounds, Coord};
use read_stop::ReadStop;
use std::alloc::{AllocError, Global};
use std::test::Fail;

/// Where the index of the tests begins.
const PLACE: u64 = 60;

/// The patterns of 0, 1, 2 and 3.
const ZERO: u64 = 0;

const ONE: u64 = 0x3FF0_0000_0000_0000;

const TWO: u64 = 0x4000_0000_0000_0000;

const THREE: u64 = 0x4008_0000_0000_0000;

/// A node around the points from (from, 0) to (till, 0), with this offset.
fn node(from: u64, till: u64, offset: u64) -> NodeItem {
    let first = Bounds::of_point(Coord(from), Coord(0));
    NodeItem {
        bounds: first.join(Bounds::of_point(Coord(till), Coord(0))),
        offset,
    }
}

/// An index at 60 of four leaves, the points (0, 0) to (3, 0), under two nodes and a root, with nodes of two children.
fn index(alloc: Global, right: NodeItem) -> Result<Vec<u8>, AllocError>
    ensures { IfOk result (λ bytes. vec_len bytes ≡ 340) }
{
    let mut bytes = vec![in alloc; 0; PLACE as usize]?;
    bytes.extend_from_slice(&node(ZERO, THREE, 1).encode())?;
    bytes.extend_from_slice(&node(ZERO, ONE, 3).encode())?;
    bytes.extend_from_slice(&right.encode())?;
    bytes.extend_from_slice(&node(ZERO, ZERO, 0).encode())?;
    bytes.extend_from_slice(&node(ONE, ONE, 88).encode())?;
    bytes.extend_from_slice(&node(TWO, TWO, 176).encode())?;
    bytes.extend_from_slice(&node(THREE, THREE, 264).encode())?;
    Ok(bytes)
}

/// The levels of that index.
fn four() -> Result<Levels, Fail>
    ensures { IfOk result (λ levels. node_count (shape_of levels) ≡ 7) }
{
    let Some(levels) = Levels::new(4, 2) else {
        return Err(Fail::new("no levels"));
    };
    if levels.nodes() != 7 {
        return Err(Fail::new("four leaves under three nodes"));
    }
    Ok(levels)
}

fn boxes(text: &str) -> Result<Boxes, Fail> {
    match read_boxes(text) {
        Ok(boxes) => Ok(boxes),
        Err(_) => Err(Fail::new("boxes")),
    }
}

#[test]
fn two_boxes(rt: HostRuntime) -> Result<(), Fail> {
    let alloc = rt.alloc();
    let bytes = index(alloc, node(TWO, THREE, 5))?;
    let levels = four()?;
    let sought = boxes("1,0,1,0+3,0,3,0")?;
    let mut source = MemorySource::new(alloc, &bytes, &[])?;
    assert_eq!(rt; source.size(), 340);
    let found = search_boxes(alloc, &mut source, PLACE, &levels, &sought, 0)?;
    let second = Hit {
        number: 1,
        item: node(ONE, ONE, 88),
        next: Some(176),
    };
    let last = Hit {
        number: 3,
        item: node(THREE, THREE, 264),
        next: None,
    };
    assert_eq!(rt; found.as_slice(), [second, last].as_slice());
    assert_eq!(rt;
        source.asked(),
        [(60, 40), (100, 80), (180, 160)].as_slice()
    );
    Ok(())
}

#[test]
fn a_hole_that_stays(rt: HostRuntime) -> Result<(), Fail> {
    let alloc = rt.alloc();
    let bytes = index(alloc, node(TWO, THREE, 5))?;
    let levels = four()?;
    let sought = boxes("2,0,2,0")?;
    let mut source = MemorySource::new(alloc, &bytes, &[])?;
    assert_eq!(rt; source.size(), 340);
    let found = search_boxes(alloc, &mut source, PLACE, &levels, &sought, 80)?;
    let hit = Hit {
        number: 2,
        item: node(TWO, TWO, 176),
        next: Some(264),
    };
    assert_eq!(rt; found.as_slice(), [hit].as_slice());
    assert_eq!(rt; source.asked(), [(60, 40), (100, 80), (260, 80)].as_slice());
    Ok(())
}

#[test]
fn a_hole_that_is_read(rt: HostRuntime) -> Result<(), Fail> {
    let alloc = rt.alloc();
    let bytes = index(alloc, node(TWO, THREE, 5))?;
    let levels = four()?;
    let sought = boxes("0,1,1,1+2,0,2,0")?;
    let mut source = MemorySource::new(alloc, &bytes, &[])?;
    assert_eq!(rt; source.size(), 340);
    let found = search_boxes(alloc, &mut source, PLACE, &levels, &sought, 81)?;
    assert_eq!(rt; found.len(), 1);
    assert_eq!(rt;
        source.asked(),
        [(60, 40), (100, 80), (180, 160)].as_slice()
    );
    Ok(())
}

#[test]
fn damage_counts_where_it_is_met(rt: HostRuntime) -> Result<(), Fail> {
    let alloc = rt.alloc();
    let bytes = index(alloc, node(TWO, TWO, 5))?;
    let levels = four()?;
    let mut source = MemorySource::new(alloc, &bytes, &[])?;
    assert_eq!(rt; source.size(), 340);
    let broken = Broken {
        place: 140,
        rule: Rule::ParentBox,
    };
    let met = boxes("0,1,0,1+2,0,2,0")?;
    assert_eq!(rt;
        search_boxes(alloc, &mut source, PLACE, &levels, &met, 0),
        Err(ReadStop::Refused(broken))
    );
    assert_eq!(rt; source.size(), 340);
    let other = boxes("3,0,3,0")?;
    let found = search_boxes(alloc, &mut source, PLACE, &levels, &other, 0)?;
    assert!(rt; found.is_empty());
    Ok(())
}
