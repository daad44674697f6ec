ghost use Rattle.std.specs.Prelude.{◌≡◌, IfOk};
ghost use Rattle.level_bounds.specs.Levels.{node_count};
ghost use Rattle.level_bounds.specs.Shapes.{shape_of};

use super::*;
use fgb_outside::{MemorySource, RangeSource};
use flat_layout::{Broken, Rule};
use level_bounds::Levels;
use node_items::{NODE, NodeItem};
use order_keys::{Bounds, Coord};
use read_stop::ReadStop;
use std::test::Fail;

const ONE: u64 = 0x3FF0_0000_0000_0000;

const TWO: u64 = 0x4000_0000_0000_0000;

// Where the index of the tests begins.
const PLACE: usize = 60;

// The leaf of a feature at this offset.
fn leaf_at(offset: u64) -> NodeItem {
    NodeItem {
        bounds: Bounds::of_point(Coord(ONE), Coord(TWO)),
        offset,
    }
}

// A file of 220 bytes with an index of a root over three leaves, the last of which is empty.
fn file() -> [u8; 220] {
    let mut file = [0; 220];
    let mut empty = leaf_at(176);
    empty.bounds = Bounds::empty();
    file[60..100].copy_from_slice(&leaf_at(1).encode());
    file[100..140].copy_from_slice(&leaf_at(0).encode());
    file[140..180].copy_from_slice(&leaf_at(88).encode());
    file[180..].copy_from_slice(&empty.encode());
    file
}

// The levels of that index.
fn three() -> Result<Levels, Fail>
    ensures { IfOk result (λ levels. (node_count (shape_of levels) ≡ 4) × ((shape_of levels).leaves ≡ 3)) }
{
    let Some(levels) = Levels::new(3, 16) else {
        return Err(Fail::new("no levels"));
    };
    if levels.nodes() != 4 {
        return Err(Fail::new("a root over three leaves"));
    }
    Ok(levels)
}

#[test]
fn an_index_in_memory(rt: HostRuntime) -> Result<(), Fail> {
    let levels = three()?;
    let mut file = file();
    assert_eq!(rt; judge_index(&file, PLACE, &levels), Ok(()));
    assert_eq!(rt; leaf(&file, PLACE, &levels, 1), leaf_at(88));
    file[NODE + PLACE + 23] = 0xbf;
    let broken = Broken {
        place: 100,
        rule: Rule::NodeBox,
    };
    assert_eq!(rt; judge_index(&file, PLACE, &levels), Err(broken));
    Ok(())
}

#[test]
fn an_index_of_a_source(rt: HostRuntime) -> Result<(), Fail> {
    let alloc = rt.alloc();
    let levels = three()?;
    let whole = file();
    let mut source = MemorySource::new(alloc, &whole, &[])?;
    assert_eq!(rt; source.size(), 220);
    assert_eq!(rt;
        read_index(alloc, &mut source, PLACE as u64, &levels),
        Ok(())
    );
    assert_eq!(rt; source.asked(), [(60, 160), (60, 40)].as_slice());
    let mut wrong = file();
    wrong[PLACE + 32] = 2;
    let mut source = MemorySource::new(alloc, &wrong, &[])?;
    let broken = Broken {
        place: 60,
        rule: Rule::ChildOffset,
    };
    assert_eq!(rt;
        read_index(alloc, &mut source, PLACE as u64, &levels),
        Err(ReadStop::Refused(broken))
    );
    Ok(())
}

#[test]
fn leaves_of_a_source(rt: HostRuntime) -> Result<(), Fail> {
    let alloc = rt.alloc();
    let levels = three()?;
    let whole = file();
    let mut source = MemorySource::new(alloc, &whole, &[])?;
    let mut leaves = Leaves::new(alloc, PLACE as u64, &levels);
    let Some(leaf) = leaves.next(&mut source)? else {
        return Err(Fail::new("no leaf"));
    };
    assert_eq!(rt; leaf, leaf_at(0));
    assert_eq!(rt; leaves.place(), 100);
    assert_eq!(rt; leaves.next(&mut source)?, Some(leaf_at(88)));
    assert!(rt; leaves.next(&mut source)?.is_some());
    assert_eq!(rt; leaves.next(&mut source)?, None);
    assert_eq!(rt; source.asked(), [(100, 120)].as_slice());
    Ok(())
}
