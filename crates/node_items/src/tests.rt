use super::*;
use flat_layout::{Broken, Rule};
use level_bounds::Levels;
use order_keys::{Bounds, Coord};
use std::test::Fail;

const ONE: u64 = 0x3FF0_0000_0000_0000;

const TWO: u64 = 0x4000_0000_0000_0000;

// Where the index of the tests begins.
const PLACE: u64 = 60;

#[test]
fn an_empty_leaf_has_forty_bytes(rt: HostRuntime) {
    let leaf = NodeItem {
        bounds: Bounds::empty(),
        offset: 176,
    };
    let bytes = [
        0, 0, 0, 0, 0, 0, 0xf0, 0x7f, 0, 0, 0, 0, 0, 0, 0xf0, 0x7f, 0, 0, 0, 0, 0, 0, 0xf0, 0xff,
        0, 0, 0, 0, 0, 0, 0xf0, 0xff, 0xb0, 0, 0, 0, 0, 0, 0, 0,
    ];
    assert_eq!(rt; leaf.encode(), bytes);
    assert_eq!(rt; NodeItem::decode(&bytes), leaf);
}

// The node of a point (x, 0), by the pattern of x.
fn node(x: u64, offset: u64) -> NodeItem {
    NodeItem {
        bounds: Bounds::of_point(Coord(x), Coord(0)),
        offset,
    }
}

// What is wrong with a root over a point at ONE and one at TWO, or with these leaves.
fn judge(root: NodeItem, first: NodeItem, second: NodeItem) -> Result<Result<(), Broken>, Fail> {
    let Some(levels) = Levels::new(2, 16) else {
        return Err(Fail::new("no levels"));
    };
    if levels.nodes() != 3 {
        return Err(Fail::new("a root over two leaves"));
    }
    let top = Group::new(&root.encode(), 0, PLACE).check_group(None, &levels);
    if top.is_err() {
        return Ok(top);
    }
    let mut bytes = [0; 80];
    bytes[..40].copy_from_slice(&first.encode());
    bytes[40..].copy_from_slice(&second.encode());
    Ok(Group::new(&bytes, 1, PLACE).check_group(Some((root, 0)), &levels))
}

#[test]
fn groups_are_judged(rt: HostRuntime) -> Result<(), Fail> {
    let mut root = node(ONE, 1);
    let first = node(ONE, 0);
    let second = node(TWO, 88);
    assert_eq!(rt;
        judge(root, first, second)?,
        Err(Broken {
            place: 60,
            rule: Rule::ParentBox
        })
    );
    root.bounds.max_x = Coord(TWO);
    assert_eq!(rt; judge(root, first, second)?, Ok(()));
    root.offset = 2;
    assert_eq!(rt;
        judge(root, first, second)?,
        Err(Broken {
            place: 60,
            rule: Rule::ChildOffset
        })
    );
    root.offset = 1;
    let mut turned = second;
    turned.bounds.min_y = Coord(ONE);
    assert_eq!(rt;
        judge(root, first, turned)?,
        Err(Broken {
            place: 140,
            rule: Rule::NodeBox
        })
    );
    Ok(())
}
