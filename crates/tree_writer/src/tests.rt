use super::*;
use fgb_outside::{MemorySink, Sink, SinkError};
use level_bounds::Levels;
use node_items::NodeItem;
use order_keys::{Bounds, Coord};
use std::test::Fail;

/// The patterns of 1 and 2.
const ONE: Coord = Coord(0x3FF0_0000_0000_0000);

const TWO: Coord = Coord(0x4000_0000_0000_0000);

/// Two points, and a leaf without a point.
const LEAVES: [NodeItem; 3] = [
    NodeItem {
        bounds: Bounds {
            min_x: ONE,
            min_y: TWO,
            max_x: ONE,
            max_y: TWO,
        },
        offset: 0,
    },
    NodeItem {
        bounds: Bounds {
            min_x: TWO,
            min_y: ONE,
            max_x: TWO,
            max_y: ONE,
        },
        offset: 88,
    },
    NodeItem {
        bounds: NOWHERE,
        offset: 176,
    },
];

/// The box around both points, and that of no point.
const AROUND: Bounds = Bounds {
    min_x: ONE,
    min_y: ONE,
    max_x: TWO,
    max_y: TWO,
};

const NOWHERE: Bounds = Bounds {
    min_x: Coord(0x7FF0_0000_0000_0000),
    min_y: Coord(0x7FF0_0000_0000_0000),
    max_x: Coord(0xFFF0_0000_0000_0000),
    max_y: Coord(0xFFF0_0000_0000_0000),
};

#[test]
fn nodes_of_two_over_three_leaves(rt: HostRuntime) -> Result<(), Fail> {
    let alloc = rt.alloc();
    let Some(levels) = Levels::new(3, 2) else {
        return Err(Fail::new("no levels"));
    };
    let inner = [
        NodeItem {
            bounds: AROUND,
            offset: 1,
        },
        NodeItem {
            bounds: AROUND,
            offset: 3,
        },
        NodeItem {
            bounds: NOWHERE,
            offset: 5,
        },
    ];
    let mut wanted = Vec::new(alloc);
    for node in inner {
        wanted.extend_from_slice(&node.encode())?;
    }
    for leaf in LEAVES {
        wanted.extend_from_slice(&leaf.encode())?;
    }
    let mut out = MemorySink::new(alloc, &[])?;
    assert_eq!(rt; write_tree(alloc, &levels, &LEAVES, &mut out), Ok(()));
    assert_eq!(rt; out.bytes(), wanted.as_slice());
    Ok(())
}

#[test]
fn a_sink_that_fails(rt: HostRuntime) -> Result<(), Fail> {
    let alloc = rt.alloc();
    let Some(levels) = Levels::new(3, 16) else {
        return Err(Fail::new("no levels"));
    };
    let mut out = MemorySink::new(alloc, &[1])?;
    assert_eq!(rt;
        write_tree(alloc, &levels, &LEAVES, &mut out),
        Err(SinkError::Failed)
    );
    assert!(rt; out.bytes().is_empty());
    Ok(())
}
