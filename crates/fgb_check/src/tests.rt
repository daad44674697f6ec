use super::*;
use fgb_outside::MemorySource;
use flat_views::{Broken, Rule};
use node_items::NodeItem;
use order_keys::{Bounds, Coord};
use std::test::Fail;

/// The start and the header of a file of type Point.
const EMPTY: [u8; 36] = [
    102, 103, 98, 3, 102, 103, 98, 1, 24, 0, 0, 0, 16, 0, 0, 0, 10, 0, 5, 0, 0, 0, 0, 0, 4, 0, 0,
    0, 12, 0, 0, 0, 1, 0, 0, 0,
];

/// The same where the header says that there are two features, and no index.
const TWO: [u8; 60] = [
    102, 103, 98, 3, 102, 103, 98, 1, 48, 0, 0, 0, 32, 0, 0, 0, 24, 0, 15, 0, 0, 0, 0, 0, 14, 0, 0,
    0, 0, 0, 0, 0, 0, 0, 0, 0, 4, 0, 12, 0, 0, 0, 0, 0, 28, 0, 0, 0, 2, 0, 0, 0, 0, 0, 0, 0, 0, 0,
    1, 0,
];

/// The feature with the point (1, 2), and its size prefix.
const POINT: [u8; 88] = [
    84, 0, 0, 0, 16, 0, 0, 0, 6, 0, 8, 0, 4, 0, 0, 0, 0, 0, 0, 0, 12, 0, 0, 0, 28, 0, 0, 0, 18, 0,
    9, 0, 0, 0, 4, 0, 0, 0, 0, 0, 0, 0, 0, 0, 8, 0, 0, 0, 0, 0, 0, 0, 24, 0, 0, 0, 12, 0, 0, 0, 1,
    0, 0, 0, 0, 0, 0, 0, 2, 0, 0, 0, 0, 0, 0, 0, 0, 0, 240, 63, 0, 0, 0, 0, 0, 0, 0, 64,
];

/// Three points behind the first header.
fn three() -> [u8; 300] {
    let mut bytes = [0; 300];
    bytes[..36].copy_from_slice(&EMPTY);
    for i in 0..3 {
        bytes[36 + 88 * i..124 + 88 * i].copy_from_slice(&POINT);
    }
    bytes
}

/// Three points behind the second header, and the first three bytes of a fourth.
fn counted() -> [u8; 327] {
    let mut bytes = [0; 327];
    bytes[..60].copy_from_slice(&TWO);
    for i in 0..3 {
        bytes[60 + 88 * i..148 + 88 * i].copy_from_slice(&POINT);
    }
    bytes[324..].copy_from_slice(&POINT[..3]);
    bytes
}

fn accepted(features: u64) -> Verdict {
    Verdict::Accepted { features, nodes: 0 }
}

fn refused(place: u64, rule: Rule) -> Verdict {
    Verdict::Refused(Broken { place, rule })
}

#[test]
fn cut_files(rt: HostRuntime) {
    let file = three();
    for len in 0..301 {
        let Some(bytes) = file.get(..len) else {
            panic!(rt; "no front of {len} bytes");
        };
        let whole = match check_slice(bytes) {
            Verdict::Accepted { features, nodes } => {
                assert_eq!(rt; nodes, 0);
                // 36 bytes stand in front of the features, and each takes 88
                assert_eq!(rt; features, len as u64 / 88);
                true
            }
            Verdict::Refused(_) => false,
        };
        assert_eq!(rt; whole, len == 36 || len == 124 || len == 212 || len == 300);
    }
}

#[test]
fn counts(rt: HostRuntime) {
    let file = counted();
    let rows = [
        (60, refused(60, Rule::FeatureCount)),
        (148, refused(148, Rule::FeatureCount)),
        (236, accepted(2)),
        // two features, and three bytes
        (239, refused(236, Rule::FeaturePastEnd)),
        (324, refused(236, Rule::FeatureCount)),
        // a feature too many, and one that is cut
        (327, refused(324, Rule::FeaturePastEnd)),
    ];
    for (len, want) in rows {
        let Some(bytes) = file.get(..len) else {
            panic!(rt; "no front of {len} bytes");
        };
        assert_eq!(rt; check_slice(bytes), want);
    }
}

#[test]
fn least_unit(rt: HostRuntime) {
    let mut file = three();
    // a place of the file, the byte that is put there, and what is refused; each is broken besides the later ones
    let rows = [
        (300 - 1, 0x7f, None),
        (300 - 2, 0xf0, Some(refused(292, Rule::NotFinite))),
        (212 + 4, 2, Some(refused(216, Rule::Offset))),
        (124, 85, Some(refused(213, Rule::FeaturePastEnd))),
        (36, 83, Some(refused(104, Rule::Vector))),
        (32, 8, Some(refused(28, Rule::Kind))),
        (3, 2, Some(refused(3, Rule::Magic))),
    ];
    for (at, byte, want) in rows {
        assert!(rt; at < 300);
        file[at] = byte;
        assert_eq!(rt; check_slice(&file), want.unwrap_or(accepted(3)));
    }
    assert_eq!(rt; check_slice(&file[..5]), refused(5, Rule::Short));
}

#[test]
fn sources(rt: HostRuntime) -> Result<(), Fail> {
    let file = three();
    let mut source = MemorySource::new(rt.alloc(), &file, &[])?;
    assert_eq!(rt; check(rt.alloc(), &mut source)?, accepted(3));
    assert_eq!(rt; source.asked(), [(0, 12), (12, 24), (36, 264)].as_slice());
    for call in 1..4 {
        let mut source = MemorySource::new(rt.alloc(), &file, &[call])?;
        assert_eq!(rt;
            check(rt.alloc(), &mut source),
            Err(CheckError::SourceFailed)
        );
    }
    Ok(())
}

/// The start and the header of a file of type Point with one feature and an index.
const ONE: [u8; 60] = [
    102, 103, 98, 3, 102, 103, 98, 1, 48, 0, 0, 0, 32, 0, 0, 0, 22, 0, 13, 0, 0, 0, 0, 0, 12, 0, 0,
    0, 0, 0, 0, 0, 0, 0, 0, 0, 4, 0, 0, 0, 0, 0, 0, 0, 28, 0, 0, 0, 1, 0, 0, 0, 0, 0, 0, 0, 1, 0,
    0, 0,
];

/// The node with the box of the point (1, 2) and this offset.
fn node(offset: u64) -> [u8; 40] {
    let x = Coord(0x3FF0_0000_0000_0000);
    let y = Coord(0x4000_0000_0000_0000);
    let bounds = Bounds::of_point(x, y);
    NodeItem { bounds, offset }.encode()
}

/// The header, and an index of a root, at 60, and a leaf, at 100.
fn front() -> [u8; 140] {
    let mut bytes = [0; 140];
    bytes[..60].copy_from_slice(&ONE);
    bytes[60..100].copy_from_slice(&node(1));
    bytes[100..].copy_from_slice(&node(0));
    bytes
}

/// One point, at 140, behind its index.
fn indexed() -> [u8; 228] {
    let mut bytes = [0; 228];
    bytes[..140].copy_from_slice(&front());
    bytes[140..].copy_from_slice(&POINT);
    bytes
}

#[test]
fn an_index_is_judged(rt: HostRuntime) -> Result<(), Fail> {
    let mut file = indexed();
    let whole = Verdict::Accepted {
        features: 1,
        nodes: 2,
    };
    // a place of the file, the byte that is put there, and what is refused; each is broken besides the later ones
    let rows = [
        (227, 0x40, whole),
        // the least bit of the feature's x
        (212, 1, refused(100, Rule::LeafBox)),
        (132, 1, refused(100, Rule::LeafOffset)),
        // the root's min x, then its max x, so that it begins right of its leaf
        (60, 1, refused(60, Rule::NodeBox)),
        (76, 1, refused(60, Rule::ParentBox)),
        (92, 2, refused(60, Rule::ChildOffset)),
        (52, 9, refused(60, Rule::IndexPastEnd)),
        (56, 8, refused(44, Rule::Kind)),
    ];
    for (at, byte, want) in rows {
        assert!(rt; at < 228);
        file[at] = byte;
        assert_eq!(rt; check_slice(&file), want);
        let mut source = MemorySource::new(rt.alloc(), &file, &[])?;
        assert_eq!(rt; check(rt.alloc(), &mut source)?, want);
    }
    Ok(())
}

#[test]
fn an_index_is_cut(rt: HostRuntime) {
    let file = indexed();
    let rows = [
        (139, refused(60, Rule::IndexPastEnd)),
        (140, refused(140, Rule::FeatureCount)),
        (227, refused(140, Rule::FeaturePastEnd)),
    ];
    for (len, want) in rows {
        let Some(bytes) = file.get(..len) else {
            panic!(rt; "no front of {len} bytes");
        };
        assert_eq!(rt; check_slice(bytes), want);
    }
}
