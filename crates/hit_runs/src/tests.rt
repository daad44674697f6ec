ghost use Rattle.std.specs.Prelude.{◌≡◌};

use super::*;
use box_search::Hit;
use fgb_header::HeaderView;
use fgb_outside::{MemorySource, RangeSource};
use flat_views::{Broken, Rule};
use found_features::{Collect, QueryError};
use hit_reader::Section;
use node_items::NodeItem;
use order_keys::{Bounds, Coord};
use std::alloc::{AllocError, Global};
use std::test::Fail;

/// A header of type Point.
const HEADER: [u8; 24] = [
    16, 0, 0, 0, 10, 0, 5, 0, 0, 0, 0, 0, 4, 0, 0, 0, 12, 0, 0, 0, 1, 0, 0, 0,
];

/// A feature with the point (0, 0), behind its size prefix 84.
const FEATURE: [u8; 88] = [
    84, 0, 0, 0, 16, 0, 0, 0, 6, 0, 8, 0, 4, 0, 0, 0, 0, 0, 0, 0, 12, 0, 0, 0, 28, 0, 0, 0, 18, 0,
    9, 0, 0, 0, 4, 0, 0, 0, 0, 0, 0, 0, 0, 0, 8, 0, 0, 0, 0, 0, 0, 0, 24, 0, 0, 0, 12, 0, 0, 0, 1,
    0, 0, 0, 0, 0, 0, 0, 2, 0, 0, 0, 0, 0, 0, 0, 0, 0, 0, 0, 0, 0, 0, 0, 0, 0, 0, 0,
];

/// Four such features from 100 on.
fn features(alloc: Global) -> Result<Vec<u8>, AllocError> {
    let mut bytes = vec![in alloc; 0; 100]?;
    bytes.extend_from_slice(&FEATURE)?;
    bytes.extend_from_slice(&FEATURE)?;
    bytes.extend_from_slice(&FEATURE)?;
    bytes.extend_from_slice(&FEATURE)?;
    Ok(bytes)
}

/// The leaf with this number and this offset.
fn leaf(number: u64, offset: u64, next: Option<u64>) -> Hit
    ensures { result.number ≡ number }
{
    Hit {
        number,
        item: NodeItem {
            bounds: Bounds::of_point(Coord(0), Coord(0)),
            offset,
        },
        next,
    }
}

#[test]
fn a_short_hole_is_read(rt: HostRuntime) -> Result<(), Fail> {
    let alloc = rt.alloc();
    let bytes = features(alloc)?;
    let header = HeaderView::read(&HEADER, 12)?;
    let section = Section {
        header: &header,
        leaves: 60,
        first: 100,
        end: 452,
    };
    let mut source = MemorySource::new(alloc, &bytes, &[])?;
    assert_eq!(rt; source.size(), 452);
    let hits = [
        leaf(0, 0, Some(88)),
        leaf(1, 88, Some(176)),
        leaf(3, 264, None),
    ];
    let mut runs = HitRuns::new(alloc, hits.to_vec(alloc)?, 100, 452, 89);
    assert_eq!(rt; runs.advance(&section, &mut source), Ok(true));
    assert_eq!(rt; runs.advance(&section, &mut source), Ok(true));
    if !runs.advance(&section, &mut source)? {
        return Err(Fail::new("a third feature"));
    }
    let found = runs.feature();
    assert_eq!(rt;
        (found.number, found.offset, found.bytes.len()),
        (3, 264, 84)
    );
    assert_eq!(rt; runs.advance(&section, &mut source), Ok(false));
    assert_eq!(rt; source.asked(), [(100, 268), (368, 84)].as_slice());
    Ok(())
}

#[test]
fn features_are_handed_over(rt: HostRuntime) -> Result<(), Fail> {
    let alloc = rt.alloc();
    let bytes = features(alloc)?;
    let header = HeaderView::read(&HEADER, 12)?;
    let section = Section {
        header: &header,
        leaves: 60,
        first: 100,
        end: 452,
    };
    let mut source = MemorySource::new(alloc, &bytes, &[])?;
    assert_eq!(rt; source.size(), 452);
    let mut visitor = Collect::new(alloc);
    let hits = [
        leaf(0, 0, Some(88)),
        leaf(1, 88, Some(176)),
        leaf(3, 264, None),
    ]
    .to_vec(alloc)?;
    assert_eq!(rt;
        take_hits(alloc, &section, hits, 89, &mut source, &mut visitor),
        Ok(())
    );
    assert_eq!(rt; visitor.len(), 3);
    let origin = Bounds::of_point(Coord(0), Coord(0));
    assert_eq!(rt; visitor.item(2), (3, 264, &FEATURE[4..], origin));
    assert_eq!(rt; source.asked(), [(100, 268), (368, 84)].as_slice());
    Ok(())
}

#[test]
fn a_long_hole_is_left_out(rt: HostRuntime) -> Result<(), Fail> {
    let alloc = rt.alloc();
    let bytes = features(alloc)?;
    let header = HeaderView::read(&HEADER, 12)?;
    let section = Section {
        header: &header,
        leaves: 60,
        first: 100,
        end: 452,
    };
    let mut source = MemorySource::new(alloc, &bytes, &[2])?;
    assert_eq!(rt; source.size(), 452);
    let hits = [
        leaf(0, 0, Some(88)),
        leaf(1, 88, Some(176)),
        leaf(3, 264, None),
    ];
    let mut runs = HitRuns::new(alloc, hits.to_vec(alloc)?, 100, 452, 88);
    assert_eq!(rt; runs.advance(&section, &mut source), Ok(true));
    assert_eq!(rt; runs.advance(&section, &mut source), Ok(true));
    assert_eq!(rt;
        runs.advance(&section, &mut source),
        Err(QueryError::SourceFailed)
    );
    assert_eq!(rt; runs.advance(&section, &mut source), Ok(true));
    assert_eq!(rt;
        source.asked(),
        [(100, 176), (364, 4), (364, 4), (368, 84)].as_slice()
    );
    Ok(())
}

#[test]
fn leaves_are_judged(rt: HostRuntime) -> Result<(), Fail> {
    let alloc = rt.alloc();
    let bytes = features(alloc)?;
    let header = HeaderView::read(&HEADER, 12)?;
    let section = Section {
        header: &header,
        leaves: 60,
        first: 100,
        end: 452,
    };
    let mut source = MemorySource::new(alloc, &bytes, &[])?;
    assert_eq!(rt; source.size(), 452);
    let hits = [leaf(0, 0, Some(87)), leaf(1, 87, None)];
    let mut runs = HitRuns::new(alloc, hits.to_vec(alloc)?, 100, 452, 0);
    assert_eq!(rt; runs.advance(&section, &mut source), Ok(true));
    let order = Broken {
        place: 100,
        rule: Rule::LeafOrder,
    };
    assert_eq!(rt;
        runs.advance(&section, &mut source),
        Err(QueryError::Refused(order))
    );
    Ok(())
}
