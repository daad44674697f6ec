ghost use Rattle.std.specs.Prelude.{◌≡◌};

use super::*;
use fgb_header::HeaderView;
use fgb_outside::{MemorySource, RangeSource};
use flat_views::{Broken, Rule};
use found_features::{Collect, QueryError};
use node_items::NodeItem;
use order_keys::{Bounds, Coord};
use std::alloc::{AllocError, Global};
use std::test::Fail;
use tree_search::Hit;

/// A header of type Point.
const HEADER: [u8; 24] = [
    16, 0, 0, 0, 10, 0, 5, 0, 0, 0, 0, 0, 4, 0, 0, 0, 12, 0, 0, 0, 1, 0, 0, 0,
];

/// A feature with the point (0, 0), behind its size prefix 84.
const FEATURE: [u8; 88] = [
    84, 0, 0, 0, 16, 0, 0, 0, 6, 0, 8, 0, 4, 0, 0, 0, 0, 0, 0, 0, 12, 0, 0, 0, 28, 0, 0, 0, 18, 0,
    9, 0, 0, 0, 4, 0, 0, 0, 0, 0, 0, 0, 0, 0, 8, 0, 0, 0, 0, 0, 0, 0, 24, 0, 0, 0, 12, 0, 0, 0, 1,
    0, 0, 0, 0, 0, 0, 0, 2, 0, 0, 0, 0, 0, 0, 0, 0, 0, 0, 0, 0, 0, 0, 0, 0, 0, 0, 0,
];

/// Four such features from 100 on.
fn features(alloc: Global) -> Result<Vec<u8>, AllocError> {
    let mut bytes = vec![in alloc; 0; 100]?;
    bytes.extend_from_slice(&FEATURE)?;
    bytes.extend_from_slice(&FEATURE)?;
    bytes.extend_from_slice(&FEATURE)?;
    bytes.extend_from_slice(&FEATURE)?;
    Ok(bytes)
}

/// The box of the point (0, 0).
fn origin() -> Bounds {
    Bounds::of_point(Coord(0), Coord(0))
}

/// The leaf with this number and this offset.
fn leaf(number: u64, offset: u64) -> Hit
    ensures { result.number ≡ number }
{
    Hit {
        number,
        item: NodeItem {
            bounds: origin(),
            offset,
        },
    }
}

#[test]
fn neighbours_are_read_together(rt: HostRuntime) -> Result<(), Fail> {
    let alloc = rt.alloc();
    let bytes = features(alloc)?;
    let header = HeaderView::read(&HEADER, 12)?;
    let section = Section {
        header: &header,
        leaves: 60,
        first: 100,
        end: 452,
    };
    let mut source = MemorySource::new(alloc, &bytes, &[])?;
    assert_eq!(rt; source.size(), 452);
    let mut visitor = Collect::new(alloc);
    let hits = [leaf(0, 0), leaf(1, 88), leaf(3, 264)];
    assert_eq!(rt;
        take_hits(alloc, &section, &hits, &mut source, &mut visitor),
        Ok(())
    );
    assert_eq!(rt; visitor.len(), 3);
    assert_eq!(rt; visitor.item(2), (3, 264, &FEATURE[4..], origin()));
    assert_eq!(rt;
        source.asked(),
        [(100, 92), (192, 84), (364, 4), (368, 84)].as_slice()
    );
    Ok(())
}

#[test]
fn leaves_are_judged(rt: HostRuntime) -> Result<(), Fail> {
    let alloc = rt.alloc();
    let bytes = features(alloc)?;
    let header = HeaderView::read(&HEADER, 12)?;
    let section = Section {
        header: &header,
        leaves: 60,
        first: 100,
        end: 452,
    };
    let mut source = MemorySource::new(alloc, &bytes, &[])?;
    assert_eq!(rt; source.size(), 452);
    let mut visitor = Collect::new(alloc);
    let order = Broken {
        place: 100,
        rule: Rule::LeafOrder,
    };
    assert_eq!(rt;
        take_hits(
            alloc,
            &section,
            &[leaf(0, 0), leaf(1, 87)],
            &mut source,
            &mut visitor
        ),
        Err(QueryError::Refused(order))
    );
    assert_eq!(rt; visitor.len(), 1);
    let past_end = Broken {
        place: 60,
        rule: Rule::LeafPastEnd,
    };
    assert_eq!(rt;
        take_hits(alloc, &section, &[leaf(0, 349)], &mut source, &mut visitor),
        Err(QueryError::Refused(past_end))
    );
    let mut other = leaf(2, 176);
    other.item.bounds = Bounds::of_point(Coord(1), Coord(0));
    let unlike = Broken {
        place: 140,
        rule: Rule::LeafBox,
    };
    assert_eq!(rt;
        take_hits(alloc, &section, &[other], &mut source, &mut visitor),
        Err(QueryError::Refused(unlike))
    );
    Ok(())
}

#[test]
fn a_fault_stops_it(rt: HostRuntime) -> Result<(), Fail> {
    let alloc = rt.alloc();
    let bytes = features(alloc)?;
    let header = HeaderView::read(&HEADER, 12)?;
    let section = Section {
        header: &header,
        leaves: 60,
        first: 100,
        end: 452,
    };
    let mut source = MemorySource::new(alloc, &bytes, &[3])?;
    assert_eq!(rt; source.size(), 452);
    let mut visitor = Collect::new(alloc);
    let hits = [leaf(0, 0), leaf(2, 176)];
    assert_eq!(rt;
        take_hits(alloc, &section, &hits, &mut source, &mut visitor),
        Err(QueryError::SourceFailed)
    );
    assert_eq!(rt; visitor.len(), 1);
    assert_eq!(rt; source.asked(), [(100, 4), (104, 84), (276, 4)].as_slice());
    Ok(())
}
