ghost use Rattle.std.specs.List.{AllByRecursion};
ghost use Rattle.feature_spans.specs.Spans.{LiesIn};

use super::*;
use fgb_outside::{MemorySink, MemorySource};
use fgb_reader::judge_header;
use order_keys::{Bounds, Coord};
use std::test::Fail;

/// A header of type Point.
const HEADER: [u8; 24] = [
    16, 0, 0, 0, 10, 0, 5, 0, 0, 0, 0, 0, 4, 0, 0, 0, 12, 0, 0, 0, 1, 0, 0, 0,
];

/// The feature with the point (1, 2), and its size prefix, and one without geometry.
const FEATURES: [u8; 104] = [
    84, 0, 0, 0, 16, 0, 0, 0, 6, 0, 8, 0, 4, 0, 0, 0, 0, 0, 0, 0, 12, 0, 0, 0, 28, 0, 0, 0, 18, 0,
    9, 0, 0, 0, 4, 0, 0, 0, 0, 0, 0, 0, 0, 0, 8, 0, 0, 0, 0, 0, 0, 0, 24, 0, 0, 0, 12, 0, 0, 0, 1,
    0, 0, 0, 0, 0, 0, 0, 2, 0, 0, 0, 0, 0, 0, 0, 0, 0, 240, 63, 0, 0, 0, 0, 0, 0, 0, 64, 12, 0, 0,
    0, 8, 0, 0, 0, 4, 0, 4, 0, 4, 0, 0, 0,
];

const POINT: Span = Span { at: 0, len: 88 };

const NONE: Span = Span { at: 88, len: 16 };

#[test]
fn features_are_surveyed(rt: HostRuntime) -> Result<(), Fail> {
    let mut source = MemorySource::new(rt.alloc(), &FEATURES, &[])?;
    let header = judge_header(&HEADER)?;
    let found = survey_features(rt.alloc(), &header, 0, 104, &mut source)?;
    let x = Coord(0x3FF0_0000_0000_0000);
    let y = Coord(0x4000_0000_0000_0000);
    assert_eq!(rt; found.spans.as_slice(), [POINT, NONE].as_slice());
    assert_eq!(rt;
        found.boxes.as_slice(),
        [Bounds::of_point(x, y), Bounds::empty()].as_slice()
    );
    Ok(())
}

#[test]
fn parts_are_copied(rt: HostRuntime) -> Result<(), Fail> {
    let mut source = MemorySource::new(rt.alloc(), &FEATURES, &[])?;
    let mut out = MemorySink::new(rt.alloc(), &[])?;
    assert_eq!(rt;
        copy_spans(rt.alloc(), &mut source, &[NONE, POINT], &mut out),
        Ok(())
    );
    assert_eq!(rt; &out.bytes()[..16], &FEATURES[88..]);
    assert_eq!(rt; &out.bytes()[16..], &FEATURES[..88]);
    Ok(())
}

#[test]
fn neighbours_are_read_at_once(rt: HostRuntime) -> Result<(), Fail> {
    let alloc = rt.alloc();
    let image = vec![in alloc; 7u8; 1_500_000]?;
    let mut source = MemorySource::new(alloc, &image, &[])?;
    let mut out = MemorySink::new(alloc, &[])?;
    let spans = [
        Span {
            at: 0,
            len: 700_000,
        },
        Span {
            at: 700_000,
            len: 300_000,
        },
        Span {
            at: 1_000_000,
            len: 500_000,
        },
        Span { at: 10, len: 5 },
    ];
    assert_eq!(rt; copy_spans(alloc, &mut source, &spans, &mut out), Ok(()));
    let asked = [(0, 1_000_000), (1_000_000, 500_000), (10, 5)];
    assert_eq!(rt; source.asked(), asked.as_slice());
    assert_eq!(rt; out.bytes().len(), 1_500_005);
    Ok(())
}

#[test]
fn copying_stops(rt: HostRuntime) -> Result<(), Fail> {
    let mut source = MemorySource::new(rt.alloc(), &FEATURES, &[1])?;
    let mut out = MemorySink::new(rt.alloc(), &[1])?;
    let spans = [POINT];
    assert_eq!(rt;
        copy_spans(rt.alloc(), &mut source, &spans, &mut out),
        Err(CopyError::SourceFailed)
    );
    assert_eq!(rt;
        copy_spans(rt.alloc(), &mut source, &spans, &mut out),
        Err(CopyError::SinkFailed)
    );
    assert!(rt; out.bytes().is_empty());
    Ok(())
}
