// What the calls answer on bytes by hand, each as a reader of the format's document would lay them.
use super::*;
use fgb_outside::{MemorySource, RangeSource};
use flat_views::{Broken, Rule};
use std::alloc::{AllocError, Global};
use std::test::Fail;

/// A file of type Point without features: a start, and a header of 24 bytes.
const EMPTY: [u8; 36] = [
    102, 103, 98, 3, 102, 103, 98, 1, 24, 0, 0, 0, 16, 0, 0, 0, 10, 0, 5, 0, 0, 0, 0, 0, 4, 0, 0,
    0, 12, 0, 0, 0, 1, 0, 0, 0,
];

/// A feature with the point (0, 0): the size prefix 84, the feature's table and vtable, the geometry's, the count
/// of xy, and the point's two patterns.
const FEATURE: [u8; 88] = [
    84, 0, 0, 0, 16, 0, 0, 0, 6, 0, 8, 0, 4, 0, 0, 0, 0, 0, 0, 0, 12, 0, 0, 0, 28, 0, 0, 0, 18, 0,
    9, 0, 0, 0, 4, 0, 0, 0, 0, 0, 0, 0, 0, 0, 8, 0, 0, 0, 0, 0, 0, 0, 24, 0, 0, 0, 12, 0, 0, 0, 1,
    0, 0, 0, 0, 0, 0, 0, 2, 0, 0, 0, 0, 0, 0, 0, 0, 0, 0, 0, 0, 0, 0, 0, 0, 0, 0, 0,
];

/// A file of type Point with two features, the second at 124.
fn two_points(alloc: Global) -> Result<Vec<u8>, AllocError> {
    let mut file = Vec::from_slice(alloc, &EMPTY)?;
    file.extend_from_slice(&FEATURE)?;
    file.extend_from_slice(&FEATURE)?;
    Ok(file)
}

#[test]
fn a_file_is_read(rt: HostRuntime) -> Result<(), Fail> {
    let alloc = rt.alloc();
    let image = two_points(alloc)?;
    let mut file = MemorySource::new(alloc, &image, &[])?;
    let size = file.size();
    let len = read_start(&mut file, size)?;
    let buffer = read_header(alloc, &mut file, len)?;
    let header = judge_header(&buffer)?;
    assert_eq!(rt; header.features_count(), 0);
    let mut pieces = Pieces::new(alloc, 12 + buffer.len() as u64, size);
    assert_eq!(rt; (pieces.first(), pieces.end()), (36, 212));
    assert!(rt; pieces.advance(&mut file)?);
    assert_eq!(rt; (pieces.place(), pieces.buffer()), (36, &FEATURE[4..]));
    assert!(rt; pieces.advance(&mut file)?);
    assert_eq!(rt; (pieces.place(), pieces.buffer()), (124, &FEATURE[4..]));
    assert!(rt; !pieces.advance(&mut file)?);
    assert_eq!(rt; pieces.place(), 212);
    assert_eq!(rt; file.asked(), [(0, 12), (12, 24), (36, 176)].as_slice());
    Ok(())
}

#[test]
fn a_cut_prefix_is_refused(rt: HostRuntime) -> Result<(), Fail> {
    let alloc = rt.alloc();
    let image = [0; 39];
    let mut file = MemorySource::new(alloc, &image, &[])?;
    let mut pieces = Pieces::new(alloc, 36, 39);
    let cut = Broken {
        place: 36,
        rule: Rule::FeaturePastEnd,
    };
    assert_eq!(rt; pieces.advance(&mut file), Err(ReadStop::Refused(cut)));
    assert_eq!(rt; pieces.place(), 36);
    assert!(rt; file.asked().is_empty());
    Ok(())
}

#[test]
fn bytes_in_memory_are_judged(rt: HostRuntime) {
    assert_eq!(rt; judge_size(36), Ok(()));
    assert_eq!(rt; judge_start(&EMPTY[..START], 36), Ok(24));
    assert_eq!(rt; framed_size(&FEATURE, 88, 36), Ok(84));
    let past = Broken {
        place: 36,
        rule: Rule::FeaturePastEnd,
    };
    assert_eq!(rt; framed_size(&FEATURE, 87, 36), Err(past));
    let large = Broken {
        place: 36,
        rule: Rule::FeatureSize,
    };
    assert_eq!(rt; framed_size(&[1, 0, 0, 16], 1 << 40, 36), Err(large));
}

#[test]
fn features_are_counted(rt: HostRuntime) {
    let mut tally = Tally::new(2);
    tally.add(36);
    let few = Broken {
        place: 124,
        rule: Rule::FeatureCount,
    };
    assert_eq!(rt; tally.judge(124), Err(few));
    tally.add(124);
    assert_eq!(rt; (tally.seen(), tally.judge(212)), (2, Ok(2)));
    tally.add(212);
    let many = Broken {
        place: 212,
        rule: Rule::FeatureCount,
    };
    assert_eq!(rt; tally.judge(300), Err(many));
}

/// A header of type Point with 179 features and the default node size 16.
const COUNTED: [u8; 48] = [
    32, 0, 0, 0, 22, 0, 13, 0, 0, 0, 0, 0, 12, 0, 0, 0, 0, 0, 0, 0, 0, 0, 0, 0, 4, 0, 0, 0, 0, 0,
    0, 0, 28, 0, 0, 0, 179, 0, 0, 0, 0, 0, 0, 0, 1, 0, 0, 0,
];

#[test]
fn an_index_fits_or_not(rt: HostRuntime) -> Result<(), Fail> {
    let header = judge_header(&COUNTED)?;
    assert!(rt; has_index(&header));
    let Some(levels) = judge_levels(&header, 60, 7740)? else {
        return Err(Fail::new("no index"));
    };
    assert_eq!(rt; levels.nodes(), 192);
    let past_end = Broken {
        place: 60,
        rule: Rule::IndexPastEnd,
    };
    assert!(rt; judge_levels(&header, 60, 7739).err() == Some(past_end));
    let header = judge_header(&EMPTY[12..])?;
    assert!(rt; judge_levels(&header, 36, 36)?.is_none());
    Ok(())
}
