use super::*;
use feature_info::FeatureInfo;
use fgb_outside::MemorySink;
use fgb_pack::{PackDone, PackError};
use geometry_view::Kind;
use header_info::HeaderInfo;
use owned_shape::Shape;
use std::alloc::Global;
use std::test::Fail;

/// The start and the header of a file of one feature of any type, without an index.
const FRONT: [u8; 60] = [
    // the magic bytes, and the size of the header
    102, 103, 98, 3, 102, 103, 98, 1, 48, 0, 0, 0,
    // the root, the vtable with the count and the node size, and four bytes between
    32, 0, 0, 0, 24, 0, 14, 0, 0, 0, 0, 0, 0, 0, 0, 0, 0, 0, 0, 0, 0, 0, 0, 0, 4, 0, 12, 0, 0, 0,
    0, 0,
    // the header
    28, 0, 0, 0, 1, 0, 0, 0, 0, 0, 0, 0, 0, 0, 0, 0,
];

/// The feature with the point (1, 2), and its size prefix.
const POINT: [u8; 88] = [
    84, 0, 0, 0, 16, 0, 0, 0, 6, 0, 8, 0, 4, 0, 0, 0, 0, 0, 0, 0, 12, 0, 0, 0, 28, 0, 0, 0, 18, 0,
    9, 0, 0, 0, 4, 0, 0, 0, 0, 0, 0, 0, 0, 0, 8, 0, 0, 0, 0, 0, 0, 0, 24, 0, 0, 0, 12, 0, 0, 0, 1,
    0, 0, 0, 0, 0, 0, 0, 2, 0, 0, 0, 0, 0, 0, 0, 0, 0, 240, 63, 0, 0, 0, 0, 0, 0, 0, 64,
];

/// The feature with the point (1, 2).
fn point(alloc: Global) -> Result<FeatureInfo, Fail> {
    let mut point = Shape::new(alloc, Kind::Point);
    point.push_points(&[0x3ff0_0000_0000_0000, 0x4000_0000_0000_0000])?;
    Ok(FeatureInfo::new(alloc, Some(point)))
}

#[test]
fn one_point_is_written(rt: HostRuntime) -> Result<(), Fail> {
    let header = HeaderInfo::plain(rt.alloc(), 0);
    let feature = point(rt.alloc())?;
    assert!(rt; feature.fits(&header));
    let features = [feature];
    let mut out = MemorySink::new(rt.alloc(), &[])?;
    let done = PackDone {
        features: 1,
        nodes: 0,
        bytes: 148,
    };
    assert_eq!(rt;
        lay_plain(rt.alloc(), &header, &features, &mut out),
        Ok(done)
    );
    let mut file = Vec::from_slice(rt.alloc(), &FRONT)?;
    file.extend_from_slice(&POINT)?;
    assert_eq!(rt; out.bytes(), file.as_slice());
    Ok(())
}

#[test]
fn a_sink_fails(rt: HostRuntime) -> Result<(), Fail> {
    let header = HeaderInfo::plain(rt.alloc(), 0);
    let mut out = MemorySink::new(rt.alloc(), &[1])?;
    assert_eq!(rt;
        lay_plain(rt.alloc(), &header, &[], &mut out),
        Err(PackError::SinkFailed)
    );
    assert!(rt; out.bytes().is_empty());
    let done = PackDone {
        features: 0,
        nodes: 0,
        bytes: 52,
    };
    assert_eq!(rt; lay_plain(rt.alloc(), &header, &[], &mut out), Ok(done));
    assert_eq!(rt; out.bytes().len(), 52);
    Ok(())
}
