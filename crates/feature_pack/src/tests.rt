ghost use Rattle.std.specs.Prelude.{IsTrue};
ghost use Rattle.std.specs.List.{AllByRecursion};
ghost use Rattle.feature_tables.specs.Records.{Fits};

use super::*;
use feature_info::FeatureInfo;
use fgb_outside::MemorySink;
use fgb_pack::{PackDone, PackError};
use geometry_view::Kind;
use header_info::HeaderInfo;
use node_items::NodeItem;
use order_keys::{Bounds, Coord};
use owned_shape::Shape;
use std::alloc::Global;
use std::test::Fail;

/// The patterns of 1 and 2.
const N1: u64 = 0x3ff0_0000_0000_0000;

const N2: u64 = 0x4000_0000_0000_0000;

/// A file of type Point without features.
const EMPTY: [u8; 36] = [
    102, 103, 98, 3, 102, 103, 98, 1, 24, 0, 0, 0, 16, 0, 0, 0, 10, 0, 5, 0, 0, 0, 0, 0, 4, 0, 0,
    0, 12, 0, 0, 0, 1, 0, 0, 0,
];

/// The start and the header of a file of type Point with three features, and with an index.
const THREE: [u8; 60] = [
    102, 103, 98, 3, 102, 103, 98, 1, 48, 0, 0, 0, 32, 0, 0, 0, 22, 0, 13, 0, 0, 0, 0, 0, 12, 0, 0,
    0, 0, 0, 0, 0, 0, 0, 0, 0, 4, 0, 0, 0, 0, 0, 0, 0, 28, 0, 0, 0, 3, 0, 0, 0, 0, 0, 0, 0, 1, 0,
    0, 0,
];

/// The feature with the point (1, 2), and its size prefix.
const POINT: [u8; 88] = [
    84, 0, 0, 0, 16, 0, 0, 0, 6, 0, 8, 0, 4, 0, 0, 0, 0, 0, 0, 0, 12, 0, 0, 0, 28, 0, 0, 0, 18, 0,
    9, 0, 0, 0, 4, 0, 0, 0, 0, 0, 0, 0, 0, 0, 8, 0, 0, 0, 0, 0, 0, 0, 24, 0, 0, 0, 12, 0, 0, 0, 1,
    0, 0, 0, 0, 0, 0, 0, 2, 0, 0, 0, 0, 0, 0, 0, 0, 0, 240, 63, 0, 0, 0, 0, 0, 0, 0, 64,
];

/// A feature without geometry, and its size prefix.
const NOWHERE: [u8; 16] = [12, 0, 0, 0, 8, 0, 0, 0, 4, 0, 4, 0, 4, 0, 0, 0];

/// A feature with the point (1, 2).
fn point(alloc: Global) -> Result<FeatureInfo, Fail> {
    let mut point = Shape::new(alloc, Kind::Point);
    point.push_points(&[N1, N2])?;
    Ok(FeatureInfo::new(alloc, Some(point)))
}

/// A point, a feature without geometry, and the same point.
fn three(alloc: Global) -> Result<Vec<FeatureInfo>, Fail> {
    let mut features = Vec::new(alloc);
    features.push(point(alloc)?)?;
    features.push(FeatureInfo::new(alloc, None))?;
    features.push(point(alloc)?)?;
    Ok(features)
}

/// Their packing: a root and three leaves, and both points in front.
fn packed(alloc: Global) -> Result<Vec<u8>, Fail> {
    let point = Bounds::of_point(Coord(N1), Coord(N2));
    let nodes = [(point, 1), (point, 0), (point, 88), (Bounds::empty(), 176)];
    let mut file = Vec::from_slice(alloc, &THREE)?;
    for (bounds, offset) in nodes {
        file.extend_from_slice(&NodeItem { bounds, offset }.encode())?;
    }
    file.extend_from_slice(&POINT)?;
    file.extend_from_slice(&POINT)?;
    file.extend_from_slice(&NOWHERE)?;
    Ok(file)
}

/// Whether each of some features fits a header.
fn all_fit(header: &HeaderInfo, features: &[FeatureInfo]) -> bool
    ensures { IsTrue result → AllByRecursion (Fits header.now) features.now }
{
    for feature in features {
        if !feature.fits(header) {
            return false;
        }
    }
    true
}

#[test]
fn three_features_are_packed(rt: HostRuntime) -> Result<(), Fail> {
    let header = HeaderInfo::plain(rt.alloc(), 1);
    let features = three(rt.alloc())?;
    let mut out = MemorySink::new(rt.alloc(), &[])?;
    let done = PackDone {
        features: 3,
        nodes: 4,
        bytes: 412,
    };
    assert!(rt; all_fit(&header, &features));
    assert_eq!(rt;
        pack_features(rt.alloc(), &header, &features, 16, &mut out),
        Ok(done)
    );
    assert_eq!(rt; out.bytes(), packed(rt.alloc())?.as_slice());
    Ok(())
}

#[test]
fn without_features_there_is_no_index(rt: HostRuntime) -> Result<(), Fail> {
    let header = HeaderInfo::plain(rt.alloc(), 1);
    let mut out = MemorySink::new(rt.alloc(), &[])?;
    let done = PackDone {
        features: 0,
        nodes: 0,
        bytes: 36,
    };
    assert_eq!(rt;
        pack_features(rt.alloc(), &header, &[], 16, &mut out),
        Ok(done)
    );
    assert_eq!(rt; out.bytes(), EMPTY.as_slice());
    Ok(())
}

#[test]
fn packing_stops(rt: HostRuntime) -> Result<(), Fail> {
    let header = HeaderInfo::plain(rt.alloc(), 1);
    let features = three(rt.alloc())?;
    let mut out = MemorySink::new(rt.alloc(), &[2])?;
    assert!(rt; all_fit(&header, &features));
    assert_eq!(rt;
        pack_features(rt.alloc(), &header, &features, 16, &mut out),
        Err(PackError::SinkFailed)
    );
    assert_eq!(rt; out.bytes(), &THREE[..12]);
    Ok(())
}
