use super::*;
use feature_info::FeatureInfo;
use fgb_outside::MemorySink;
use flat_views::{Broken, Rule};
use geometry_view::Kind;
use owned_shape::Shape;
use std::alloc::Global;
use std::test::Fail;

/// The patterns of 1 and 2.
const N1: u64 = 0x3ff0_0000_0000_0000;

const N2: u64 = 0x4000_0000_0000_0000;

/// The Point (1, 2).
const POINT: [u8; 21] = [
    1, 1, 0, 0, 0, 0, 0, 0, 0, 0, 0, 0xF0, 0x3F, 0, 0, 0, 0, 0, 0, 0, 0x40,
];

/// A feature with the Point (1, 2).
fn point(alloc: Global) -> Result<FeatureInfo, Fail> {
    let mut point = Shape::new(alloc, Kind::Point);
    point.push_points(&[N1, N2])?;
    Ok(FeatureInfo::new(alloc, Some(point)))
}

#[test]
fn values_are_written(rt: HostRuntime) -> Result<(), Fail> {
    let mut features = Vec::new(rt.alloc());
    features.push(point(rt.alloc())?)?;
    features.push(point(rt.alloc())?)?;
    let mut out = MemorySink::new(rt.alloc(), &[])?;
    assert_eq!(rt;
        write_values(rt.alloc(), &features, &[60, 148], &mut out),
        Ok(())
    );
    let mut both = Vec::from_slice(rt.alloc(), &POINT)?;
    both.extend_from_slice(&POINT)?;
    assert_eq!(rt; out.bytes(), both.as_slice());
    Ok(())
}

#[test]
fn a_feature_without_geometry_is_refused(rt: HostRuntime) -> Result<(), Fail> {
    let mut features = Vec::new(rt.alloc());
    features.push(point(rt.alloc())?)?;
    features.push(FeatureInfo::new(rt.alloc(), None))?;
    features.push(point(rt.alloc())?)?;
    let mut out = MemorySink::new(rt.alloc(), &[])?;
    let refusal = Broken {
        place: 124,
        rule: Rule::NoWkb,
    };
    assert_eq!(rt;
        write_values(rt.alloc(), &features, &[36, 124, 140], &mut out),
        Err(ValuesError::Refused(refusal))
    );
    assert!(rt; out.bytes().is_empty());
    Ok(())
}

#[test]
fn writing_stops(rt: HostRuntime) -> Result<(), Fail> {
    let mut features = Vec::new(rt.alloc());
    features.push(point(rt.alloc())?)?;
    let mut out = MemorySink::new(rt.alloc(), &[1])?;
    assert_eq!(rt;
        write_values(rt.alloc(), &features, &[60], &mut out),
        Err(ValuesError::SinkFailed)
    );
    Ok(())
}
