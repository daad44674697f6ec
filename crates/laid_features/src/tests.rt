use super::*;
use feature_info::FeatureInfo;
use geometry_view::Kind;
use owned_shape::Shape;
use std::test::Fail;

/// A feature with the Point (1, 2).
const POINT: [u8; 84] = [
    16, 0, 0, 0, 6, 0, 8, 0, 4, 0, 0, 0, 0, 0, 0, 0, 12, 0, 0, 0, 28, 0, 0, 0, 18, 0, 9, 0, 0, 0,
    4, 0, 0, 0, 0, 0, 0, 0, 0, 0, 8, 0, 0, 0, 0, 0, 0, 0, 24, 0, 0, 0, 12, 0, 0, 0, 1, 0, 0, 0, 0,
    0, 0, 0, 2, 0, 0, 0, 0, 0, 0, 0, 0, 0, 240, 63, 0, 0, 0, 0, 0, 0, 0, 64,
];

/// A feature without anything.
const BARE: [u8; 12] = [8, 0, 0, 0, 4, 0, 4, 0, 4, 0, 0, 0];

#[test]
fn two_features_are_laid(rt: HostRuntime) -> Result<(), Fail> {
    let mut point = Shape::new(rt.alloc(), Kind::Point);
    point.push_points(&[0x3ff0_0000_0000_0000, 0x4000_0000_0000_0000])?;
    let features = [
        FeatureInfo::new(rt.alloc(), Some(point)),
        FeatureInfo::new(rt.alloc(), None),
    ];
    let laid = lay_features(rt.alloc(), &features)?;
    assert_eq!(rt; laid.len(), 2);
    assert_eq!(rt; laid[0].as_slice(), POINT.as_slice());
    assert_eq!(rt; laid[1].as_slice(), BARE.as_slice());
    Ok(())
}
