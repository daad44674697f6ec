use super::*;
use found_features::Found;
use order_keys::{Bounds, Coord};
use std::alloc::{AllocError, Global};
use std::test::Fail;

/// The patterns of 30, 31, 32 and 33.
const PATTERNS: [u64; 4] = [
    0x403E_0000_0000_0000,
    0x403F_0000_0000_0000,
    0x4040_0000_0000_0000,
    0x4040_8000_0000_0000,
];

/// Feeds a feature of 84 bytes, a point on the x-axis.
fn feed_point(reports: &mut Vec<Box<dyn Reporter>>, number: u64, x: u64) {
    let found = Found {
        number,
        offset: 0,
        bytes: &[0; 84],
        bounds: Bounds::of_point(Coord(x), Coord(0)),
    };
    feed_all(reports, &found);
}

/// The lines of reporters.
fn lines(alloc: Global, reports: &[Box<dyn Reporter>]) -> Result<Vec<u8>, AllocError> {
    let mut lines = Vec::new(alloc);
    for report in reports {
        report.text(alloc, &mut lines)?;
    }
    Ok(lines)
}

#[test]
fn a_cap_is_dropped_and_the_others_keep_their_order(rt: HostRuntime) -> Result<(), Fail> {
    let alloc = rt.alloc();
    let mut reports: Vec<Box<dyn Reporter>> = Vec::new(alloc);
    reports.push(Box::new(alloc, CapReport::new(2))?)?;
    reports.push(Box::new(alloc, CountReport::new())?)?;
    reports.push(Box::new(alloc, ExtentReport::new())?)?;
    reports.push(Box::new(alloc, SizeReport::new())?)?;
    assert_eq!(rt;
        lines(alloc, &reports)?.as_slice(),
        b"cap 0 of 2\ncount 0\nextent none\nsize 0\n".as_slice()
    );
    let [a, b, c, d] = PATTERNS;
    feed_point(&mut reports, 30, a);
    feed_point(&mut reports, 31, b);
    assert_eq!(rt; reports.len(), 4);
    feed_point(&mut reports, 32, c);
    assert_eq!(rt; reports.len(), 3);
    feed_point(&mut reports, 33, d);
    assert_eq!(rt;
        lines(alloc, &reports)?.as_slice(),
        b"count 4\nextent 403e000000000000 0000000000000000 4040800000000000 0000000000000000\nsize 336\n".as_slice()
    );
    Ok(())
}
