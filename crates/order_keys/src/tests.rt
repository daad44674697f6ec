use super::*;

fn meets_point(area: &str, x: &str, y: &str) -> Result<bool, BoundFault> {
    let point = Bounds::of_point(read_bound(x)?, read_bound(y)?);
    Ok(read_box(area)?.meets(point))
}

#[test]
fn reads_bounds(rt: HostRuntime) {
    let cases = [
        ("", Err(BoundFault::Form)),
        ("-", Err(BoundFault::Form)),
        ("1/3", Err(BoundFault::Form)),
        ("9007199254740993/3", Err(BoundFault::Form)),
        ("1/0", Err(BoundFault::Form)),
        ("1/", Err(BoundFault::Form)),
        ("1/2/2", Err(BoundFault::Form)),
        ("00000000000000001", Err(BoundFault::Form)),
        ("9007199254740993", Err(BoundFault::Range)),
        ("-9007199254740993", Err(BoundFault::Range)),
        ("9007199254740993/2", Err(BoundFault::Range)),
        ("1/9007199254740992", Err(BoundFault::Range)),
        ("x7ff0000000000000", Err(BoundFault::NotFinite)),
        ("9007199254740992", Ok(Coord(0x4340_0000_0000_0000))),
        ("0", Ok(Coord(0))),
        ("-0", Ok(Coord(0x8000_0000_0000_0000))),
        ("-0/4", Ok(Coord(0x8000_0000_0000_0000))),
        ("3/2", Ok(Coord(0x3FF8_0000_0000_0000))),
        ("25/2", Ok(Coord(0x4029_0000_0000_0000))),
        ("-1/4503599627370496", Ok(Coord(0xBCB0_0000_0000_0000))),
        ("1", Ok(Coord(0x3FF0_0000_0000_0000))),
        ("10", Ok(Coord(0x4024_0000_0000_0000))),
        ("-180", Ok(Coord(0xC066_8000_0000_0000))),
        ("xC066800000000000", Ok(Coord(0xC066_8000_0000_0000))),
        ("xc066800000000000", Ok(Coord(0xC066_8000_0000_0000))),
    ];
    for (text, want) in cases {
        assert_eq!(rt; read_bound(text), want, "at {text}");
    }
}

#[test]
fn reads_boxes(rt: HostRuntime) {
    let cases = [
        ("1,0,0,0", "0", "0", Err(BoundFault::Order)),
        ("0,0,0", "0", "0", Err(BoundFault::Form)),
        ("0,0,0,0,0", "0", "0", Err(BoundFault::Form)),
        ("0,9007199254740993,a,0", "0", "0", Err(BoundFault::Range)),
        ("-180,-90,-1,-1", "-90", "-45", Ok(true)),
        ("-180,-90,-1,-1", "0", "-45", Ok(false)),
        ("-180,-90,-1,-1", "-1", "-90", Ok(true)),
        ("0,0,1,1", "-0", "1", Ok(true)),
        ("-1/2,0,1/2,1", "1", "1", Ok(false)),
    ];
    for (area, x, y, want) in cases {
        assert_eq!(rt; meets_point(area, x, y), want, "at {area}");
    }
}

#[test]
fn whole_numbers(rt: HostRuntime) {
    let cases = [
        (0, Some(Coord(0))),
        (1, Some(Coord(0x3FF0_0000_0000_0000))),
        (-1, Some(Coord(0xBFF0_0000_0000_0000))),
        (9007199254740992, Some(Coord(0x4340_0000_0000_0000))),
        (9007199254740993, None),
    ];
    for (value, want) in cases {
        assert_eq!(rt; Coord::of_whole(value), want, "at {value}");
    }
}

#[test]
fn joins_boxes(rt: HostRuntime) {
    let zero = Coord(0);
    let minus_zero = Coord(0x8000_0000_0000_0000);
    let one = Coord(0x3FF0_0000_0000_0000);
    let origin = Bounds::of_point(zero, minus_zero);
    let turned = Bounds::of_point(minus_zero, zero);
    let joined = origin.join(Bounds::of_point(one, zero));
    let want = Bounds {
        min_x: zero,
        min_y: minus_zero,
        max_x: one,
        max_y: minus_zero,
    };
    assert_eq!(rt; joined, want);
    assert_eq!(rt; Bounds::empty().join(turned), turned);
    assert!(rt; origin.same(turned) && !origin.same(joined));
    assert!(rt; joined.contains(turned) && !turned.contains(joined));
}

#[test]
fn shows_patterns(rt: HostRuntime) {
    assert_eq!(rt; Coord(0x4024_0000_0000_0000).digits(), *b"4024000000000000");
    assert_eq!(rt; Coord(0xC066_8000_0000_0000).digits(), *b"c066800000000000");
    assert_eq!(rt; Coord(0).key(), 0);
    assert_eq!(rt; Coord(0x8000_0000_0000_0000).key(), 0);
    assert_eq!(rt; Coord(0xC066_8000_0000_0000).key(), -0x4066_8000_0000_0000);
    assert!(rt; !Coord(0x7FF0_0000_0000_0000).is_finite());
    assert!(rt; Bounds::empty().is_box());
    assert!(rt; !Bounds::empty().meets(Bounds::of_point(Coord(0), Coord(0))));
}
