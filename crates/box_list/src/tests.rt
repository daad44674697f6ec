use super::*;
use order_keys::{BoundFault, Bounds, read_bound, read_box};

fn point(x: &str, y: &str) -> Result<Bounds, BoundFault> {
    Ok(Bounds::of_point(read_bound(x)?, read_bound(y)?))
}

fn meets_point(text: &str, x: &str, y: &str) -> Result<bool, BoundFault> {
    Ok(read_boxes(text)?.meets(point(x, y)?))
}

fn count(text: &str) -> Result<usize, BoundFault> {
    Ok(read_boxes(text)?.len())
}

#[test]
fn words(rt: HostRuntime) {
    let cases = [
        ("1,2,1,2", Ok(1)),
        ("1,2,1,2+11,5,11,5", Ok(2)),
        (
            "0,0,0,0+0,0,0,0+0,0,0,0+0,0,0,0+0,0,0,0+0,0,0,0+0,0,0,0+0,0,0,0",
            Ok(8),
        ),
        (
            "0,0,0,0+0,0,0,0+0,0,0,0+0,0,0,0+0,0,0,0+0,0,0,0+0,0,0,0+0,0,0,0+0,0,0,0",
            Err(BoundFault::Form),
        ),
        ("", Err(BoundFault::Form)),
        ("1,2,1,2+", Err(BoundFault::Form)),
        ("1,2,1,2+2,0,1,0+", Err(BoundFault::Order)),
        ("1,2,1,2++1,2,1,9007199254740993", Err(BoundFault::Form)),
    ];
    for (text, want) in cases {
        assert_eq!(rt; count(text), want, "at {text}");
    }
}

#[test]
fn one_of_two_is_met(rt: HostRuntime) {
    let both = "30,-1,33,1+170,-1,178,1";
    let cases = [
        ("33", "0", Ok(true)),
        ("170", "-1", Ok(true)),
        ("100", "0", Ok(false)),
        ("30", "2", Ok(false)),
    ];
    for (x, y, want) in cases {
        assert_eq!(rt; meets_point(both, x, y), want, "at {x}");
    }
}

#[test]
fn boxes_are_added(rt: HostRuntime) -> Result<(), BoundFault> {
    let first = read_box("1,2,1,2")?;
    let other = read_box("11,5,11,5")?;
    let boxes = Boxes::one(first).with(other).ok_or(BoundFault::Form)?;
    assert_eq!(rt; boxes.len(), 2);
    let second = if boxes.len() > 1 { boxes.get(1) } else { first };
    assert_eq!(rt; second, other);
    Ok(())
}
