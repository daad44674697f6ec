use super::*;

#[test]
fn ranges_are_read(rt: HostRuntime) {
    assert_eq!(rt;
        read_range(b"bytes=90-200", 100),
        RangeAnswer::Part {
            first: 90,
            last: 99
        }
    );
    assert_eq!(rt;
        read_range(b"Bytes=-5", 100),
        RangeAnswer::Part {
            first: 95,
            last: 99
        }
    );
    assert_eq!(rt;
        read_range(b"bytes=3-", 100),
        RangeAnswer::Part { first: 3, last: 99 }
    );
    assert_eq!(rt; read_range(b"bytes=100-", 100), RangeAnswer::Unsatisfied);
    assert_eq!(rt; read_range(b"bytes=-0", 100), RangeAnswer::Unsatisfied);
    assert_eq!(rt; read_range(b"bytes=-5", 0), RangeAnswer::Whole);
}

#[test]
fn other_values_ask_for_the_whole(rt: HostRuntime) {
    let values: [&[u8]; 6] = [
        b"bytes=5-2",
        b"bytes=0-1,3-4",
        b"lines=0-1",
        b"bytes=-",
        b"bytes=0-1000000000000000000",
        b"",
    ];
    for value in values {
        assert_eq!(rt; read_range(value, 100), RangeAnswer::Whole);
    }
}

#[test]
fn content_ranges_are_read(rt: HostRuntime) {
    let part = ContentRange::Part {
        first: 90,
        last: 99,
        size: 100,
    };
    assert_eq!(rt; read_content_range(b"bytes 90-99/100"), Some(part));
    assert_eq!(rt;
        read_content_range(b"BYTES */7"),
        Some(ContentRange::Unsatisfied { size: 7 })
    );
    let values: [&[u8]; 5] = [
        b"bytes 9-3/100",
        b"bytes 3-100/100",
        b"bytes 3-9/*",
        b"bytes=3-9/100",
        b"bytes *",
    ];
    for value in values {
        assert_eq!(rt; read_content_range(value), None);
    }
}

#[test]
fn ranges_are_written(rt: HostRuntime) {
    assert_eq!(rt; write_range(90, 99).bytes(), b"bytes=90-99".as_slice());
    let part = ContentRange::Part {
        first: 0,
        last: 281474976710655,
        size: 281474976710656,
    };
    assert_eq!(rt;
        write_content_range(part).bytes(),
        b"bytes 0-281474976710655/281474976710656".as_slice()
    );
    let none = ContentRange::Unsatisfied { size: 0 };
    assert_eq!(rt; write_content_range(none).bytes(), b"bytes */0".as_slice());
}
