ghost use Rattle.std.specs.Prelude.{◌≤◌};

use super::*;

/// What the bytes give, and whether they give nothing without the last of them.
fn whole_and_cut<'a>(kind: u8, bytes: &'a [u8]) -> (Option<(Value<'a>, usize)>, bool)
    requires { kind ≤ 14 }
{
    let cut = &bytes[..bytes.len().saturating_sub(1)];
    (read_value(kind, bytes), read_value(kind, cut).is_none())
}

#[test]
fn small_types(rt: HostRuntime) {
    let value = Value::Byte(-2);
    assert_eq!(rt; whole_and_cut(0, &[254]), (Some((value, 1)), true));
    let value = Value::UByte(254);
    assert_eq!(rt; whole_and_cut(1, &[254]), (Some((value, 1)), true));
    let value = Value::Bool(true);
    assert_eq!(rt; whole_and_cut(2, &[2]), (Some((value, 1)), true));
    assert_eq!(rt; read_value(2, &[0]), Some((Value::Bool(false), 1)));
    let value = Value::Short(-32767);
    assert_eq!(rt; whole_and_cut(3, &[1, 128]), (Some((value, 2)), true));
    let value = Value::UShort(32769);
    assert_eq!(rt; whole_and_cut(4, &[1, 128]), (Some((value, 2)), true));
}

#[test]
fn wide_types(rt: HostRuntime) {
    let value = Value::Int(519);
    assert_eq!(rt; whole_and_cut(5, &[7, 2, 0, 0]), (Some((value, 4)), true));
    let value = Value::Int(-1);
    assert_eq!(rt; whole_and_cut(5, &[255; 4]), (Some((value, 4)), true));
    let value = Value::UInt(4294967295);
    assert_eq!(rt; whole_and_cut(6, &[255; 4]), (Some((value, 4)), true));
    let value = Value::Long(-2);
    let bytes = [254, 255, 255, 255, 255, 255, 255, 255];
    assert_eq!(rt; whole_and_cut(7, &bytes), (Some((value, 8)), true));
    let value = Value::ULong(0xffff_ffff_ffff_fffe);
    assert_eq!(rt; whole_and_cut(8, &bytes), (Some((value, 8)), true));
    let value = Value::Float(0x3f80_0000);
    assert_eq!(rt;
        whole_and_cut(9, &[0, 0, 128, 63]),
        (Some((value, 4)), true)
    );
    let value = Value::Double(0x3ff0_0000_0000_0000);
    assert_eq!(rt;
        whole_and_cut(10, &[0, 0, 0, 0, 0, 0, 240, 63]),
        (Some((value, 8)), true)
    );
}

#[test]
fn texts(rt: HostRuntime) {
    let malta = [5, 0, 0, 0, 0x4d, 0x61, 0x6c, 0x74, 0x61];
    assert_eq!(rt;
        whole_and_cut(11, &malta),
        (Some((Value::Str(b"Malta"), 9)), true)
    );
    let brackets = [2, 0, 0, 0, 0x7b, 0x7d];
    assert_eq!(rt;
        whole_and_cut(12, &brackets),
        (Some((Value::Json(b"{}"), 6)), true)
    );
    let year = [4, 0, 0, 0, 0x31, 0x39, 0x36, 0x34];
    assert_eq!(rt;
        whole_and_cut(13, &year),
        (Some((Value::DateTime(b"1964"), 8)), true)
    );
    let value = Value::Binary(&[255, 0]);
    assert_eq!(rt;
        whole_and_cut(14, &[2, 0, 0, 0, 255, 0]),
        (Some((value, 6)), true)
    );
    // no bytes, with others behind; lengths past the end; a length that is cut
    assert_eq!(rt;
        read_value(14, &[0, 0, 0, 0, 9]),
        Some((Value::Binary(&[]), 4))
    );
    assert!(rt; read_value(11, &[6, 0, 0, 0, 0x4d, 0x61, 0x6c, 0x74, 0x61]).is_none());
    assert!(rt; read_value(11, &[255, 255, 255, 255, 0x4d]).is_none());
    assert!(rt; read_value(12, &[0, 0, 0]).is_none());
}
