//! The value of one property of a feature: its fifteen types, read from the front of lent bytes.
//!
//! No call takes memory: a text stays where it stands. Clauses speak of a value by `type_of` and
//! `content_of`, and of what stands in the bytes by `fits`, `size_in` and `value_in`
//! (`specs/Values.antt`).
//!
//! ```text
//! let (value, size) = read_value(11, b"\x05\x00\x00\x00Malta, and more")?;
//! // value is Value::Str(b"Malta"), and size is 9
//! ```
#![tactic(auto)]

ghost use Rattle.std.specs.Prelude.{◌≡◌, ◌≤◌, ◌<◌, true, false, length, MatchOption};
ghost use Rattle.fgb_values.specs.Values.{Bytes, Shows, content_of, fits, has_length, size_in, type_of, width};

use byteorder::{ByteOrder, LittleEndian};

/// A property's value. Float and Double are patterns; texts are bytes, and are not judged.
/// (FlatGeobuf, header.fbs, ColumnType)
#[derive(Clone, Copy, Debug, PartialEq, Eq)]
pub enum Value<'a> {
    Byte(i8),
    UByte(u8),
    Bool(bool),
    Short(i16),
    UShort(u16),
    Int(i32),
    UInt(u32),
    Long(i64),
    ULong(u64),
    Float(u32),
    Double(u64),
    Str(&'a [u8]),
    Json(&'a [u8]),
    DateTime(&'a [u8]),
    Binary(&'a [u8]),
}

/// The value of a column of this type (0 Byte to 14 Binary) at the front of the bytes, and how many
/// bytes it takes; None exactly where the bytes end inside it.
#[tactic(auto, unfolding(crate::specs::Values::value_in, crate::specs::Values::has_length, crate::specs::Values::width))]
pub fn read_value<'a>(kind: u8, bytes: &'a [u8]) -> Option<(Value<'a>, usize)>
    requires { kind ≤ 14 }
    ensures { let b = bytes.now in
        MatchOption result (fits kind b ≡ false)
        (λ r. (fits kind b ≡ true) × Shows kind b r.0 × (r.1 ≡ size_in kind b) × (r.1 ≤ length b)) }
{
    let size = size_of(kind, bytes)?;
    let value = if kind < 11 {
        read_number(kind, bytes)
    } else {
        text_as(kind, &bytes[4..size])
    };
    Some((value, size))
}

/// How many bytes the value at the front takes, where the bytes hold it whole.
#[tactic(auto, unfolding(crate::specs::Values::fits, crate::specs::Values::size_in, crate::specs::Values::front, crate::specs::Values::width, crate::specs::Values::has_length, flat_layout::specs::Layout::number_at))]
fn size_of(kind: u8, bytes: &[u8]) -> Option<usize>
    requires { kind ≤ 14 }
    ensures { let b = bytes.now in
        MatchOption result (fits kind b ≡ false)
        (λ size. (fits kind b ≡ true) × (size ≡ size_in kind b) × (width kind ≤ size) × (size ≤ length b)) }
{
    let front = width_of(kind);
    if bytes.len() < front {
        return None;
    }
    let size = if kind < 11 {
        front
    } else {
        4 + LittleEndian::read_u32(bytes) as usize
    };
    if bytes.len() < size {
        return None;
    }
    Some(size)
}

/// How many bytes the number in front has: the value itself, or its length.
#[tactic(auto, unfolding(crate::specs::Values::width, crate::specs::Values::has_length))]
fn width_of(kind: u8) -> usize
    requires { kind ≤ 14 }
    ensures { result ≡ width kind }
{
    if kind <= 2 {
        return 1;
    }
    if kind <= 4 {
        return 2;
    }
    if kind <= 6 || kind == 9 || kind >= 11 {
        return 4;
    }
    8
}

/// The value of a type that has no length in front.
#[tactic(auto, unfolding(crate::specs::Values::value_in, crate::specs::Values::width, crate::specs::Values::front, crate::specs::Values::has_length, crate::specs::Values::is_signed, flat_layout::specs::Layout::number_at))]
fn read_number<'a>(kind: u8, bytes: &'a [u8]) -> Value<'a>
    requires fixed { kind ≤ 10 }
    requires whole { width kind ≤ length bytes.now }
    ensures { Shows kind bytes.now result }
{
    match kind {
        0 => Value::Byte(bytes[0].cast_signed()),
        1 => Value::UByte(bytes[0]),
        2 => Value::Bool(bytes[0] != 0),
        3 => Value::Short(LittleEndian::read_i16(bytes)),
        4 => Value::UShort(LittleEndian::read_u16(bytes)),
        5 => Value::Int(LittleEndian::read_i32(bytes)),
        6 => Value::UInt(LittleEndian::read_u32(bytes)),
        7 => Value::Long(LittleEndian::read_i64(bytes)),
        8 => Value::ULong(LittleEndian::read_u64(bytes)),
        9 => Value::Float(LittleEndian::read_u32(bytes)),
        _ => Value::Double(LittleEndian::read_u64(bytes)),
    }
}

/// The bytes behind a length, as a value of this type.
fn text_as<'a>(kind: u8, text: &'a [u8]) -> Value<'a>
    requires least { 11 ≤ kind }
    requires most { kind ≤ 14 }
    ensures kind { type_of result ≡ kind }
    ensures text { content_of result ≡ Bytes text.now }
{
    match kind {
        11 => Value::Str(text),
        12 => Value::Json(text),
        13 => Value::DateTime(text),
        _ => Value::Binary(text),
    }
}

#[cfg(test)]
mod tests;
