// The value of a condition: how it is read, and how the values of features stand to it.
ghost use Rattle.std.specs.Prelude.{◌≡◌, pos, IfSome, IfNone, option_map};
ghost use Rattle.std.specs.List.{list_all};
ghost use Rattle.std.specs.Char.{is_ascii_digit};
ghost use Rattle.fgb_values.specs.Values.{content_of};
ghost use Rattle.fgb_where.specs.Values.{IsValue, Sought, is_numeral, numeral_of, whole_of};
ghost use Rattle.fgb_where.specs.Holding.{key_in, number_in, order_in, text_in};
ghost use Rattle.fgb_where.specs.Views.{sought_in};

use crate::class::Class;
use fgb_feature::Value;
use order_keys::{Coord, read_bound};
use std::cmp::Ordering;

/// The most digits of a whole number.
const MAX_DIGITS: usize = 20;

/// A value that features' values are compared to. One of 20 digits passes 64 bits.
#[derive(Clone, Copy)]
pub(crate) enum Wanted<'a> {
    Whole(i128),
    Double(Coord),
    Text(&'a [u8]),
}

/// The value that a text is in a class, if it is one.
pub(crate) fn read_value<'a>(class: Class, text: &'a str) -> Option<Wanted<'a>>
    ensures some { IfSome result (λ wanted. IsValue class text.now (sought_in wanted)) }
    ensures none { IfNone result ((s : Sought) → IsValue class text.now s → ⊥) }
{
    match class {
        Class::Whole => Some(Wanted::Whole(read_whole(text)?)),
        Class::Double => Some(Wanted::Double(read_bound(text).ok()?)),
        Class::Text => Some(Wanted::Text(text.as_bytes())),
    }
}

/// Reads 1 to 20 decimal digits, with a `-` in front or without.
fn read_whole(text: &str) -> Option<i128>
    ensures { result ≡ whole_of text.now }
{
    match text.strip_prefix('-') {
        Some(digits) => Some(-read_numeral(digits)?),
        None => read_numeral(text),
    }
}

/// Reads 1 to 20 decimal digits.
fn read_numeral(digits: &str) -> Option<i128>
    ensures { result ≡ option_map (λ n. pos n) (numeral_of digits.now) }
{
    if !is_numeral(digits) {
        return None;
    }
    digits.parse().ok()
}

/// Whether the text is 1 to 20 decimal digits.
#[tactic(auto, using(order_keys::proofs::Spelling::all_digits))]
fn is_numeral(digits: &str) -> bool
    ensures { result ≡ is_numeral digits.now }
{
    !digits.is_empty() && digits.len() <= MAX_DIGITS && are_digits(digits.as_bytes())
}

fn are_digits(bytes: &[u8]) -> bool
    ensures { result ≡ list_all is_ascii_digit bytes.now }
{
    bytes.iter().all(|b| b.is_ascii_digit())
}

/// How a feature's value stands to the wanted one, where the class of its column is that of the wanted one, and a
/// pattern is finite.
pub(crate) fn compared(class: Option<Class>, value: Value, wanted: &Wanted) -> Option<Ordering>
    ensures { result ≡ order_in class (content_of value.entry) (sought_in wanted.now) }
{
    match (class, wanted) {
        (Some(Class::Whole), Wanted::Whole(wanted)) => Some(whole_in(value)?.cmp(wanted)),
        (Some(Class::Double), Wanted::Double(wanted)) => Some(key_in(value)?.cmp(&wanted.key())),
        (Some(Class::Text), Wanted::Text(wanted)) => Some(text_in(value)?.cmp(wanted)),
        _ => None,
    }
}

/// The whole number that a value says, if it is one. A bool is 0 or 1.
fn whole_in(value: Value) -> Option<i128>
    ensures { result ≡ number_in (content_of value.entry) }
{
    match value {
        Value::Byte(number) => Some(i128::from(number)),
        Value::UByte(number) => Some(i128::from(number)),
        Value::Bool(truth) => Some(i128::from(truth)),
        Value::Short(number) => Some(i128::from(number)),
        Value::UShort(number) => Some(i128::from(number)),
        Value::Int(number) => Some(i128::from(number)),
        Value::UInt(number) => Some(i128::from(number)),
        Value::Long(number) => Some(i128::from(number)),
        Value::ULong(number) => Some(i128::from(number)),
        _ => None,
    }
}

/// The key of a value's pattern, if it has one and that is finite.
fn key_in(value: Value) -> Option<i64>
    ensures { result ≡ key_in (content_of value.entry) }
{
    let coord = match value {
        Value::Float(pattern) => Coord(u64::from(pattern)),
        Value::Double(pattern) => Coord(pattern),
        _ => return None,
    };
    if coord.is_finite() {
        Some(coord.key())
    } else {
        None
    }
}

/// The bytes of a value that has some.
fn text_in<'a>(value: Value<'a>) -> Option<&'a [u8]>
    ensures { option_map (λ text. text.now) result ≡ text_in (content_of value.entry) }
{
    match value {
        Value::Str(text) | Value::Json(text) | Value::DateTime(text) | Value::Binary(text) => {
            Some(text)
        }
        _ => None,
    }
}
