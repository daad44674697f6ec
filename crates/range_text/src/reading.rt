// Ranges, read.
ghost use Rattle.std.specs.Prelude.{◌≡◌, ◌==◌, ◌<◌, ℕ, IfSome, Some, length, position};
ghost use Rattle.std.specs.Option.{option_map};
ghost use Rattle.range_text.specs.Ranges.{Range, SpellsContent, SpellsRange, answer_to};
ghost use Rattle.range_text.specs.Reading.{asked_of, behind, cut, is_unit, parts_of, range_of, told_of};
ghost use Rattle.range_text.specs.declared.answers.ContentRange.{ContentRange as Content};
ghost use Rattle.range_text.specs.declared.answers.RangeAnswer.TheVariants.{Whole};

use crate::answers::{ContentRange, RangeAnswer};
use crate::numbers::read_number;

/// The part of a file of this size that the value of a Range field asks for: `bytes=A-B`, `bytes=A-` or `bytes=-K`, the
/// word in any case of letters and each number of 1 to 18 digits. Any other value asks for the whole file.
pub fn read_range(value: &[u8], size: u64) -> RangeAnswer
    ensures spelled { (range : Range) → SpellsRange value.now range → result ≡ answer_to size range }
    ensures other { ((range : Range) → SpellsRange value.now range → ⊥) → result ≡ Whole }
{
    match read_asked(value) {
        Some(asked) => asked.answer(size),
        None => RangeAnswer::Whole,
    }
}

/// What a range asks for.
#[derive(Clone, Copy)]
enum Asked {
    Between(u64, u64),
    FromOn(u64),
    AtEnd(u64),
}

impl Asked {
    /// The answer of a file of this size.
    fn answer(self, size: u64) -> RangeAnswer
        ensures { result ≡ answer_to size (range_of self) }
    {
        match self {
            Asked::Between(first, last) if last < first => RangeAnswer::Whole,
            Asked::Between(first, _) | Asked::FromOn(first) if first >= size => {
                RangeAnswer::Unsatisfied
            }
            Asked::Between(first, last) => RangeAnswer::Part {
                first,
                last: last.min(size - 1),
            },
            Asked::FromOn(first) => RangeAnswer::Part {
                first,
                last: size - 1,
            },
            Asked::AtEnd(0) => RangeAnswer::Unsatisfied,
            Asked::AtEnd(_) if size == 0 => RangeAnswer::Whole,
            Asked::AtEnd(count) => RangeAnswer::Part {
                first: size.saturating_sub(count),
                last: size - 1,
            },
        }
    }
}

/// Reads the value of a Range field.
fn read_asked(value: &[u8]) -> Option<Asked>
    ensures { result ≡ asked_of value.now }
{
    let (first, last) = split_behind_unit(value, b'=', b'-')?;
    if first.is_empty() {
        return Some(Asked::AtEnd(read_number(last)?));
    }
    let first = read_number(first)?;
    if last.is_empty() {
        return Some(Asked::FromOn(first));
    }
    Some(Asked::Between(first, read_number(last)?))
}

/// What the value of a Content-Range field tells: `bytes A-B/N` with A at most B and B below N, or `bytes */N`, the word
/// in any case of letters and each number of 1 to 18 digits. None where it has neither form.
pub fn read_content_range(value: &[u8]) -> Option<ContentRange>
    ensures some { IfSome result (SpellsContent value.now) }
    ensures only { (range : Content) → SpellsContent value.now range → result ≡ Some range }
{
    let (part, size) = split_behind_unit(value, b' ', b'/')?;
    read_told(part, read_number(size)?)
}

/// What `A-B` or `*` tells of a file of this size.
fn read_told(part: &[u8], size: u64) -> Option<ContentRange>
    ensures { result ≡ told_of part.now size }
{
    if part == b"*".as_slice() {
        return Some(ContentRange::Unsatisfied { size });
    }
    let (first, last) = split_at_byte(part, b'-')?;
    let (first, last) = (read_number(first)?, read_number(last)?);
    if first <= last && last < size {
        Some(ContentRange::Part { first, last, size })
    } else {
        None
    }
}

/// What stands behind the word `bytes` and the byte `front`, up to the first byte `middle`, and what stands behind that.
fn split_behind_unit(value: &[u8], front: u8, middle: u8) -> Option<(&[u8], &[u8])>
    ensures { option_map (λ parts. (parts.0.now, parts.1.now)) result ≡ parts_of front middle value.now }
{
    split_at_byte(behind_unit(value, front)?, middle)
}

/// What stands behind the word `bytes`, in any case of letters, and this byte.
fn behind_unit(value: &[u8], byte: u8) -> Option<&[u8]>
    ensures { option_map (λ rest. rest.now) result ≡ behind byte value.now }
{
    let (unit, rest) = split_at_byte(value, byte)?;
    if is_unit(unit) { Some(rest) } else { None }
}

/// Whether this is the word `bytes`, in any case of letters.
#[tactic(auto, using(crate::proofs::Words::unit_tells))]
fn is_unit(word: &[u8]) -> bool
    ensures { result ≡ is_unit word.now }
{
    word.eq_ignore_ascii_case(b"bytes")
}

/// What stands before the first such byte, and what behind it.
fn split_at_byte(bytes: &[u8], byte: u8) -> Option<(&[u8], &[u8])>
    ensures { option_map (λ parts. (parts.0.now, parts.1.now)) result ≡ cut byte bytes.now }
{
    let at = find_byte(bytes, byte)?;
    Some((&bytes[..at], &bytes[at + 1..]))
}

/// The place of the first such byte.
fn find_byte(bytes: &[u8], byte: u8) -> Option<usize>
    ensures first { result ≡ position (λ c. c == byte) bytes.now }
    ensures inside { IfSome result (λ at. at < length bytes.now) }
{
    bytes.iter().position(|other| *other == byte)
}
