// Pieces that ask for a part of an image.
ghost use Rattle.std.specs.Prelude.{◌≡◌, ◌↔◌, ◌≤◌, ◌^◌, ℕ, IsTrue, IfSome, IfNone};
ghost use Rattle.range_text.specs.Ranges.{range_text};
ghost use Rattle.loop_link.specs.Asks.{AsksFor, FitsIn};

use range_text::{RangeAnswer, read_range, write_range};

/// What stands before the range in such a piece, and behind it.
const FRONT: &[u8] = b"GET /map.fgb HTTP/1.1\r\nHost: 127.0.0.1\r\nRange: ";

const BACK: &[u8] = b"\r\n\r\n";

/// The places that the piece asks for, where it is just a request for places that lie in an image of this size.
pub(crate) fn places_asked(piece: &[u8], size: u64) -> Option<(u64, u64)>
    requires { size ≤ 2 ^ 48 }
    ensures some { IfSome result (λ places. AsksFor size piece.now places.0 places.1) }
    ensures none { IfNone result ((a b : ℕ) → ¬ AsksFor size piece.now a b) }
{
    let value = piece.strip_prefix(FRONT)?.strip_suffix(BACK)?;
    let (first, last) = places_in(value, size);
    if !fits_in(size, first, last) {
        return None;
    }
    if value != write_range(first, last).bytes() {
        return None;
    }
    Some((first, last))
}

/// The places that the value of a Range field asks for, of a file of this size; 0 to 0 where it asks for none.
fn places_in(value: &[u8], size: u64) -> (u64, u64)
    requires { size ≤ 2 ^ 48 }
    ensures { (a b : ℕ) → value.now ≡ range_text a b → FitsIn size a b → (result.0 ≡ a) × (result.1 ≡ b) }
{
    match read_range(value, size) {
        RangeAnswer::Part { first, last } => (first, last),
        RangeAnswer::Whole | RangeAnswer::Unsatisfied => (0, 0),
    }
}

/// Whether the places lie in an image of this size in order, or are 0 to 0 of an empty one.
fn fits_in(size: u64, first: u64, last: u64) -> bool
    ensures { IsTrue result ↔ FitsIn size first last }
{
    if size == 0 {
        return first == 0 && last == 0;
    }
    first <= last && last < size
}
