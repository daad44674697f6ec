ghost use Rattle.std.specs.Prelude.{◌≡◌, ◌↔◌, ◌∷◌, [], length, false, IfOk, IfSome, IfNone, IfErr, IsTrue, IsErrOf, ◌⊎◌, ◌≢◌};
ghost use Rattle.std.specs.Result.{result_err};
ghost use Rattle.std.specs.List.{list_all};
ghost use Rattle.std.specs.Char.{is_ascii_digit};
ghost use Rattle.order_keys.specs.declared.words.Spelling.TheVariants.{Number};
ghost use Rattle.order_keys.specs.Keys.{is_finite};
ghost use Rattle.order_keys.specs.Boxes.{IsBox};
ghost use Rattle.order_keys.specs.Words.{pattern_of, decimal_of, is_decimal, fraction_of, spelling_of, IsBound, fault_in, SpellsBound, bound_fault, parts_of, corners_fault, SpellsCorners, SpellsBox, SpellsCrossed};

use crate::bounds::Bounds;
use crate::coord::{Coord, MAX_WHOLE};
use hex::decode_to_slice;

/// Why a text is no bound, or no box.
#[derive(Clone, Copy, Debug, PartialEq, Eq)]
pub enum BoundFault {
    /// The text has none of the forms of a bound, its divisor is no power of two, or there are not four parts.
    Form,
    /// The number's magnitude is above 2^53, or its divisor above 2^52.
    Range,
    /// The pattern is an infinity or a NaN.
    NotFinite,
    /// A min comes after its max.
    Order,
}

/// What the text of a bound spells.
#[derive(Clone, Copy, Debug, PartialEq, Eq)]
enum Spelling {
    /// A pattern.
    Pattern(u64),
    /// A number.
    Number(Fraction),
}

/// A number over a divisor, with a minus sign or without.
#[derive(Clone, Copy, Debug, PartialEq, Eq)]
struct Fraction {
    is_negative: bool,
    number: u64,
    divisor: u64,
}

/// The largest divisor that is read.
const MAX_DIVISOR: u64 = 1 << 52;

/// Reads a bound: `x` and sixteen hexadecimal digits of either case, which are its pattern (IEEE 754, 3.4), or an
/// optional `-`, 1 to 16 decimal digits, and optionally a `/` and 1 to 16 digits of a divisor, which are its exact
/// value.
///
/// The faults, in this order: Form where the text has neither form, or the divisor is no power of two; Range where
/// the number is above 2^53 or the divisor above 2^52; NotFinite where the pattern is an infinity or a NaN.
pub fn read_bound(text: &str) -> Result<Coord, BoundFault>
    ensures ok { IfOk result (SpellsBound text.now) }
    ensures only { (c : Coord) → SpellsBound text.now c → result ≡ Ok c }
    ensures fault { result_err result ≡ bound_fault text.now }
    ensures finite { IfOk result (λ c. IsTrue (is_finite c.0)) }
{
    match read_spelling(text) {
        None => Err(BoundFault::Form),
        Some(Spelling::Pattern(pattern)) => {
            let coord = Coord(pattern);
            if coord.is_finite() {
                Ok(coord)
            } else {
                Err(BoundFault::NotFinite)
            }
        }
        Some(Spelling::Number(fraction)) => exact_coord(fraction),
    }
}

/// The coordinate whose exact value is the number over its divisor.
fn exact_coord(fraction: Fraction) -> Result<Coord, BoundFault>
    ensures ok { IfOk result (IsBound (Some (Number fraction))) }
    ensures fault { result_err result ≡ fault_in (Some (Number fraction)) }
{
    if !fraction.divisor.is_power_of_two() {
        return Err(BoundFault::Form);
    }
    if fraction.number > MAX_WHOLE || fraction.divisor > MAX_DIVISOR {
        return Err(BoundFault::Range);
    }
    Ok(Coord::of_fraction(fraction.is_negative, fraction.number, fraction.divisor))
}

/// Reads a box: four bounds with a comma between two of them, in the order min x, min y, max x, max y.
pub fn read_box(text: &str) -> Result<Bounds, BoundFault>
    ensures ok { IfOk result (SpellsBox text.now) }
    ensures only { (b : Bounds) → SpellsBox text.now b → result ≡ Ok b }
    ensures valid { IfOk result IsBox }
    ensures fault { IfSome (corners_fault text.now) (λ fault. result ≡ Err fault) }
    ensures order { IsErrOf result BoundFault.Order ↔ SpellsCrossed text.now }
    ensures each_fault { IfErr result (λ fault. (fault ≡ BoundFault.Order) ⊎ (corners_fault text.now ≡ Some fault)) }
{
    let bounds = read_corners(text)?;
    if bounds.is_ordered() {
        Ok(bounds)
    } else {
        Err(BoundFault::Order)
    }
}

/// Reads the four bounds, in whatever order their keys are.
fn read_corners(text: &str) -> Result<Bounds, BoundFault>
    ensures ok { IfOk result (SpellsCorners text.now) }
    ensures fault { result_err result ≡ corners_fault text.now }
{
    let parts = four_parts(text).ok_or(BoundFault::Form)?;
    Ok(Bounds {
        min_x: read_bound(parts.0)?,
        min_y: read_bound(parts.1)?,
        max_x: read_bound(parts.2)?,
        max_y: read_bound(parts.3)?,
    })
}

/// The parts between the commas, if there are four.
fn four_parts(text: &str) -> Option<(&str, &str, &str, &str)>
    ensures four { IfSome result (λ parts. parts_of text.now ≡ parts.0.now ∷ parts.1.now ∷ parts.2.now ∷ parts.3.now ∷ []) }
    ensures other { IfNone result (length (parts_of text.now) ≢ 4) }
{
    let (min_x, rest) = text.split_once(',')?;
    let (min_y, rest) = rest.split_once(',')?;
    let (max_x, max_y) = rest.split_once(',')?;
    if max_y.contains(',') {
        None
    } else {
        Some((min_x, min_y, max_x, max_y))
    }
}

/// Reads a pattern after an `x`, or a number, with a `-` in front or without.
fn read_spelling(text: &str) -> Option<Spelling>
    ensures { result ≡ spelling_of text.now }
{
    if let Some(digits) = text.strip_prefix('x') {
        return Some(Spelling::Pattern(read_pattern(digits)?));
    }
    if let Some(number) = text.strip_prefix('-') {
        return Some(Spelling::Number(read_fraction(true, number)?));
    }
    Some(Spelling::Number(read_fraction(false, text)?))
}

/// Reads a number without its sign, and after a `/` its divisor, which is 1 where there is no `/`.
fn read_fraction(is_negative: bool, text: &str) -> Option<Fraction>
    ensures { result ≡ fraction_of is_negative text.now }
{
    match text.split_once('/') {
        Some((number, divisor)) => Some(Fraction {
            is_negative,
            number: read_decimal(number)?,
            divisor: read_decimal(divisor)?,
        }),
        None => Some(Fraction {
            is_negative,
            number: read_decimal(text)?,
            divisor: 1,
        }),
    }
}

/// Reads sixteen hexadecimal digits.
fn read_pattern(digits: &str) -> Option<u64>
    ensures { result ≡ pattern_of digits.now }
{
    let mut bytes = [0; 8];
    decode_to_slice(digits, &mut bytes).ok()?;
    Some(u64::from_be_bytes(bytes))
}

/// Reads 1 to 16 decimal digits.
fn read_decimal(digits: &str) -> Option<u64>
    ensures { result ≡ decimal_of digits.now }
{
    if !is_decimal(digits) {
        return None;
    }
    digits.parse().ok()
}

/// Whether the text is 1 to 16 decimal digits.
#[tactic(auto, using(crate::proofs::Spelling::all_digits))]
fn is_decimal(digits: &str) -> bool
    ensures { result ≡ is_decimal digits.now }
{
    !digits.is_empty() && digits.len() <= 16 && are_digits(digits.as_bytes())
}

fn are_digits(bytes: &[u8]) -> bool
    ensures { result ≡ list_all is_ascii_digit bytes.now }
{
    bytes.iter().all(|b| b.is_ascii_digit())
}
