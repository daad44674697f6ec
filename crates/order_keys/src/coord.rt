ghost use Rattle.std.specs.Prelude.{◌≡◌, ◌↔◌, ◌<◌, ◌≤◌, ◌^◌, pos, false, IsTrue, IfSome, IsNone, int_lt, unsigned_abs};
ghost use Rattle.std.specs.Int.{is_power_of_two};
ghost use Rattle.order_keys.specs.Keys.{key_of, is_finite, digits_of, at_most, IsAtMost, same_key, IsExactly};
ghost use Rattle.order_keys.specs.Boxes.{lesser, greater};

use hex::encode_to_slice;

/// The sign bit of a pattern.
pub(crate) const SIGN: u64 = 1 << 63;

/// The eleven exponent bits, at the low end.
const EXPONENT: u64 = 0x7FF;

/// The exponent bits of a pattern from 1 up to 2.
const BIAS: u32 = 1023;

/// The largest magnitude up to which every whole number has a pattern.
pub(crate) const MAX_WHOLE: u64 = 1 << 53;

/// The bit pattern of an IEEE 754 binary64 number.
#[derive(Clone, Copy, Debug, PartialEq, Eq)]
pub struct Coord(pub u64);

impl Coord {
    /// The whole number by which coordinates are compared. Both zeros have key 0.
    #[tactic(auto, using(std::proofs::lemmas::Int::ints), unfolding(crate::specs::Keys::key_of))]
    pub fn key(self) -> i64
        ensures { result ≡ key_of self.0 }
    {
        if self.0 < SIGN {
            self.0 as i64
        } else {
            -((self.0 - SIGN) as i64)
        }
    }

    /// Whether the pattern is that of a number, and not of an infinity or a NaN.
    pub fn is_finite(self) -> bool
        ensures { result ≡ is_finite self.0 }
    {
        self.0 >> 52 & EXPONENT != EXPONENT
    }

    /// The pattern as sixteen lower-case hexadecimal digits, the highest first.
    pub fn digits(self) -> [u8; 16]
        ensures { result ≡ digits_of self.0 }
    {
        let mut digits = [0; 16];
        let _ = encode_to_slice(self.0.to_be_bytes(), &mut digits);
        digits
    }

    /// The exact pattern of a whole number (IEEE 754, 3.4), or None where its magnitude is above 2^53. That of 0
    /// is the positive zero.
    pub fn of_whole(value: i64) -> Option<Coord>
        ensures exact { IfSome result (λ c. IsExactly c.0 (int_lt value (pos 0)) (unsigned_abs value) 1) }
        ensures none { IsNone result ↔ (2 ^ 53 < unsigned_abs value) }
    {
        let number = value.unsigned_abs();
        if number > MAX_WHOLE {
            return None;
        }
        Some(Coord::of_fraction(value < 0, number, 1))
    }

    /// The exact pattern of a number over a power of two, with a minus sign or without. A zero keeps its sign.
    pub(crate) fn of_fraction(is_negative: bool, number: u64, divisor: u64) -> Coord
        requires whole { number ≤ 2 ^ 53 }
        requires power { IsTrue (is_power_of_two divisor) }
        requires small { divisor ≤ 2 ^ 52 }
        ensures { IsExactly result.0 is_negative number divisor }
    {
        let magnitude = magnitude_of(number, divisor);
        if is_negative {
            Coord(magnitude + SIGN)
        } else {
            Coord(magnitude)
        }
    }

    /// Whether the keys are equal.
    #[tactic(auto, using(std::proofs::lemmas::Int::ints), unfolding(crate::specs::Keys::key_of))]
    pub(crate) fn has_same_key(self, other: Coord) -> bool
        ensures value { result ≡ same_key self.0 other.0 }
        ensures fact { IsTrue result ↔ (key_of self.0 ≡ key_of other.0) }
    {
        self.key() == other.key()
    }

    /// The one whose key is smaller, and this one where the keys are equal.
    pub(crate) fn lesser(self, other: Coord) -> Coord
        ensures { result ≡ lesser self other }
    {
        if self.is_at_most(other) { self } else { other }
    }

    /// The one whose key is greater, and this one where the keys are equal.
    pub(crate) fn greater(self, other: Coord) -> Coord
        ensures { result ≡ greater self other }
    {
        if other.is_at_most(self) { self } else { other }
    }

    /// Whether the key is at most the other's.
    #[tactic(auto, using(std::proofs::lemmas::Int::ints), unfolding(crate::specs::Keys::key_of))]
    pub(crate) fn is_at_most(self, other: Coord) -> bool
        ensures value { result ≡ at_most self.0 other.0 }
        ensures fact { IsTrue result ↔ IsAtMost self.0 other.0 }
    {
        self.key() <= other.key()
    }
}

/// The pattern of a number over a power of two. The number is shifted until its highest bit is the one that
/// normal numbers have above their fraction; the sum carries that bit into the exponent.
fn magnitude_of(number: u64, divisor: u64) -> u64
    requires whole { number ≤ 2 ^ 53 }
    requires power { IsTrue (is_power_of_two divisor) }
    requires small { divisor ≤ 2 ^ 52 }
    ensures { IsExactly result false number divisor }
{
    if number == 0 {
        return 0;
    }
    let log = number.ilog2();
    let exponent = BIAS + log - divisor.ilog2();
    let significand = number << (63 - log) >> 11;
    (u64::from(exponent - 1) << 52) + significand
}
