// Numbers in a field's value.
ghost use Rattle.std.specs.Prelude.{◌≡◌};
ghost use Rattle.std.specs.Char.{is_ascii_digit};
ghost use Rattle.std.specs.List.{list_all};
ghost use Rattle.range_text.specs.Ranges.{is_number};
ghost use Rattle.range_text.specs.Reading.{number_of};

use std::str;

/// The most digits of a number.
const MOST: usize = 18;

/// Reads 1 to 18 decimal digits.
pub(crate) fn read_number(digits: &[u8]) -> Option<u64>
    ensures { result ≡ number_of digits.now }
{
    if !is_number(digits) {
        return None;
    }
    str::from_utf8(digits).ok()?.parse().ok()
}

/// Whether these are 1 to 18 decimal digits.
#[tactic(auto, using(crate::proofs::Digits::all_digits))]
fn is_number(digits: &[u8]) -> bool
    ensures { result ≡ is_number digits.now }
{
    !digits.is_empty() && digits.len() <= MOST && are_digits(digits)
}

/// Whether these are decimal digits.
fn are_digits(bytes: &[u8]) -> bool
    ensures { result ≡ list_all is_ascii_digit bytes.now }
{
    bytes.iter().all(|byte| byte.is_ascii_digit())
}
