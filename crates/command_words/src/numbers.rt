// Numbers in words.
ghost use Rattle.std.specs.Prelude.{◌≡◌, ◌≤◌, ℕ, IfSome, IsSomeAnd};
ghost use Rattle.std.specs.Char.{is_ascii_digit};
ghost use Rattle.std.specs.List.{list_all};
ghost use Rattle.command_words.specs.Words.{GivesNumber, SpellsNumber, SpellsWithin, is_number, texts};

use crate::given::value_of;

/// The number from `least` to `most` that the words give the option of this name.
pub(crate) fn number_of(words: &[&str], name: &str, least: u64, most: u64) -> Option<u64>
    ensures some { IfSome result (GivesNumber (texts words.now) name.now least most) }
    ensures only { (n : ℕ) → GivesNumber (texts words.now) name.now least most n → IsSomeAnd result (λ r. r ≡ n) }
{
    read_within(value_of(words, name)?, least, most)
}

/// Reads a number from `least` to `most`.
pub(crate) fn read_within(digits: &str, least: u64, most: u64) -> Option<u64>
    ensures some { IfSome result (SpellsWithin digits.now least most) }
    ensures only { (n : ℕ) → SpellsWithin digits.now least most n → IsSomeAnd result (λ r. r ≡ n) }
{
    let number = read_number(digits)?;
    if number < least || most < number {
        return None;
    }
    Some(number)
}

/// Reads 1 to 10 decimal digits.
fn read_number(digits: &str) -> Option<u64>
    ensures some { IfSome result (SpellsNumber digits.now) }
    ensures none { (n : ℕ) → SpellsNumber digits.now n → IsSomeAnd result (λ r. r ≡ n) }
{
    if !is_number(digits) {
        return None;
    }
    digits.parse().ok()
}

/// Whether the text is 1 to 10 decimal digits.
#[tactic(auto, using(order_keys::proofs::Spelling::all_digits))]
fn is_number(digits: &str) -> bool
    ensures { result ≡ is_number digits.now }
{
    !digits.is_empty() && digits.len() <= 10 && are_digits(digits.as_bytes())
}

/// Whether each byte is a decimal digit.
fn are_digits(bytes: &[u8]) -> bool
    ensures { result ≡ list_all is_ascii_digit bytes.now }
{
    bytes.iter().all(|byte| byte.is_ascii_digit())
}
