//! Numbers in words: 1 to 10 digits without a leading zero, or `0`.

ghost use Rattle.std.specs.Prelude.{◌≡◌, ◌≤◌, ◌<◌, ◌^◌, IsTrue, length};
ghost use Rattle.std.specs.Char.{is_ascii_digit};
ghost use Rattle.std.specs.List.{list_all};
ghost use Rattle.std.specs.Str.Parse.{digits_value};
ghost use Rattle.command_words.specs.Words as spec;

use am_base::MAX_BUDGET;
use ir_tokens::is_digits;

/// The value of at most ten digits.
fn value_of(digits: &[u8]) -> u64
    requires digits { IsTrue (list_all is_ascii_digit digits.now) }
    requires few { length digits.now ≤ 10 }
    ensures { result ≡ digits_value 10 digits.now }
{
    let mut value: u64 = 0;
    'each: for digit in digits {
        value = value * 10 + u64::from(*digit - b'0');
    }
    value
}

/// Whether the text begins with a zero and goes on.
fn has_leading_zero(text: &[u8]) -> bool
    ensures { result ≡ spec.has_leading_zero text.now }
{
    match text {
        [first, _, ..] => *first == b'0',
        _ => false,
    }
}

/// The number that a word spells.
pub(crate) fn number_in(word: &str) -> Option<u64>
    ensures { result ≡ spec.number_in word.now }
{
    let text = word.as_bytes();
    if is_digits(text) && text.len() <= 10 && !has_leading_zero(text) {
        Some(value_of(text))
    } else {
        None
    }
}

/// The budget that a word spells: a number from 1 to `MAX_BUDGET`.
pub(crate) fn budget_in(word: &str) -> Option<u64>
    ensures { result ≡ spec.budget_in word.now }
{
    match number_in(word) {
        Some(n) if 1 <= n && n <= MAX_BUDGET => Some(n),
        _ => None,
    }
}
