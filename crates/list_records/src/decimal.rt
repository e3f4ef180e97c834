//! Decimal numbers: digits with at most one `-` before them. Zeros may stand before a number.

ghost use Rattle.std.specs.Prelude.{◌≡◌, ◌<◌, ◌+◌, ◌^◌, IsTrue, Some};
ghost use Rattle.std.specs.Char.{is_ascii_digit};
ghost use Rattle.std.specs.List.{list_all};
ghost use Rattle.std.specs.Option.{SomeIff};
ghost use Rattle.std.specs.Str.Parse.{digits_value};
ghost use Rattle.am_base.specs.Word.{bits_of};
ghost use Rattle.list_records.specs.Numbers as spec;

use am_base::Width;
use ir_tokens::is_digits;

/// A decimal number: its sign and its distance from 0.
#[derive(Clone, Copy, Debug, PartialEq, Eq)]
pub struct Decimal {
    /// Whether a `-` stands before the digits.
    pub negative: bool,
    /// The value of the digits.
    pub magnitude: u64,
}

/// Returns the value of digits; `None` iff it is 2^64 or more.
fn digits_below(digits: &[u8]) -> Option<u64>
    requires { IsTrue (list_all is_ascii_digit digits.now) }
    ensures { SomeIff result (digits_value 10 digits.now < 2 ^ 64) (digits_value 10 digits.now) }
{
    let mut value: u128 = 0;
    'each: for digit in digits {
        value = value * 10 + u128::from(*digit - b'0');
        if value > u128::from(u64::MAX) {
            return None;
        }
    }
    Some(value as u64)
}

/// Returns the value of a text of digits; `None` iff it isn't digits alone, is empty, or has a value
/// of 2^64 or more.
fn magnitude_of(text: &[u8]) -> Option<u64>
    ensures { result ≡ spec.magnitude_of text.now }
{
    if is_digits(text) {
        digits_below(text)
    } else {
        None
    }
}

fn signed_by(negative: bool, magnitude: Option<u64>) -> Option<Decimal>
    ensures { result ≡ spec.signed_by negative magnitude }
{
    match magnitude {
        Some(magnitude) => Some(Decimal {
            negative,
            magnitude,
        }),
        None => None,
    }
}

/// Returns the decimal number that a text is; `None` iff it isn't digits with at most one `-` before
/// them, or its magnitude is 2^64 or more.
pub fn decimal_of(text: &[u8]) -> Option<Decimal>
    ensures { result ≡ spec.decimal_of text.now }
{
    match text {
        [] => None,
        [first, rest @ ..] => {
            if *first == b'-' {
                signed_by(true, magnitude_of(rest))
            } else {
                signed_by(false, magnitude_of(text))
            }
        }
    }
}

/// Returns the decimal number that a text is; `None` iff it isn't one from 1 to `most`.
pub fn number_within(most: u64, text: &[u8]) -> Option<u64>
    ensures { result ≡ spec.number_within most text.now }
{
    match decimal_of(text) {
        Some(d) if !d.negative && 1 <= d.magnitude && d.magnitude <= most => Some(d.magnitude),
        _ => None,
    }
}

/// Returns the number of words of a width.
fn size_of(w: Width) -> u128
    ensures { result ≡ 2 ^ bits_of w }
{
    match w {
        Width::W1 => 2,
        Width::W8 => 256,
        Width::W16 => 65_536,
        Width::W32 => 4_294_967_296,
        Width::W64 => 18_446_744_073_709_551_616,
    }
}

fn word_of_decimal(size: u128, d: Decimal) -> Option<u64>
    requires some { 0 < size }
    requires few { size < 2 ^ 64 + 1 }
    ensures { result ≡ spec.word_of_decimal size (Some d) }
{
    let n = u128::from(d.magnitude);
    if d.negative {
        if n <= size / 2 {
            Some(((size - n) % size) as u64)
        } else {
            None
        }
    } else if n < size {
        Some(d.magnitude)
    } else {
        None
    }
}

/// Returns the word of a width for the decimal number that a text is: the number modulo 2 to the
/// width. `None` iff the text isn't a decimal number that fits the width, as one of its words or as
/// the signed value of one.
pub fn word_within(w: Width, text: &[u8]) -> Option<u64>
    ensures { result ≡ spec.word_within w text.now }
{
    match decimal_of(text) {
        Some(d) => word_of_decimal(size_of(w), d),
        None => None,
    }
}
