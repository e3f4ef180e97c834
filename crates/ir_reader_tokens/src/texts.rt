//! The values of spellings: quoted texts, names and numbers.
ghost use Rattle.ir_tokens.specs.Bytes as bytes;
ghost use Rattle.ir_tokens.specs.Tokens.{is_small_number};
ghost use Rattle.ir_tokens.specs.Names as names;
ghost use Rattle.ir_grammar.specs.Words as spec;
ghost use Rattle.ir_reader_tokens.specs.Reads.{Gives};
ghost use Rattle.std.specs.Char.{digit_value, is_ascii_digit, is_ascii_hexdigit};
ghost use Rattle.std.specs.List.{list_all};
ghost use Rattle.std.specs.Option.{SomeIff};
ghost use Rattle.std.specs.Prelude.{◌≡◌, ◌≤◌, ◌<◌, ◌^◌, ◌-◌, ◌+◌, ◌*◌, None, Some, drop};
ghost use Rattle.std.specs.Prelude.{if◌then◌else◌, length, neg_ℤ, pos, slice_index, take, IfOk};
ghost use Rattle.std.specs.Prelude.{IsTrue};
ghost use Rattle.std.specs.Str.Parse.{digits_value};

use crate::error::PartError;
use am_lists::{Bytes, Items};
use ir_tokens::{is_digits, small_number};
use ir_tree::Name;
use std::alloc::{AllocError, Global};

/// The text without its first byte.
pub fn behind_first(text: &[u8]) -> &[u8]
    ensures { result.now ≡ drop 1 text.now }
{
    match text {
        [] => &[],
        [_, rest @ ..] => rest,
    }
}

/// The text without its last byte.
pub fn before_last(text: &[u8]) -> &[u8]
    ensures { result.now ≡ take (length text.now - 1) text.now }
{
    if text.is_empty() {
        text
    } else {
        &text[..text.len() - 1]
    }
}

/// The bytes between the two quotes.
fn inside_quotes(text: &[u8]) -> &[u8]
    ensures { result.now ≡ take (length text.now - 2) (drop 1 text.now) }
{
    before_last(behind_first(text))
}

// Quoted texts.

fn is_double(text: &[u8]) -> bool
    ensures { result ≡ names.is_double text.now }
{
    match text {
        [b, c, ..] => *b == b'\\' && *c == b'\\',
        _ => false,
    }
}

fn is_hexadecimal(text: &[u8]) -> bool
    ensures { result ≡ names.is_hexadecimal text.now }
{
    match text {
        [b, h, l, ..] => *b == b'\\' && h.is_ascii_hexdigit() && l.is_ascii_hexdigit(),
        _ => false,
    }
}

/// The length of the escape at the front without its first byte; 0 if there is none.
fn escape_len(text: &[u8]) -> usize
    ensures { result ≡ names.escape_len text.now }
{
    if is_double(text) {
        1
    } else if is_hexadecimal(text) {
        2
    } else {
        0
    }
}

fn digit_value(digit: u8) -> u8
    requires { IsTrue (is_ascii_hexdigit digit) }
    ensures value { result ≡ digit_value digit }
    ensures below { result < 16 }
{
    match digit {
        b'0'..=b'9' => digit - b'0',
        b'A'..=b'F' => digit - b'A' + 10,
        _ => digit - b'a' + 10,
    }
}

/// The value of the first byte, or of the escape that it starts.
fn front_value(text: &[u8]) -> u8
    requires { 0 < length text.now }
    ensures { result ≡ names.front_value (slice_index text.now 0) (drop 1 text.now) }
{
    match text {
        [b, h, l, ..] => {
            if *b == b'\\' && h.is_ascii_hexdigit() && l.is_ascii_hexdigit() {
                16 * digit_value(*h) + digit_value(*l)
            } else {
                *b
            }
        }
        _ => text[0],
    }
}

/// The value of the text between two quotes.
#[tactic(auto, unfolding(ir_tokens::specs::Names::unescaped))]
fn unescaped(alloc: Global, text: &[u8]) -> Result<Bytes, AllocError>
    ensures { IfOk result (λ value. value ≡ names.unescaped text.now) }
{
    let mut value = Items::new(alloc);
    let mut left = text;
    let mut behind: usize = 0;
    'each: while !left.is_empty() {
        if behind > 0 {
            behind -= 1;
        } else {
            value.push(front_value(left))?;
            behind = escape_len(left);
        }
        left = behind_first(left);
    }
    Ok(value)
}

/// The value of a quoted text.
pub fn quoted_value(alloc: Global, text: &[u8]) -> Result<Bytes, AllocError>
    ensures { IfOk result (λ value. value ≡ names.quoted_value text.now) }
{
    unescaped(alloc, inside_quotes(text))
}

// Names.

fn begins_quoted(text: &[u8]) -> bool
    ensures { result ≡ bytes.begins bytes.is_quote text.now }
{
    match text {
        [] => false,
        [b, ..] => *b == b'"',
    }
}

/// The value of digits, if it is below 2^32.
#[tactic(auto, using(crate::proofs::Names::small_value))]
fn small_value(text: &[u8]) -> Option<u32>
    ensures { SomeIff result (IsTrue (is_small_number text.now)) (digits_value 10 text.now) }
{
    small_number(text)
}

/// The name that a run or a quoted text denotes.
#[tactic(auto, using(crate::proofs::Names::number_named, crate::proofs::Names::not_named, crate::proofs::Names::quoted_named, crate::proofs::Names::plain_named))]
pub fn name_of(alloc: Global, text: &[u8]) -> Result<Name, PartError>
    ensures { Gives (spec.name_of text.now) result }
{
    if let Some(n) = small_value(text) {
        return Ok(Name::Number(n));
    }
    if is_digits(text) {
        return Err(PartError::NotHere);
    }
    if begins_quoted(text) {
        return Ok(Name::Text(quoted_value(alloc, text)?));
    }
    Ok(Name::Text(Bytes::from_slice(alloc, text)?))
}

// Numbers.

/// The value of the digits, if it is at most `most`.
fn digits_up_to(digits: &[u8], most: u128) -> Option<u128>
    requires digits { IsTrue (list_all is_ascii_digit digits.now) }
    requires most { most ≤ 2 ^ 127 }
    ensures { SomeIff result (digits_value 10 digits.now ≤ most) (digits_value 10 digits.now) }
{
    let mut value: u128 = 0;
    'each: for digit in digits {
        if value > most / 10 {
            return None;
        }
        value = value * 10 + u128::from(*digit - b'0');
        if value > most {
            return None;
        }
    }
    Some(value)
}

fn begins_minus(text: &[u8]) -> bool
    ensures { result ≡ bytes.begins spec.is_minus text.now }
{
    match text {
        [] => false,
        [b, ..] => *b == b'-',
    }
}

fn digits_of(text: &[u8]) -> &[u8]
    ensures { result.now ≡ spec.digits_of text.now }
{
    if begins_minus(text) {
        behind_first(text)
    } else {
        text
    }
}

/// The absolute value of a number, if the number is from `-least` to `most`.
fn magnitude_within(text: &[u8], least: u128, most: u128) -> Option<u128>
    requires least { least ≤ 2 ^ 127 }
    requires most { most ≤ 2 ^ 127 }
    ensures { SomeIff result (IsTrue (spec.is_from least most text.now)) (spec.magnitude text.now) }
{
    let digits = digits_of(text);
    if !is_digits(digits) {
        return None;
    }
    let limit = if begins_minus(text) { least } else { most };
    digits_up_to(digits, limit)
}

fn negated(n: u128) -> i128
    requires { n ≤ 2 ^ 127 }
    ensures { result ≡ neg_ℤ (pos n) }
{
    if n == 0 { 0 } else { -((n - 1) as i128) - 1 }
}

/// The value of a number, if it fits 128 signed bits.
pub fn integer_of(text: &[u8]) -> Option<i128>
    ensures { result ≡ (if spec.is_from (2 ^ 127) (2 ^ 127 - 1) text.now then Some
        (spec.whole_value text.now) else None) }
{
    match magnitude_within(text, 1 << 127, (1 << 127) - 1) {
        None => None,
        Some(n) => {
            if begins_minus(text) {
                Some(negated(n))
            } else {
                Some(n as i128)
            }
        }
    }
}

/// The value of a number of elements, if it is at most 2^32.
pub fn length_of(text: &[u8]) -> Option<u64>
    ensures { result
        ≡ (if spec.is_from 0 (2 ^ 32) text.now then Some (spec.magnitude text.now) else None) }
{
    match magnitude_within(text, 0, 1 << 32) {
        None => None,
        Some(n) => Some(n as u64),
    }
}
