//! The parts of tokens: runs, quoted texts and names.
ghost use Rattle.ir_tokens.specs.Bytes.{begins, is_colon, is_quote};
ghost use Rattle.ir_tokens.specs.Front as spec;
ghost use Rattle.ir_tokens.specs.Tokens.{is_small_number};
ghost use Rattle.std.specs.Char.{is_ascii_digit};
ghost use Rattle.std.specs.Prelude.{length, ◌<◌, ◌≡◌, ◌≤◌, ◌^◌};

use crate::class::Class;
use ir_tokens::{is_digits, small_number};

/// The length in bytes of the quoted text at the front; 0 if there is none.
#[tactic(auto, unfolding(ir_tokens::specs::Front::quoted_len))]
pub fn quoted_len(text: &[u8]) -> usize
    requires { length text.now < 2 ^ 62 }
    ensures value { result ≡ spec.quoted_len text.now }
    ensures within { result ≤ length text.now }
{
    match text {
        [b'"', body @ ..] => {
            let len = Class::Body.prefix_len(body);
            if len < body.len() { len + 2 } else { 0 }
        }
        _ => 0,
    }
}

/// Whether the text begins with a `"`.
pub fn begins_quote(text: &[u8]) -> bool
    ensures { result ≡ begins is_quote text.now }
{
    matches!(text, [b'"', ..])
}

/// Whether the text begins with a `:`.
pub fn begins_colon(text: &[u8]) -> bool
    ensures { result ≡ begins is_colon text.now }
{
    matches!(text, [b':', ..])
}

/// Whether the text begins with a digit.
fn begins_digit(text: &[u8]) -> bool
    ensures { result ≡ begins is_ascii_digit text.now }
{
    match text {
        [b, ..] => b.is_ascii_digit(),
        [] => false,
    }
}

/// Whether the run is the digits of a number below 2^32.
fn is_small_number(text: &[u8]) -> bool
    ensures { result ≡ is_small_number text.now }
{
    small_number(text).is_some()
}

/// Whether the run may be the name after a `%` or `@`.
fn is_name(run: &[u8]) -> bool
    ensures { result ≡ spec.is_name run.now }
{
    is_small_number(run) || !begins_digit(run)
}

/// Whether the run may be the name before the `:` of a label.
pub fn is_label_name(run: &[u8]) -> bool
    ensures { result ≡ spec.is_label_name run.now }
{
    is_small_number(run) || !is_digits(run)
}

/// Whether the run is digits, with at most one `-` before them.
pub fn is_number(run: &[u8]) -> bool
    ensures { result ≡ spec.is_number run.now }
{
    match run {
        [] => false,
        [first, rest @ ..] => is_digits(run) || (*first == b'-' && is_digits(rest)),
    }
}

/// The length in bytes of the name at the front, a run or a quoted text; 0 if there is none.
#[tactic(auto, unfolding(ir_tokens::specs::Front::name_len))]
pub fn name_len(text: &[u8]) -> usize
    requires { length text.now < 2 ^ 62 }
    ensures value { result ≡ spec.name_len text.now }
    ensures within { result ≤ length text.now }
{
    if begins_quote(text) {
        return quoted_len(text);
    }
    let len = Class::Run.prefix_len(text);
    if is_name(&text[..len]) { len } else { 0 }
}
