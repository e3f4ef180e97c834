//! The token at the front of a text.
ghost use Rattle.ir_tokens.specs.Bytes as bytes;
ghost use Rattle.ir_tokens.specs.Front as spec;
ghost use Rattle.ir_tokens.specs.Tokens.{NoToken};
ghost use Rattle.ir_lexer.specs.Answer.{Follows};
ghost use Rattle.std.specs.Prelude.{IfNone, IfSome, length, ◌+◌, ◌<◌, ◌≡◌, ◌≤◌, ◌^◌};

use crate::class::Class;
use crate::parts::{begins_colon, is_label_name, is_number, name_len, quoted_len};
use ir_tokens::TokenKind;

fn is_sign(b: u8) -> bool
    ensures { result ≡ bytes.is_sign b }
{
    matches!(
        b,
        b'(' | b')' | b'[' | b']' | b'{' | b'}' | b'<' | b'>' | b',' | b'=' | b'*' | b':' | b'|'
    )
}

fn is_c(run: &[u8]) -> bool
    ensures { result ≡ spec.is_c run.now }
{
    matches!(run, [b'c'])
}

/// The token that begins with the run, if `rest` follows it, and its length in bytes.
#[tactic(auto, unfolding(ir_tokens::specs::Front::run_token))]
fn run_token(run: &[u8], rest: &[u8]) -> (TokenKind, usize)
    requires { length run.now + length rest.now < 2 ^ 62 }
    ensures { result ≡ spec.run_token run.now rest.now }
{
    if begins_colon(rest) && is_label_name(run) {
        return (TokenKind::Label, run.len() + 1);
    }
    let quoted = if is_c(run) { quoted_len(rest) } else { 0 };
    if quoted > 0 {
        return (TokenKind::CString, quoted + 1);
    }
    if is_number(run) {
        (TokenKind::Number, run.len())
    } else {
        (TokenKind::Word, run.len())
    }
}

/// The token that begins with a quoted text of `len` bytes, if `rest` follows it, and its length.
#[tactic(auto, unfolding(ir_tokens::specs::Front::quoted_token))]
fn quoted_token(len: usize, rest: &[u8]) -> Option<(TokenKind, usize)>
    requires { len < 2 ^ 62 }
    ensures { result ≡ spec.quoted_token len rest.now }
{
    if len == 0 {
        None
    } else if begins_colon(rest) {
        Some((TokenKind::Label, len + 1))
    } else {
        Some((TokenKind::Quoted, len))
    }
}

fn behind_mark(kind: TokenKind, len: usize) -> Option<(TokenKind, usize)>
    requires { len < 2 ^ 62 }
    ensures { result ≡ spec.behind_mark kind len }
{
    if len > 0 { Some((kind, len + 1)) } else { None }
}

/// The token that begins with the byte, neither one of a run nor a quote, and its length.
#[tactic(auto, unfolding(ir_tokens::specs::Front::marked_token))]
fn marked_token(first: u8, rest: &[u8]) -> Option<(TokenKind, usize)>
    requires { length rest.now < 2 ^ 62 }
    ensures { result ≡ spec.marked_token first rest.now }
{
    match first {
        b'%' => behind_mark(TokenKind::Local, name_len(rest)),
        b'@' => behind_mark(TokenKind::Global, name_len(rest)),
        b'#' => behind_mark(TokenKind::Hash, Class::Digit.prefix_len(rest)),
        b'!' => Some((TokenKind::Meta, Class::Meta.prefix_len(rest) + 1)),
        _ => {
            if is_sign(first) {
                Some((TokenKind::Sign(first), 1))
            } else {
                None
            }
        }
    }
}

/// The token at the front, and its length in bytes.
#[tactic(auto, unfolding(ir_tokens::specs::Front::token))]
fn token(text: &[u8]) -> Option<(TokenKind, usize)>
    requires { length text.now < 2 ^ 61 }
    ensures { result ≡ spec.token text.now }
{
    match text {
        [] => None,
        [first, rest @ ..] => {
            let run = Class::Run.prefix_len(text);
            if run > 0 {
                let (run, rest) = text.split_at(run);
                Some(run_token(run, rest))
            } else if *first == b'"' {
                let len = quoted_len(text);
                quoted_token(len, &text[len..])
            } else {
                marked_token(*first, rest)
            }
        }
    }
}

/// The kind of the token at the front, and the rest of the text.
pub fn next(text: &[u8]) -> Option<(TokenKind, &[u8])>
    requires { length text.now < 2 ^ 61 }
    ensures some { IfSome result (λ t. Follows text.now t.0 t.1.now) }
    ensures none { IfNone result (NoToken text.now) }
{
    match token(text) {
        None => None,
        Some((kind, len)) => {
            let (_, rest) = text.split_at(len);
            Some((kind, rest))
        }
    }
}
