//! Cuts a text into tokens.
ghost use Rattle.ir_tokens.specs.Bytes as bytes;
ghost use Rattle.ir_tokens.specs.Front as spec;
ghost use Rattle.ir_tokens.specs.Tokens.{HasTokens};
ghost use Rattle.ir_lexer.specs.Answer.{NamesFault, NamesFront};
ghost use Rattle.std.specs.Prelude.{IfErr, IfOk, length, ◌<◌, ◌≡◌, ◌≤◌};

use crate::error::LexError;
use crate::front::next;
use am_base::MAX_FILE_BYTES;
use ir_tokens::Token;
use std::alloc::Global;

fn is_separator(b: u8) -> bool
    ensures { result ≡ bytes.is_separator b }
{
    matches!(b, b'\t' | b'\n' | b'\r' | b' ')
}

/// The text without the separators and comments at its front.
#[tactic(auto, unfolding(ir_tokens::specs::Front::skip))]
fn skip(mut text: &[u8]) -> &[u8]
    ensures value { result.now ≡ spec.skip text.entry.now }
    ensures within { length result.now ≤ length text.entry.now }
{
    let mut is_comment = false;
    'each: while let [b, rest @ ..] = text {
        if is_comment {
            is_comment = *b != b'\n';
        } else if *b == b';' {
            is_comment = true;
        } else if !is_separator(*b) {
            return text;
        }
        text = rest;
    }
    &[]
}

/// The fault of the byte at the front, which begins no token.
fn fault(left: &[u8], at: u32) -> LexError
    requires { 0 < length left.now }
    ensures { NamesFront left.now at result }
{
    if left[0] == b'"' {
        LexError::OpenQuote { at }
    } else {
        LexError::BadByte { at }
    }
}

/// Cuts a text of at most `MAX_FILE_BYTES` bytes into its tokens, in the order of the text.
///
/// Returns the one list of tokens that the text has, each the longest at its offset, or the first
/// fault, with the offset of its byte from 0: `OpenQuote` at a `"` that no later one closes, and
/// `BadByte` at any other byte where no token, separator or comment begins. `OutOfMemory` may come
/// at any text. O(n) in the bytes; none is copied.
///
/// The rules are this project's own. Names, numbers and quoted texts follow the LLVM Language
/// Reference, section "Identifiers".
pub fn lex(alloc: Global, text: &[u8]) -> Result<Vec<Token>, LexError>
    requires { length text.now ≤ MAX_FILE_BYTES }
    ensures tokens { IfOk result (λ tokens. HasTokens text.now tokens.items) }
    ensures fault { IfErr result (NamesFault text.now) }
{
    let mut tokens = Vec::new(alloc);
    let mut rest = text;
    'turns: loop {
        let left = skip(rest);
        if left.is_empty() {
            return Ok(tokens);
        }
        let from = (text.len() - left.len()) as u32;
        match next(left) {
            None => return Err(fault(left, from)),
            Some((kind, after)) => {
                let to = (text.len() - after.len()) as u32;
                let token = Token { kind, from, to };
                tokens.push(token)?;
                rest = after;
            }
        }
    }
}
