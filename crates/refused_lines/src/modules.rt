//! The lines on a module.

ghost use Rattle.std.specs.Prelude.{◌≡◌, ◌≤◌, IfOk, Some, length, unwrap_or, slice_get};
ghost use Rattle.refused_lines.specs.Refusals as spec;

use crate::codes::rule_code;
use crate::line::{line_of, refused_line};
use am_base::{MAX_FILE_BYTES, OutOfMemory};
use am_lists::Bytes;
use ir_lexer::LexError;
use ir_reader::ReadError;
use ir_rules::Fault;
use ir_tokens::Token;
use std::alloc::Global;

/// Returns the line `refused,module,LINE,CODE` for an offset of the text.
fn module_line(alloc: Global, text: &[u8], at: u32, code: &str) -> Result<Bytes, OutOfMemory>
    ensures { IfOk result (λ line. line ≡ spec.module_line text.now at code.now) }
{
    refused_line(alloc, "module", line_of(text, at), code)
}

/// Returns the line for what `lex` refuses. For its `OutOfMemory` there is none, and this answers
/// `OutOfMemory` too. O(n) in the bytes before the fault.
pub fn unlexed_line(alloc: Global, text: &[u8], error: LexError) -> Result<Bytes, OutOfMemory>
    ensures { IfOk result (λ line. spec.unlexed_line text.now error ≡ Some line) }
{
    match error {
        LexError::BadByte { at } => module_line(alloc, text, at, "BadByte"),
        LexError::OpenQuote { at } => module_line(alloc, text, at, "OpenQuote"),
        LexError::OutOfMemory => Err(OutOfMemory),
    }
}

/// The offset of the first byte of a token, from its index; the end of the text past the last one.
fn offset_of(text: &[u8], tokens: &[Token], index: usize) -> u32
    requires { length text.now ≤ MAX_FILE_BYTES }
    ensures { result ≡ spec.offset_of text.now tokens.now index }
{
    match tokens.get(index) {
        Some(token) => token.from,
        None => text.len() as u32,
    }
}

/// Returns the line for what `read` refuses, from the tokens of the text. For its `OutOfMemory`
/// there is none, and this answers `OutOfMemory` too. O(n) in the bytes before the token.
pub fn unread_line(
    alloc: Global,
    text: &[u8],
    tokens: &[Token],
    error: ReadError,
) -> Result<Bytes, OutOfMemory>
    requires { length text.now ≤ MAX_FILE_BYTES }
    ensures { IfOk result (λ line. spec.unread_line text.now tokens.now error ≡ Some line) }
{
    match error {
        ReadError::NotAnItem { token } => {
            let at = offset_of(text, tokens, token as usize);
            module_line(alloc, text, at, "NotAnItem")
        }
        ReadError::OutOfMemory => Err(OutOfMemory),
    }
}

/// The index of the first token of an item, by the item's number.
fn start_of(starts: &[u32], item: usize) -> u32
    ensures { result ≡ unwrap_or (slice_get starts.now item) 0 }
{
    match starts.get(item) {
        Some(start) => *start,
        None => 0,
    }
}

/// Returns the line for the fault of a module, from the tokens of its text and the index of each
/// item's first token. O(n) in the bytes before the item.
pub fn broken_line(
    alloc: Global,
    text: &[u8],
    tokens: &[Token],
    starts: &[u32],
    fault: Fault,
) -> Result<Bytes, OutOfMemory>
    requires { length text.now ≤ MAX_FILE_BYTES }
    ensures { IfOk result (λ line. line ≡ spec.broken_line text.now tokens.now starts.now fault) }
{
    let at = offset_of(text, tokens, start_of(starts, fault.item) as usize);
    module_line(alloc, text, at, rule_code(fault.rule))
}
