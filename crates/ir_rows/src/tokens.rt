//! The tokens of a text.

use ir_lexer::{Token, TokenKind};
use std::alloc::{AllocError, Global};

/// The words for the kinds of tokens, in the order of `number_of`.
const KINDS: [&str; 10] = [
    "Local", "Global", "Label", "CString", "Quoted", "Number", "Word", "Hash", "Meta", "Sign",
];

fn number_of(kind: TokenKind) -> usize {
    match kind {
        TokenKind::Local => 0,
        TokenKind::Global => 1,
        TokenKind::Label => 2,
        TokenKind::CString => 3,
        TokenKind::Quoted => 4,
        TokenKind::Number => 5,
        TokenKind::Word => 6,
        TokenKind::Hash => 7,
        TokenKind::Meta => 8,
        TokenKind::Sign(_) => 9,
    }
}

/// Appends a token's kind and its bytes, or where it stands if one of these isn't printable ASCII.
fn put_token(text: &[u8], token: &Token, out: &mut String) -> Result<(), AllocError> {
    let kind = token.kind;
    let (from, to) = (token.from, token.to);
    let spelling = text.get(from as usize..to as usize).unwrap_or(b"");
    if spelling.iter().all(|byte| matches!(*byte, b' '..=b'~')) {
        let spelling = str::from_utf8(spelling).unwrap_or("");
        return writeln!(out, "{kind:?} {spelling}");
    }
    writeln!(out, "{kind:?} {from} {to}")
}

/// A line for each token: its kind and its bytes, or where it stands if one of these isn't
/// printable ASCII.
pub fn listed(alloc: Global, text: &[u8], tokens: &[Token]) -> Result<String, AllocError> {
    let mut out = String::new(alloc);
    for token in tokens {
        put_token(text, token, &mut out)?;
    }
    Ok(out)
}

/// How many of the tokens are of the kind with this number.
fn count_of(tokens: &[Token], number: usize) -> usize {
    tokens
        .iter()
        .filter(|token| number_of(token.kind) == number)
        .count()
}

/// A line for each kind that the tokens have: its word, and how many there are.
pub fn counted(alloc: Global, tokens: &[Token]) -> Result<String, AllocError> {
    let mut out = String::new(alloc);
    for (number, kind) in KINDS.iter().enumerate() {
        let count = count_of(tokens, number);
        if count > 0 {
            writeln!(out, "{kind} {count}")?;
        }
    }
    Ok(out)
}
