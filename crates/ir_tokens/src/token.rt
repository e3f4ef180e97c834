//! Tokens and their kinds.
/// The kinds of tokens. `specs/Tokens.antt` has the spelling of each.
///
/// The kinds are this project's own. They follow the lexical forms of the LLVM Language Reference,
/// section "Identifiers", and those of its sections on metadata and attribute groups.
#[derive(Clone, Copy, Debug, PartialEq, Eq)]
pub enum TokenKind {
    /// `%` and a name.
    Local,
    /// `@` and a name.
    Global,
    /// A name directly followed by `:`, which belongs to the token.
    Label,
    /// `c` directly followed by a quoted text.
    CString,
    /// A text between two `"`.
    Quoted,
    /// Digits, with at most one `-` before them.
    Number,
    /// Any other run of letters, digits, `-`, `$`, `.` and `_`.
    Word,
    /// `#` and digits.
    Hash,
    /// `!` and a run, which may be empty and may hold `\`.
    Meta,
    /// One of `( ) [ ] { } < > , = * : |`, with its byte.
    Sign(u8),
}

/// A token: its kind, and where it is in the text.
#[derive(Clone, Copy, Debug, PartialEq, Eq)]
pub struct Token {
    pub kind: TokenKind,
    /// The offset of its first byte, from 0.
    pub from: u32,
    /// The offset just past its last byte.
    pub to: u32,
}
