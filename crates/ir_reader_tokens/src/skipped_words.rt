//! The words and marks that are skipped, and the parts after an instruction or a global.
ghost use Rattle.ir_tokens.specs.Bytes.{begins};
ghost use Rattle.ir_grammar.specs.Starts as spec;
ghost use Rattle.ir_grammar.specs.Words as words;
ghost use Rattle.std.specs.List.{list_all};
ghost use Rattle.std.specs.Prelude.{◌≡◌, ◌==◌};

use crate::starts::{is_op, op_word};
use crate::texts::behind_first;
use ir_grammar::{SkipStart, TailStart};
use ir_tokens::{TokenKind, is_digits};

// Stop words.

fn is_item_word(word: &[u8]) -> bool
    ensures { result ≡ words.is_one_of_words spec.item_words word.now }
{
    word == b"source_filename".as_slice()
        || word == b"target".as_slice()
        || word == b"attributes".as_slice()
        || word == b"declare".as_slice()
        || word == b"define".as_slice()
        || word == b"module".as_slice()
        || word == b"uselistorder".as_slice()
        || word == b"uselistorder_bb".as_slice()
}

fn is_global_word(word: &[u8]) -> bool
    ensures { result ≡ words.is_one_of_words spec.global_words word.now }
{
    word == b"global".as_slice()
        || word == b"constant".as_slice()
        || word == b"external".as_slice()
        || word == b"extern_weak".as_slice()
        || word == b"alias".as_slice()
        || word == b"ifunc".as_slice()
}

fn begins_width(word: &[u8]) -> bool
    ensures { result ≡ begins (λ b. b == 105) word.now }
{
    match word {
        [] => false,
        [b, ..] => *b == b'i',
    }
}

fn is_type_word(word: &[u8]) -> bool
    ensures { result ≡ spec.is_type_word word.now }
{
    word == b"void".as_slice()
        || word == b"ptr".as_slice()
        || (begins_width(word) && is_digits(behind_first(word)))
}

fn is_other_op_word(word: &[u8]) -> bool
    ensures { result ≡ words.is_one_of_words spec.other_op_words word.now }
{
    word == b"indirectbr".as_slice()
        || word == b"invoke".as_slice()
        || word == b"callbr".as_slice()
        || word == b"resume".as_slice()
        || word == b"catchret".as_slice()
        || word == b"cleanupret".as_slice()
        || word == b"fence".as_slice()
        || word == b"cmpxchg".as_slice()
        || word == b"atomicrmw".as_slice()
}

fn is_constant_word(word: &[u8]) -> bool
    ensures { result ≡ words.is_one_of_words spec.constant_words word.now }
{
    word == b"true".as_slice()
        || word == b"false".as_slice()
        || word == b"null".as_slice()
        || word == b"undef".as_slice()
        || word == b"poison".as_slice()
        || word == b"zeroinitializer".as_slice()
}

fn is_passing_word(word: &[u8]) -> bool
    ensures { result ≡ words.is_one_of_words spec.passing_words word.now }
{
    word == b"byval".as_slice()
        || word == b"inalloca".as_slice()
        || word == b"preallocated".as_slice()
        || word == b"swifterror".as_slice()
        || word == b"nest".as_slice()
}

#[tactic(auto, unfolding(ir_grammar::specs::Starts::is_stop_word))]
fn is_stop_word(word: &[u8]) -> bool
    ensures { result ≡ spec.is_stop_word word.now }
{
    is_item_word(word)
        || is_global_word(word)
        || is_type_word(word)
        || is_op(op_word(word))
        || is_other_op_word(word)
        || is_constant_word(word)
        || is_passing_word(word)
}

// Words that are skipped.

fn is_attribute_byte(b: u8) -> bool
    ensures { result ≡ spec.is_attribute_byte b }
{
    b.is_ascii_lowercase() || b.is_ascii_digit() || b == b'_'
}

fn are_attribute_bytes(text: &[u8]) -> bool
    ensures { result ≡ list_all spec.is_attribute_byte text.now }
{
    text.iter().all(|b| is_attribute_byte(*b))
}

fn is_attribute_shape(text: &[u8]) -> bool
    ensures { result ≡ spec.is_attribute_shape text.now }
{
    match text {
        [] => false,
        [b, rest @ ..] => b.is_ascii_lowercase() && are_attribute_bytes(rest),
    }
}

#[tactic(auto, unfolding(ir_grammar::specs::Starts::skip_word))]
fn skip_word(word: &[u8]) -> SkipStart
    ensures { result ≡ spec.skip_word word.now }
{
    if word == b"align".as_slice() {
        SkipStart::Align
    } else if is_attribute_shape(word) && !is_stop_word(word) {
        SkipStart::Attribute
    } else {
        SkipStart::Nothing
    }
}

/// The skipped part that a token starts, by the kind and the spelling of the token.
pub fn skip_at(kind: Option<TokenKind>, text: &[u8]) -> SkipStart
    ensures { result ≡ spec.skip_at kind text.now }
{
    match kind {
        Some(TokenKind::Word) => skip_word(text),
        Some(TokenKind::Quoted) => SkipStart::Quoted,
        Some(TokenKind::Hash) => SkipStart::Hash,
        Some(TokenKind::Meta) => SkipStart::Meta,
        _ => SkipStart::Nothing,
    }
}

/// Whether the part is skipped among attributes: each skipped part but a Meta.
pub fn is_skip(start: SkipStart) -> bool
    ensures { result ≡ spec.is_skip start }
{
    !matches!(start, SkipStart::Nothing | SkipStart::Meta)
}

/// Whether the part is skipped in the head of a function, where a Meta is skipped too.
pub fn is_head_skip(start: SkipStart) -> bool
    ensures { result ≡ spec.is_head_skip start }
{
    !matches!(start, SkipStart::Nothing)
}

// Parts after an instruction or a global.

fn tail_word(word: &[u8]) -> TailStart
    ensures { result ≡ spec.tail_word word.now }
{
    if word == b"align".as_slice() {
        TailStart::Align
    } else if word == b"section".as_slice() {
        TailStart::Section
    } else {
        TailStart::Nothing
    }
}

/// The part after a comma that a token starts, by the kind and the spelling of the token.
pub fn behind_comma(kind: Option<TokenKind>, text: &[u8]) -> TailStart
    ensures { result ≡ spec.behind_comma kind text.now }
{
    match kind {
        Some(TokenKind::Word) => tail_word(text),
        Some(TokenKind::Meta) => TailStart::Meta,
        _ => TailStart::Nothing,
    }
}

/// Whether the part may follow an instruction: an alignment or a Meta, each after a comma.
pub fn is_tail(start: TailStart) -> bool
    ensures { result ≡ spec.is_tail start }
{
    matches!(start, TailStart::Align | TailStart::Meta)
}

/// Whether the part may follow a global: an alignment, a section or a Meta, each after a comma, or
/// a Hash.
pub fn is_global_tail(start: TailStart) -> bool
    ensures { result ≡ spec.is_global_tail start }
{
    !matches!(start, TailStart::Nothing)
}
