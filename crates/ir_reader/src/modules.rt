//! Whole modules, and single instructions.
ghost use Rattle.ir_reader_tokens.specs.Cursor.{LieIn};
ghost use Rattle.ir_tokens.specs.Tokens.{HasTokens, Rise};
ghost use Rattle.ir_grammar.specs.Lexeme.{lexemes};
ghost use Rattle.ir_grammar.specs.Modules as spec;
ghost use Rattle.ir_reader.specs.Answers.{IsBare, IsNoInstruction, IsReadAt, IsWholeInstruction};
ghost use Rattle.ir_reader.specs.Answers.{NamesUnread, SaysWhole};
ghost use Rattle.std.specs.Prelude.{[], ◌++◌, ◌<◌, ◌≡◌, ◌≤◌, ◌^◌, ◌∷◌, IfErr, IfOk, OnOk, Some};
ghost use Rattle.std.specs.Prelude.{length, ℕ};

use crate::error::{InstrError, ReadError};
use crate::items::item;
use am_base::MAX_FILE_BYTES;
use am_lists::Items;
use ir_lexer::{LexError, lex};
use ir_reader_tokens::{Cursor, PartError};
use ir_tokens::Token;
use ir_tree::{Item, Module};
use std::alloc::{AllocError, Global};

/// The items of a module, and where each begins.
#[derive(Drop)]
pub struct Reading {
    pub module: Module,
    /// The index of each item's first token, from 0, in the order of the items.
    pub starts: Items<u32>,
}

// Where an item is allowed.

fn is_inner(found: &Option<Item>) -> bool
    ensures { result ≡ spec.is_inner found.now }
{
    matches!(found, Some(Item::Label(_) | Item::Instr(_, _) | Item::End))
}

fn is_allowed(inside: bool, found: &Option<Item>) -> bool
    ensures { result ≡ spec.is_allowed inside found.now }
{
    let inner = is_inner(found);
    match inside {
        true => inner,
        false => !inner,
    }
}

fn leaves_open(found: &Option<Item>) -> bool
    ensures { result ≡ spec.leaves_open found.now }
{
    matches!(
        found,
        Some(Item::Head(_, _, _) | Item::Label(_) | Item::Instr(_, _))
    )
}

// Whole modules.

/// The next item, whose first token has the index `at`, if it is allowed.
fn next_item(
    alloc: Global,
    cursor: &mut Cursor<'_>,
    inside: bool,
    at: u32,
) -> Result<Option<Item>, ReadError>
    ensures { IsReadAt inside at cursor.old result cursor.new }
{
    match item(alloc, cursor) {
        Err(PartError::OutOfMemory) => Err(ReadError::OutOfMemory),
        Err(PartError::NotHere) => Err(ReadError::NotAnItem { token: at }),
        Ok(found) => {
            if is_allowed(inside, &found) {
                Ok(found)
            } else {
                Err(ReadError::NotAnItem { token: at })
            }
        }
    }
}

/// Keeps the item and the index of its first token, if the tree has it.
fn keep(
    items: &mut Items<Item>,
    starts: &mut Items<u32>,
    found: Option<Item>,
    at: u32,
) -> Result<(), AllocError>
    ensures items { OnOk result (items.new ≡ items.old ++ spec.kept ((found, at) ∷ [])) }
    ensures starts { OnOk result (starts.new ≡ starts.old ++ spec.kept_starts ((found, at) ∷ [])) }
{
    if let Some(x) = found {
        items.push(x)?;
        starts.push(at)?;
    }
    Ok(())
}

/// The offset of the end of a token.
fn end_of(token: &Token) -> u32
    ensures { result ≡ token.now.to }
{
    token.to
}

/// The number of tokens. Each has a byte at least, so it is at most the end of the last one.
fn count(tokens: &[Token]) -> u32
    requires { (end : ℕ) × Rise 0 tokens.now end }
    ensures { result ≡ length tokens.now }
{
    match tokens {
        [] => 0,
        [.., last] => {
            let _end = end_of(last);
            tokens.len() as u32
        }
    }
}

/// Reads the items of a module, with the index of each item's first token.
///
/// `tokens` are those of `text`, as `lex` returns them. `NotAnItem` is returned iff the text isn't
/// a module: it has the index of the first token at which no allowed item begins, or the number of
/// tokens if a function is still open after them. `OutOfMemory` may come at any text. O(n) in the
/// tokens.
///
/// LLVM Language Reference, "Module Structure". Which items there are is this project's own.
pub fn read(alloc: Global, text: &[u8], tokens: &[Token]) -> Result<Reading, ReadError>
    requires { HasTokens text.now tokens.now }
    ensures items { IfOk result
        (λ r. spec.IsModule (lexemes text.now tokens.now) r.module.items r.starts) }
    ensures unread { IfErr result (λ e. NamesUnread (lexemes text.now tokens.now) e) }
{
    let all = count(tokens);
    let mut cursor = Cursor::new(text, tokens);
    let mut items = Items::new(alloc);
    let mut starts = Items::new(alloc);
    let mut inside = false;
    'turns: while cursor.left() > 0 {
        let at = all - cursor.left() as u32;
        let found = next_item(alloc, &mut cursor, inside, at)?;
        inside = leaves_open(&found);
        keep(&mut items, &mut starts, found, at)?;
    }
    if inside {
        return Err(ReadError::NotAnItem { token: all });
    }
    Ok(Reading {
        module: Module { items },
        starts,
    })
}

// One instruction.

fn bare_instruction(found: Option<Item>) -> Result<Item, InstrError>
    ensures { IsBare found result }
{
    match found {
        Some(Item::Instr(None, op)) => Ok(Item::Instr(None, op)),
        _ => Err(InstrError::NotAnInstruction),
    }
}

fn whole_instruction(alloc: Global, text: &[u8], tokens: &[Token]) -> Result<Item, InstrError>
    requires { LieIn text.now tokens.now }
    ensures { SaysWhole (lexemes text.now tokens.now) result }
{
    let mut cursor = Cursor::new(text, tokens);
    match item(alloc, &mut cursor) {
        Err(PartError::OutOfMemory) => Err(InstrError::OutOfMemory),
        Err(PartError::NotHere) => Err(InstrError::NotAnInstruction),
        Ok(found) => {
            if cursor.left() > 0 {
                return Err(InstrError::NotAnInstruction);
            }
            bare_instruction(found)
        }
    }
}

/// Reads the one instruction, without a written result, that is the whole text, of at most
/// `MAX_FILE_BYTES` bytes.
///
/// `NotAnInstruction` is returned iff the text isn't that: it has no tokens, or these are no item
/// or more than one, or the item is another one or has a result. `OutOfMemory` may come at any
/// text. LLVM Language Reference, "Instruction Reference".
pub fn read_instruction(alloc: Global, text: &[u8]) -> Result<Item, InstrError>
    requires { length text.now ≤ MAX_FILE_BYTES }
    ensures item { IfOk result (λ x. IsWholeInstruction text.now x) }
    ensures none { IfErr result (λ e. IsNoInstruction text.now e) }
{
    match lex(alloc, text) {
        Err(LexError::OutOfMemory) => Err(InstrError::OutOfMemory),
        Err(LexError::BadByte { at: _ }) => Err(InstrError::NotAnInstruction),
        Err(LexError::OpenQuote { at: _ }) => Err(InstrError::NotAnInstruction),
        Ok(tokens) => whole_instruction(alloc, text, tokens.as_slice()),
    }
}
