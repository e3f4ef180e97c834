//! One row, carried out over files in memory.
ghost use Rattle.std.specs.Prelude.{length, ◌≤◌};

use crate::again::{ReadBackError, read_back, reading_of};
use crate::instruction::{show_instruction, text_of};
use crate::tokens::{counted, listed};
use am_base::{MAX_FILE_BYTES, OutOfMemory};
use ir_lexer::{LexError, lex};
use row_scripts::{Carries, file_named};
use std::alloc::{AllocError, Global};

/// The first tokens of items, with a blank between two of them.
fn starts_text(alloc: Global, starts: &[u32]) -> Result<Vec<u8>, AllocError> {
    let mut text = String::new(alloc);
    for start in starts {
        if !text.is_empty() {
            text.push(' ')?;
        }
        write!(text, "{start}")?;
    }
    Ok(text.into_bytes())
}

/// The first tokens of a module's items.
fn starts_of(alloc: Global, text: &[u8]) -> Result<Vec<u8>, ReadBackError>
    requires { length text.now ≤ MAX_FILE_BYTES }
{
    let reading = reading_of(alloc, text)?;
    starts_text(alloc, reading.starts.as_slice()).map_err(|_| ReadBackError::OutOfMemory)
}

/// The canonical text of a module, which is read again.
fn canonical(alloc: Global, text: &[u8]) -> Result<Vec<u8>, ReadBackError>
    requires { length text.now ≤ MAX_FILE_BYTES }
{
    let found = read_back(alloc, text)?;
    Ok(found.canonical)
}

/// The text of one of a module's items.
fn item_text(alloc: Global, text: &[u8], at: usize) -> Result<Vec<u8>, ReadBackError>
    requires { length text.now ≤ MAX_FILE_BYTES }
{
    let reading = reading_of(alloc, text)?;
    match reading.module.items.get(at) {
        Some(item) => Ok(text_of(alloc, item)?),
        None => Ok(Vec::new(alloc)),
    }
}

/// Appends a text, and a line break where it doesn't end with one.
fn show(shown: &mut String, text: &[u8]) -> Result<(), AllocError> {
    shown.push_str(str::from_utf8(text).unwrap_or("(no text)"))?;
    if !text.is_empty() && !text.ends_with(b"\n") {
        shown.push('\n')?;
    }
    Ok(())
}

/// Appends a text and that it was read, or why none was.
fn show_answer(
    alloc: Global,
    shown: &mut String,
    answer: Result<Vec<u8>, ReadBackError>,
) -> Result<Vec<u8>, AllocError> {
    match answer {
        Ok(text) => {
            show(shown, text.as_slice())?;
            shown.push_str("= read\n")?;
            Ok(text)
        }
        Err(ReadBackError::OutOfMemory) => Err(AllocError),
        Err(refused) => {
            writeln!(shown, "= {refused}")?;
            Ok(Vec::new(alloc))
        }
    }
}

/// Appends what is told of a text's tokens, or why it has none.
fn show_tokens(
    alloc: Global,
    text: &[u8],
    is_counted: bool,
    shown: &mut String,
) -> Result<Vec<u8>, AllocError>
    requires { length text.now ≤ MAX_FILE_BYTES }
{
    match lex(alloc, text) {
        Ok(tokens) => {
            let told = if is_counted {
                counted(alloc, tokens.as_slice())?
            } else {
                listed(alloc, text, tokens.as_slice())?
            };
            shown.push_str(told.as_str())?;
            shown.push_str("= read\n")?;
            Ok(told.into_bytes())
        }
        Err(LexError::OutOfMemory) => Err(AllocError),
        Err(refused) => {
            writeln!(shown, "= {refused}")?;
            Ok(Vec::new(alloc))
        }
    }
}

/// Appends the canonical text of a single instruction, and how it ended.
fn show_op(alloc: Global, text: &[u8], shown: &mut String) -> Result<Vec<u8>, AllocError> {
    let mut end = String::new(alloc);
    let printed = show_instruction(alloc, text, &mut end).map_err(|_| AllocError)?;
    show(shown, printed.as_slice())?;
    shown.push_str(end.as_str())?;
    Ok(printed)
}

/// Appends whether the canonical text of a single instruction is this one.
fn show_same(
    alloc: Global,
    text: &[u8],
    wanted: &[u8],
    shown: &mut String,
) -> Result<Vec<u8>, AllocError> {
    let mut end = String::new(alloc);
    let printed = show_instruction(alloc, text, &mut end).map_err(|_| AllocError)?;
    let is_same = printed.as_slice() == wanted;
    shown.push_str(if is_same { "the same\n" } else { "another\n" })?;
    shown.push_str(end.as_str())?;
    Ok(printed)
}

/// Carries out the words of a row over the text of its file.
fn carried(
    alloc: Global,
    words: &[&str],
    text: &[u8],
    wanted: &[u8],
    shown: &mut String,
) -> Result<Vec<u8>, AllocError>
    requires { length text.now ≤ MAX_FILE_BYTES }
{
    match *words.first().unwrap_or(&"") {
        "tokens" => show_tokens(alloc, text, false, shown),
        "kinds" => show_tokens(alloc, text, true, shown),
        "items" => show_answer(alloc, shown, starts_of(alloc, text)),
        "text" => show_answer(alloc, shown, canonical(alloc, text)),
        "op" => show_op(alloc, text, shown),
        "same" => show_same(alloc, text, wanted, shown),
        word => {
            let at = word.parse::<usize>().unwrap_or(0);
            show_answer(alloc, shown, item_text(alloc, text, at))
        }
    }
}

/// Texts of modules and of instructions.
#[derive(Drop)]
pub struct Texts;

impl Carries for Texts {
    fn carry_out(
        &mut self,
        alloc: Global,
        words: &[&str],
        files: &[(String, Vec<u8>)],
        shown: &mut String,
    ) -> Result<Vec<u8>, AllocError> {
        let text = file_named(files, words.get(1).unwrap_or(&""));
        let wanted = file_named(files, words.get(2).unwrap_or(&""));
        if text.len() > MAX_FILE_BYTES {
            shown.push_str("= too long\n")?;
            return Ok(Vec::new(alloc));
        }
        carried(alloc, words, text, wanted, shown)
    }
}
