//! One row, carried out over files in memory.
ghost use Rattle.std.specs.Prelude.{false, length, ◌<◌, ◌≤◌, ◌^◌};
ghost use Rattle.ir_sound.specs.Whole.{AreWhole};
ghost use Rattle.ir_tokens.specs.Tokens.{HasTokens};

use crate::shown::show_code;
use am_base::{MAX_FILE_BYTES, OutOfMemory, Width};
use am_lists::Items;
use code_form::PortSign;
use ir_check::{CheckError, check};
use ir_lexer::{Token, lex};
use ir_reader::read;
use ir_tree::Module;
use row_scripts::{Carries, file_named};
use std::alloc::{AllocError, Global};
use std::slice;

/// The signature of `abs`.
fn sign_of_abs(alloc: Global) -> Result<PortSign, OutOfMemory> {
    let name = Items::from_slice(alloc, b"abs")?;
    let params = Items::from_slice(alloc, &[Width::W32])?;
    Ok(PortSign {
        name,
        params,
        result: Some(Width::W32),
    })
}

/// Appends the code of a module, or its first fault.
fn show_module(
    alloc: Global,
    module: &Module,
    ports: &[PortSign],
    shown: &mut String,
) -> Result<(), OutOfMemory>
    requires whole { AreWhole false module.now.items }
    requires signs { length ports.now < 2 ^ 32 }
{
    if module.items.len() > MAX_FILE_BYTES {
        shown.push_str("= too long\n")?;
        return Ok(());
    }
    match check(alloc, module, ports) {
        Ok(code) => {
            show_code(shown, &code)?;
            shown.push_str("= code\n")?;
        }
        Err(CheckError::OutOfMemory) => return Err(OutOfMemory),
        Err(fault) => writeln!(shown, "= {fault}")?,
    }
    Ok(())
}

/// Appends the code of the module that these tokens of a text are, or its first fault.
fn show_read(
    alloc: Global,
    text: &[u8],
    tokens: &[Token],
    ports: &[PortSign],
    shown: &mut String,
) -> Result<(), OutOfMemory>
    requires tokens { HasTokens text.now tokens.now }
    requires signs { length ports.now < 2 ^ 32 }
{
    match read(alloc, text, tokens) {
        Ok(reading) => show_module(alloc, &reading.module, ports, shown),
        Err(refused) => Ok(writeln!(shown, "= {refused}")?),
    }
}

/// Appends the code of the module that a text is, or its first fault.
fn show_text(
    alloc: Global,
    text: &[u8],
    ports: &[PortSign],
    shown: &mut String,
) -> Result<(), OutOfMemory>
    requires text { length text.now ≤ MAX_FILE_BYTES }
    requires signs { length ports.now < 2 ^ 32 }
{
    match lex(alloc, text) {
        Ok(tokens) => show_read(alloc, text, tokens.as_slice(), ports, shown),
        Err(refused) => Ok(writeln!(shown, "= {refused}")?),
    }
}

/// Carries out a row with or without the port `abs`.
fn carried(
    alloc: Global,
    text: &[u8],
    has_abs: bool,
    shown: &mut String,
) -> Result<(), OutOfMemory> {
    if text.len() > MAX_FILE_BYTES {
        return Ok(());
    }
    if !has_abs {
        return show_text(alloc, text, &[], shown);
    }
    let abs = sign_of_abs(alloc)?;
    show_text(alloc, text, slice::from_ref(&abs), shown)
}

/// Codes of modules.
#[derive(Drop)]
pub struct Modules;

impl Carries for Modules {
    fn carry_out(
        &mut self,
        alloc: Global,
        words: &[&str],
        files: &[(String, Vec<u8>)],
        shown: &mut String,
    ) -> Result<Vec<u8>, AllocError> {
        let has_abs = *words.first().unwrap_or(&"") == "abs";
        let text = file_named(files, words.get(1).unwrap_or(&""));
        match carried(alloc, text, has_abs, shown) {
            Ok(()) => Ok(Vec::new(alloc)),
            Err(OutOfMemory) => Err(AllocError),
        }
    }
}
