//! A module is read from a text, printed, and read again from what was printed.
ghost use Rattle.ir_rows.specs.ReadBack.{IsNotReadBack, IsUnreadable, IsWant};
ghost use Rattle.ir_text.specs.Lines.{canon};
ghost use Rattle.ir_text.specs.Texts.{IsTextOf};
ghost use Rattle.ir_tokens.specs.Tokens.{HasTokens};
ghost use Rattle.std.specs.Prelude.{IfErr, IfOk, length, ◌≡◌, ◌≤◌};

use am_base::{MAX_FILE_BYTES, OutOfMemory};
use ir_lexer::{LexError, Token, lex};
use ir_reader::{ReadError, Reading, read};
use ir_text::{Module, canon_reads_back, print};
use std::alloc::Global;
use thiserror::Error;

/// Why a text isn't read, printed and read again.
#[derive(Clone, Copy, Debug, PartialEq, Eq, Error)]
pub enum ReadBackError {
    /// The text has no tokens: none begins at byte `at`, from 0.
    #[error("no token begins at byte {at}")]
    NoToken { at: u32 },
    /// The tokens are no module: those from token `token` on, from 0, begin no allowed item.
    #[error("token {token} begins no item that is allowed there")]
    NoItem { token: u32 },
    /// The canonical text is longer than a text that can be read.
    #[error("the canonical text is too long")]
    TooLong,
    #[error("out of memory")]
    OutOfMemory,
}

impl From<OutOfMemory> for ReadBackError {
    ghost use Rattle.ir_rows.specs.declared.again.ReadBackError.TheVariants.{OutOfMemory};
    ghost use Rattle.std.specs.Prelude.{◌≡◌};

    ghost from_gives = { λ _ e. e ≡ OutOfMemory };

    fn from(_error: OutOfMemory) -> ReadBackError {
        ReadBackError::OutOfMemory
    }
}

/// A module, its canonical text, and the module that is read from that text.
#[derive(Drop)]
pub struct ReadBack {
    pub module: Module,
    pub canonical: Vec<u8>,
    pub again: Module,
}

fn reading_of_tokens(alloc: Global, text: &[u8], tokens: &[Token]) -> Result<Reading, ReadBackError>
    requires { HasTokens text.now tokens.now }
    ensures module { IfOk result (λ r. IsTextOf text.now r.module.items) }
    ensures refused { IfErr result (IsUnreadable text.now) }
{
    match read(alloc, text, tokens) {
        Ok(reading) => Ok(reading),
        Err(ReadError::NotAnItem { token }) => Err(ReadBackError::NoItem { token }),
        Err(ReadError::OutOfMemory) => Err(ReadBackError::OutOfMemory),
    }
}

/// Reads a module from a text, with the first token of each item.
pub fn reading_of(alloc: Global, text: &[u8]) -> Result<Reading, ReadBackError>
    requires { length text.now ≤ MAX_FILE_BYTES }
    ensures module { IfOk result (λ r. IsTextOf text.now r.module.items) }
    ensures refused { IfErr result (IsUnreadable text.now) }
{
    match lex(alloc, text) {
        Ok(tokens) => reading_of_tokens(alloc, text, tokens.as_slice()),
        Err(LexError::BadByte { at }) => Err(ReadBackError::NoToken { at }),
        Err(LexError::OpenQuote { at }) => Err(ReadBackError::NoToken { at }),
        Err(LexError::OutOfMemory) => Err(ReadBackError::OutOfMemory),
    }
}

fn module_of(alloc: Global, text: &[u8]) -> Result<Module, ReadBackError>
    requires { length text.now ≤ MAX_FILE_BYTES }
    ensures module { IfOk result (λ m. IsTextOf text.now m.items) }
    ensures refused { IfErr result (IsUnreadable text.now) }
{
    match reading_of(alloc, text) {
        Ok(reading) => {
            let Reading { module, starts: _ } = reading;
            Ok(module)
        }
        Err(refused) => Err(refused),
    }
}

/// A text of a module is refused for want of memory alone.
fn want_of_memory(refused: ReadBackError) -> OutOfMemory
    requires { IsWant refused }
{
    match refused {
        ReadBackError::OutOfMemory => OutOfMemory,
        ReadBackError::NoToken { at: _ } => unreachable!(),
        ReadBackError::NoItem { token: _ } => unreachable!(),
        ReadBackError::TooLong => unreachable!(),
    }
}

/// Reads the canonical text of a module that was read from a text.
fn module_again(
    alloc: Global,
    text: &[u8],
    first: &Module,
    canonical: &[u8],
) -> Result<Module, OutOfMemory>
    requires first { IsTextOf text.now first.now.items }
    requires canonical { canonical.now ≡ canon first.now.items }
    requires long { length canonical.now ≤ MAX_FILE_BYTES }
    ensures { IfOk result (λ m. m.items ≡ first.now.items) }
{
    canon_reads_back();
    match module_of(alloc, canonical) {
        Ok(again) => Ok(again),
        Err(refused) => Err(want_of_memory(refused)),
    }
}

/// Reads a module from a text, prints it, and reads it again from the canonical text. The module
/// that is read again is the same, and the canonical text is never refused.
///
/// `NoToken` and `NoItem` tell the first fault of the text and its first token that isn't read.
/// `TooLong` is returned iff the text is a module whose canonical text is longer than
/// `MAX_FILE_BYTES`. `OutOfMemory` may come at any text.
pub fn read_back(alloc: Global, text: &[u8]) -> Result<ReadBack, ReadBackError>
    requires { length text.now ≤ MAX_FILE_BYTES }
    ensures module { IfOk result (λ r. IsTextOf text.now r.module.items) }
    ensures canonical { IfOk result (λ r. r.canonical.items ≡ canon r.module.items) }
    ensures again { IfOk result (λ r. r.again.items ≡ r.module.items) }
    ensures refused { IfErr result (IsNotReadBack text.now) }
{
    let module = module_of(alloc, text)?;
    let canonical = print(alloc, &module)?;
    if canonical.len() > MAX_FILE_BYTES {
        return Err(ReadBackError::TooLong);
    }
    let again = module_again(alloc, text, &module, canonical.as_slice())?;
    Ok(ReadBack {
        module,
        canonical,
        again,
    })
}
