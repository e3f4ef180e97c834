//! The module of a command.

ghost use Rattle.std.specs.Prelude.{◌≡◌, ℕ, ◌+◌, ◌≤◌, ◌<◌, ◌^◌, List, length, false, None, Some, IfOk, IfErr};
ghost use Rattle.am_base.specs.Cause.{Rose};
ghost use Rattle.code_form.specs.Sound.{IsSound};
ghost use Rattle.code_form.specs.declared.sign.PortSign.{PortSign};
ghost use Rattle.ir_grammar.specs.Lexeme.{lexemes};
ghost use Rattle.ir_lexer.specs.Answer.{NamesFault};
ghost use Rattle.ir_reader.specs.Answers.{NamesUnread};
ghost use Rattle.ir_rules.specs.Rules.{fault};
ghost use Rattle.ir_tokens.specs.Tokens.{HasTokens};
ghost use Rattle.command_plan.specs.declared.status.Input.TheVariants as input;
ghost use Rattle.command_plan.specs.Answer.{Fails, Says};
ghost use Rattle.command_plan.specs.Plan.{Reads};
ghost use Rattle.command_files.specs.Modules.{HasItems, IsAccepted, IsRefused};

use am_base::{MAX_FILE_BYTES, Shelf};
use code_form::{Code, PortSign};
use command_plan::{Input, Stop, read_file};
use ir_check::{CheckError, check};
use ir_lexer::{LexError, lex};
use ir_reader::{ReadError, Reading, read};
use ir_rules::Fault;
use ir_tokens::Token;
use ir_tree::Module;
use refused_lines::{broken_line, unlexed_line, unread_line};
use std::alloc::Global;

/// A module that was read and checked: its items, and its code.
#[derive(Drop)]
pub struct Loaded {
    pub module: Module,
    pub code: Code,
}

/// The refusal of a text with a lexical fault.
fn lexical_refusal(alloc: Global, text: &[u8], error: LexError) -> Stop
    requires { NamesFault text.now error }
    ensures { (signs : List PortSign) → Says input.Module (IsRefused signs text.now) result }
{
    Stop::refusal(Input::Module, unlexed_line(alloc, text, error))
}

/// The refusal of tokens that aren't the items of a module.
fn reading_refusal(alloc: Global, text: &[u8], tokens: &[Token], error: ReadError) -> Stop
    requires short { length text.now ≤ MAX_FILE_BYTES }
    requires tokens { HasTokens text.now tokens.now }
    requires unread { NamesUnread (lexemes text.now tokens.now) error }
    ensures { (signs : List PortSign) → Says input.Module (IsRefused signs text.now) result }
{
    Stop::refusal(Input::Module, unread_line(alloc, text, tokens, error))
}

/// The refusal of items of which one breaks a rule.
fn rule_refusal(
    alloc: Global,
    text: &[u8],
    tokens: &[Token],
    reading: &Reading,
    found: Fault,
    signs: &[PortSign],
) -> Stop
    requires short { length text.now ≤ MAX_FILE_BYTES }
    requires items { HasItems text.now tokens.now reading.now.module.items reading.now.starts }
    requires broken { fault reading.now.module.items signs.now ≡ Some found }
    ensures { Says input.Module (IsRefused signs.now text.now) result }
{
    Stop::refusal(
        Input::Module,
        broken_line(alloc, text, tokens, reading.starts.as_slice(), found),
    )
}

/// Judges the items of a text.
fn judged(
    alloc: Global,
    text: &[u8],
    tokens: &[Token],
    reading: Reading,
    signs: &[PortSign],
) -> Result<Loaded, Stop>
    requires short { length text.now ≤ MAX_FILE_BYTES }
    requires signs { length signs.now < 2 ^ 32 }
    requires items { HasItems text.now tokens.now reading.module.items reading.starts }
    ensures accepted { IfOk result (IsAccepted signs.now text.now) }
    ensures sound { IfOk result (λ m. IsSound m.code) }
    ensures refused { IfErr result (Says input.Module (IsRefused signs.now text.now)) }
{
    match check(alloc, &reading.module, signs) {
        Ok(code) => Ok(Loaded {
            module: reading.module,
            code,
        }),
        Err(CheckError::OutOfMemory) => Err(Stop::OutOfMemory),
        Err(CheckError::Fault { item, code }) => {
            let found = Fault {
                item: item as usize,
                rule: code,
            };
            Err(rule_refusal(alloc, text, tokens, &reading, found, signs))
        }
    }
}

/// The module that a text is, or its refusal.
fn module_of(alloc: Global, text: &[u8], signs: &[PortSign]) -> Result<Loaded, Stop>
    requires short { length text.now ≤ MAX_FILE_BYTES }
    requires signs { length signs.now < 2 ^ 32 }
    ensures accepted { IfOk result (IsAccepted signs.now text.now) }
    ensures sound { IfOk result (λ m. IsSound m.code) }
    ensures refused { IfErr result (Says input.Module (IsRefused signs.now text.now)) }
{
    let tokens = match lex(alloc, text) {
        Ok(tokens) => tokens,
        Err(error) => return Err(lexical_refusal(alloc, text, error)),
    };
    match read(alloc, text, tokens.as_slice()) {
        Ok(reading) => judged(alloc, text, tokens.as_slice(), reading, signs),
        Err(error) => Err(reading_refusal(alloc, text, tokens.as_slice(), error)),
    }
}

/// Reads the module of a name by way of a buffer of `MAX_FILE_BYTES + 1` bytes, and checks it for
/// ports with these signs. A lexical fault anywhere is refused before an item that can't be read,
/// and that before a broken rule.
pub fn load_module<F: Shelf>(
    alloc: Global,
    shelf: &mut F,
    name: &str,
    buffer: &mut [u8],
    signs: &[PortSign],
) -> Result<Loaded, Stop>
    requires buffer { length buffer.old ≡ MAX_FILE_BYTES + 1 }
    requires signs { length signs.now < 2 ^ 32 }
    ensures ok { IfOk result (λ m. Reads (F.files shelf.old) name.now (λ file. IsAccepted signs.now file m)) }
    ensures accepted { IfOk result (λ m. (file : List ℕ) × (length file ≤ MAX_FILE_BYTES) × IsAccepted signs.now file m) }
    ensures sound { IfOk result (λ m. IsSound m.code) }
    ensures err { IfErr result (Fails (F.files shelf.old) name.now (Rose (F.faults shelf.old name.now) (F.faults shelf.new name.now))
        input.Module (IsRefused signs.now)) }
    ensures kept { F.files shelf.new ≡ F.files shelf.old }
    ensures counts { (other : List ℕ) → F.faults shelf.old other ≤ F.faults shelf.new other }
{
    let len = match read_file(shelf, name, buffer) {
        Ok(len) => len,
        Err(stop) => return Err(stop),
    };
    module_of(alloc, &buffer[..len], signs)
}
