//! Single instructions: read, copied and printed.

use am_base::{MAX_FILE_BYTES, OutOfMemory};
use am_lists::Same;
use ir_reader::{InstrError, read_instruction};
use ir_text::{Item, Op, print_instruction};
use sqlite_items::Boxed;
use std::alloc::Global;

/// The text of an item that is an instruction; of another item none.
pub fn text_of(alloc: Global, item: &Item) -> Result<Vec<u8>, OutOfMemory> {
    match item {
        Item::Instr(_, _) => print_instruction(alloc, item),
        _ => Ok(Vec::new(alloc)),
    }
}

/// An item that is a copy of the instruction, without a result.
fn copied(alloc: Global, op: &Op) -> Result<Item, OutOfMemory> {
    let copy = Boxed::new(alloc, op.copy(alloc)?)?;
    Ok(Item::Instr(None, copy))
}

/// Whether the item is an instruction that is equal to this one and has this text.
fn is_copy(alloc: Global, copy: &Item, op: &Op, text: &[u8]) -> Result<bool, OutOfMemory> {
    let is_same = match copy {
        Item::Instr(None, copy) => copy.get().same(op),
        _ => false,
    };
    let again = text_of(alloc, copy)?;
    Ok(is_same && again.as_slice() == text)
}

/// Whether a copy is equal to the instruction and has this text.
fn is_copied(alloc: Global, op: &Op, text: &[u8]) -> Result<bool, OutOfMemory> {
    let copy = copied(alloc, op)?;
    is_copy(alloc, &copy, op, text)
}

/// Appends the word of an instruction's operation, predicate or conversion, if it has one.
fn show_word(shown: &mut String, op: &Op) -> Result<(), OutOfMemory> {
    match op {
        Op::Bin(op, _, _, _) => write!(shown, " {op:?}")?,
        Op::Cmp(pred, _, _, _) => write!(shown, " {pred:?}")?,
        Op::Cast(cast, _, _, _) => write!(shown, " {cast:?}")?,
        _ => {}
    }
    Ok(())
}

/// Appends how the instruction with this text ended: whether its copy is the same, and its word.
fn show_end(
    alloc: Global,
    item: &Item,
    text: &[u8],
    shown: &mut String,
) -> Result<(), OutOfMemory> {
    match item {
        Item::Instr(_, op) => {
            let is_same = is_copied(alloc, op.get(), text)?;
            shown.push_str(if is_same { "= copied" } else { "= not copied" })?;
            show_word(shown, op.get())?;
            shown.push('\n')?;
        }
        _ => shown.push_str("= another item\n")?,
    }
    Ok(())
}

/// Appends how the item ended, which is an instruction, and returns its canonical text.
fn show_item(alloc: Global, item: &Item, shown: &mut String) -> Result<Vec<u8>, OutOfMemory> {
    let printed = text_of(alloc, item)?;
    show_end(alloc, item, printed.as_slice(), shown)?;
    Ok(printed)
}

/// Appends how the text's instruction ended, and returns its canonical text. A text that is none
/// has none.
pub fn show_instruction(
    alloc: Global,
    text: &[u8],
    shown: &mut String,
) -> Result<Vec<u8>, OutOfMemory> {
    if text.len() > MAX_FILE_BYTES {
        shown.push_str("= too long\n")?;
        return Ok(Vec::new(alloc));
    }
    match read_instruction(alloc, text) {
        Ok(item) => show_item(alloc, &item, shown),
        Err(InstrError::NotAnInstruction) => {
            shown.push_str("= no instruction\n")?;
            Ok(Vec::new(alloc))
        }
        Err(InstrError::OutOfMemory) => Err(OutOfMemory),
    }
}
