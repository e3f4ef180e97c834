//! `number`: the instructions of a module with their numbers.

ghost use Rattle.std.specs.Prelude.{◌≡◌, ℕ, ◌+◌, ◌≤◌, ◌<◌, ◌^◌, List, length, map, IfOk};
ghost use Rattle.am_base.specs.Cause.{Rose};
ghost use Rattle.command_plan.specs.Plan.{Counts};
ghost use Rattle.command_plan.specs.Answer.{Found};
ghost use Rattle.commands.specs.Number as spec;
ghost use Rattle.commands.specs.Number.{number_plan};

use crate::check::zeros;
use am_base::{MAX_FILE_BYTES, OutOfMemory, Shelf};
use am_lists::{Bytes, Items};
use code_form::PortSign;
use command_files::load_module;
use command_plan::Stop;
use instruction_list::{Line, lines_of};
use ir_tree::Item;
use mutant_maker::{Row, list_of};
use std::alloc::Global;

/// The record of an instruction.
fn row_of(alloc: Global, line: &Line) -> Result<Row, OutOfMemory>
    ensures { IfOk result (λ row. row ≡ spec.row_of line.now) }
{
    Ok(Row {
        function: line.function.copy(alloc)?,
        instruction: line.number as usize,
        replacement: line.text.copy(alloc)?,
    })
}

/// The records of instructions.
fn rows_of(alloc: Global, lines: &[Line]) -> Result<Items<Row>, OutOfMemory>
    ensures { IfOk result (λ rows. rows ≡ map spec.row_of lines.now) }
{
    let mut rows = Items::new(alloc);
    'each: for line in lines {
        rows.push(row_of(alloc, line)?)?;
    }
    Ok(rows)
}

/// The list in which each instruction stands in its own place.
fn numbered_text(alloc: Global, items: &[Item]) -> Result<Bytes, OutOfMemory>
    ensures { IfOk result (λ text. text ≡ spec.numbered_text items.now) }
{
    let lines = lines_of(alloc, items)?;
    let rows = rows_of(alloc, lines.as_slice())?;
    let text = list_of(alloc, rows.as_slice())?;
    Ok(Bytes::from_vec(text))
}

/// The text of `number` for a module of this name, for ports with these signs, or why there is
/// none. It takes a buffer of `MAX_FILE_BYTES + 1` bytes.
pub fn number_found<F: Shelf>(
    alloc: Global,
    shelf: &mut F,
    name: &str,
    signs: &[PortSign],
) -> Result<Bytes, Stop>
    requires { length signs.now < 2 ^ 32 }
    ensures found { (counts : Counts) → Found (F.files shelf.old) (λ name. Rose (F.faults shelf.old name) (F.faults shelf.new name))
        (number_plan signs.now name.now) counts counts result }
    ensures kept { F.files shelf.new ≡ F.files shelf.old }
    ensures counts { (other : List ℕ) → F.faults shelf.old other ≤ F.faults shelf.new other }
{
    let Ok(mut buffer) = zeros(alloc, MAX_FILE_BYTES + 1) else {
        return Err(Stop::OutOfMemory);
    };
    match load_module(alloc, shelf, name, &mut buffer, signs) {
        Err(stop) => Err(stop),
        Ok(m) => match numbered_text(alloc, m.module.items.as_slice()) {
            Ok(text) => Ok(text),
            Err(OutOfMemory) => Err(Stop::OutOfMemory),
        },
    }
}
