//! The list of the mutants that are made from a module.
ghost use Rattle.std.specs.Prelude.{◌≡◌, ◌<◌, ◌≤◌, List, [], length, IfOk, IfErr};
ghost use Rattle.am_base.specs.declared.limits.TheConstants.{MAX_LISTED_MUTANTS};
ghost use Rattle.ir_rules.specs.Modules.{code_of};
ghost use Rattle.mutant_maker.specs.declared.error.MakeError.TheVariants.{TooMany};
ghost use Rattle.mutant_maker.specs.Lists.{Made, made, list_text};
ghost use Rattle.mutant_maker.specs.Walks.{with_all, made_in_items};

use crate::error::MakeError;
use crate::rows::Row;
use crate::text::list_of;
use crate::walk::rows_of;
use am_base::{MAX_LISTED_MUTANTS, OutOfMemory};
use am_lists::Items;
use code_form::{Code, Instr};
use ir_tree::{Item, Module};
use ir_types::Types;
use std::alloc::Global;

/// Returns the list of these records, unless they are too many.
fn listed(alloc: Global, rows: &[Row]) -> Result<Vec<u8>, MakeError>
    ensures list { (mades : List Made) → rows.now ≡ with_all [] mades
        → IfOk result (λ text. text.items ≡ list_text mades) }
    ensures few { (mades : List Made) → rows.now ≡ with_all [] mades
        → IfOk result (λ text. length mades ≤ MAX_LISTED_MUTANTS) }
    ensures many { (mades : List Made) → rows.now ≡ with_all [] mades
        → IfErr result (λ e. e ≡ TooMany → MAX_LISTED_MUTANTS < length mades) }
{
    if rows.len() > MAX_LISTED_MUTANTS as usize {
        return Err(MakeError::TooMany);
    }
    let text = list_of(alloc, rows)?;
    Ok(text)
}

/// Returns the records of the mutants that are made from some items with this code, or one more than
/// a list may have.
fn rows_made(
    alloc: Global,
    items: &[Item],
    instrs: &Items<Instr>,
) -> Result<Items<Row>, OutOfMemory>
    ensures { IfOk result (λ rows. rows ≡ with_all [] (made_in_items items.now instrs.now)) }
{
    let types = Types::of(alloc, items)?;
    let rows = rows_of(alloc, &types, instrs, items)?;
    Ok(rows)
}

/// Returns the list of the mutants that are made from some items with this code.
fn list_from(alloc: Global, items: &[Item], instrs: &Items<Instr>) -> Result<Vec<u8>, MakeError>
    ensures list { IfOk result (λ text.
        text.items ≡ list_text (made_in_items items.now instrs.now)) }
    ensures few { IfOk result (λ text.
        length (made_in_items items.now instrs.now) ≤ MAX_LISTED_MUTANTS) }
    ensures many { IfErr result (λ e. e ≡ TooMany
        → MAX_LISTED_MUTANTS < length (made_in_items items.now instrs.now)) }
{
    let rows = rows_made(alloc, items, instrs)?;
    listed(alloc, rows.as_slice())
}

/// Returns the list of the mutants that are made from a module with this code, as `csv` writes it
/// with `;` between fields: the header `function;instruction;replacement`, and a record for each
/// replacement of each instruction, in text order. What stands in place of an instruction:
///
/// 1. a binary operation with each other operation, from `add` to `xor`;
/// 2. an `icmp` with each other predicate, from `eq` to `sle`;
/// 3. each number of `i8` to `i64` in a binary operation, `icmp`, the values of `select`, the value
///    of `store`, `ret` and the arguments of a call: plus 1, minus 1, then 0, then 1, modulo 2 to
///    the width and signed;
/// 4. the operands of a binary operation or `icmp`, the values of `select`, and the labels of a
///    conditional `br`, swapped;
/// 5. the condition of `select` and of a conditional `br`: `true`, then `false`.
///
/// A replacement that is, as code, the original or an earlier one is left out. `TooMany` is
/// returned iff there are more than `MAX_LISTED_MUTANTS`; `OutOfMemory` may come at any module.
/// Instructions are numbered from 1 in each function, `phi` included. O(n) in the bytes of module
/// and list.
/// The makers are this project's own.
#[tactic(none)]
pub fn make(alloc: Global, m: &Module, code: &Code) -> Result<Vec<u8>, MakeError>
    requires code { code.now ≡ code_of m.now.items code.now.signs }
    ensures list { IfOk result (λ text. text.items ≡ list_text (made m.now code.now)) }
    ensures few { IfOk result (λ text. length (made m.now code.now) ≤ MAX_LISTED_MUTANTS) }
    ensures many { IfErr result (λ e. e ≡ TooMany
        → MAX_LISTED_MUTANTS < length (made m.now code.now)) }
{
    list_from(alloc, m.items.as_slice(), &code.instrs)
}
