//! The walk over the items of a module.
ghost use Rattle.std.specs.Prelude.{◌≡◌, ◌<◌, ◌-◌, ◌^◌, [], slice_get, IfOk, OnOk};
ghost use Rattle.std.specs.Option.{option_copied};
ghost use Rattle.ir_rules.specs.Types.{type_defs, kind_of};
ghost use Rattle.mutant_maker.specs.Lists.{made_from};
ghost use Rattle.mutant_maker.specs.Walks.{with_all, with_item, with_ops, replacements_at};

use crate::constants::put_constants;
use crate::makers::{put_conditions, put_operators, put_predicates, put_swap};
use crate::rows::{Row, Walk};
use am_base::OutOfMemory;
use am_lists::Items;
use code_form::Instr;
use ir_call_rules::name_bytes;
use ir_tree::{Item, Op};
use ir_types::Types;
use std::alloc::Global;

/// Adds what all makers make of an instruction with this code.
#[tactic(auto, using(crate::proofs::Steps::part))]
fn put_all(
    alloc: Global,
    types: &Types<'_>,
    walk: &mut Walk,
    code: Option<&Instr>,
    op: &Op,
) -> Result<(), OutOfMemory>
    ensures { OnOk result (walk.new ≡ with_ops walk.old
        (replacements_at (kind_of types.now.defs) (option_copied code.entry) op.now)) }
{
    match code {
        None => Ok(()),
        Some(code) => {
            put_operators(alloc, walk, op)?;
            put_predicates(alloc, walk, op)?;
            put_constants(alloc, types, walk, op)?;
            put_swap(alloc, walk, code, op)?;
            put_conditions(alloc, walk, code, op)
        }
    }
}

/// Goes over one item.
fn step(
    alloc: Global,
    types: &Types<'_>,
    instrs: &Items<Instr>,
    walk: &mut Walk,
    item: &Item,
) -> Result<(), OutOfMemory>
    requires instruction { walk.old.instruction < 2 ^ 64 - 1 }
    requires place { walk.old.place < 2 ^ 64 - 1 }
    ensures { OnOk result (walk.new ≡ with_item (kind_of types.now.defs) instrs.now walk.old item.now) }
{
    match item {
        Item::Head(name, _, _) => {
            walk.function = name_bytes(alloc, name)?;
            walk.instruction = 0;
        }
        Item::Instr(_, op) => {
            walk.instruction += 1;
            put_all(alloc, types, walk, instrs.get(walk.place), op.get())?;
            walk.place += 1;
        }
        _ => {}
    }
    Ok(())
}

/// Returns the records of the mutants that are made from a module with these instructions, or one
/// more than a list may have.
pub(crate) fn rows_of(
    alloc: Global,
    types: &Types<'_>,
    instrs: &Items<Instr>,
    items: &[Item],
) -> Result<Items<Row>, OutOfMemory>
    ensures { IfOk result (λ rows. rows
        ≡ with_all [] (made_from (kind_of types.now.defs) instrs.now [] 0 0 items.now)) }
{
    let mut walk = Walk::new(alloc);
    'each: for item in items {
        step(alloc, types, instrs, &mut walk, item)?;
    }
    let Walk {
        rows,
        function: _,
        instruction: _,
        place: _,
    } = walk;
    Ok(rows)
}
