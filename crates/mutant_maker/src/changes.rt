//! Instructions with one part changed.
ghost use Rattle.std.specs.Prelude.{◌≡◌, ◌==◌, if◌then◌else◌, OnOk};
ghost use Rattle.ir_tree.specs.declared.operand.Opd.TheVariants as opd;
ghost use Rattle.mutant_maker.specs.Makers as spec;
ghost use Rattle.mutant_maker.specs.Changes as changes;

use am_base::{BinOp, OutOfMemory, Pred};
use am_lists::Items;
use ir_tree::{Op, Opd, TyText};
use std::alloc::Global;
use std::mem;

/// What is done to an instruction.
#[derive(Clone, Copy)]
pub(crate) enum Change {
    /// A binary operation gets this operation.
    Operation(BinOp),
    /// An `icmp` gets this predicate.
    Predicate(Pred),
    /// The operand with this number among those that the maker of constants asks gets this number.
    Number(usize, i128),
    /// Two parts are swapped.
    Swap,
    /// The condition gets this value.
    Condition(bool),
}

/// Gives a binary operation another operation.
fn set_operation(op: &mut Op, k: BinOp)
    ensures { op.new ≡ changes.with_operation op.old k }
{
    if let Op::Bin(b, _, _, _) = op {
        *b = k;
    }
}

/// Gives an `icmp` another predicate.
fn set_predicate(op: &mut Op, k: Pred)
    ensures { op.new ≡ changes.with_predicate op.old k }
{
    if let Op::Cmp(p, _, _, _) = op {
        *p = k;
    }
}

/// Swaps two parts of an instruction.
fn swap(op: &mut Op)
    ensures { op.new ≡ changes.swapped op.old }
{
    match op {
        Op::Bin(_, _, x, y) => mem::swap(x, y),
        Op::Cmp(_, _, x, y) => mem::swap(x, y),
        Op::Select(_, _, t, x, u, y) => {
            mem::swap(t, u);
            mem::swap(x, y);
        }
        Op::Branch(_, _, yes, no) => mem::swap(yes, no),
        _ => {}
    }
}

/// Gives an instruction another condition.
fn set_condition(op: &mut Op, value: bool)
    ensures { op.new ≡ changes.conditioned op.old (changes.condition value) }
{
    let condition = if value { Opd::True } else { Opd::False };
    match op {
        Op::Select(_, i, _, _, _, _) => *i = condition,
        Op::Branch(_, i, _, _) => *i = condition,
        _ => {}
    }
}

/// Puts a number in place of an operand.
fn set_operand(x: &mut Opd, z: i128)
    ensures { x.new ≡ opd.Number z }
{
    *x = Opd::Number(z);
}

/// Puts a number in place of one of two operands.
fn set_one(x: &mut Opd, y: &mut Opd, k: usize, z: i128)
    ensures first { x.new ≡ (if k == 0 then opd.Number z else x.old) }
    ensures second { y.new ≡ (if k == 0 then y.old else opd.Number z) }
{
    if k == 0 {
        set_operand(x, z);
    } else {
        set_operand(y, z);
    }
}

/// Puts a number in place of an argument.
fn set_argument(
    alloc: Global,
    xs: &mut Items<(TyText, Opd)>,
    k: usize,
    z: i128,
) -> Result<(), OutOfMemory>
    ensures { OnOk result (xs.new ≡ spec.with_argument xs.old k (opd.Number z)) }
{
    if k < xs.len() {
        let ty = xs.as_slice()[k].0.copy(alloc)?;
        xs.set(k, (ty, Opd::Number(z)));
    }
    Ok(())
}

/// Puts a number in place of one of the operands that the maker of constants asks.
fn set_number(alloc: Global, op: &mut Op, k: usize, z: i128) -> Result<(), OutOfMemory>
    ensures { OnOk result (op.new ≡ spec.with_value op.old k (opd.Number z)) }
{
    match op {
        Op::Bin(_, _, x, y) => set_one(x, y, k, z),
        Op::Cmp(_, _, x, y) => set_one(x, y, k, z),
        Op::Select(_, _, _, x, _, y) => set_one(x, y, k, z),
        Op::Store(_, x, _, _) => set_operand(x, z),
        Op::Ret(Some(v)) => set_operand(&mut v.1, z),
        Op::Call(_, _, xs) => set_argument(alloc, xs, k, z)?,
        _ => {}
    }
    Ok(())
}

/// Changes an instruction.
pub(crate) fn apply(alloc: Global, op: &mut Op, change: Change) -> Result<(), OutOfMemory>
    ensures { OnOk result (op.new ≡ changes.changed op.old change) }
{
    match change {
        Change::Operation(k) => set_operation(op, k),
        Change::Predicate(k) => set_predicate(op, k),
        Change::Number(k, z) => set_number(alloc, op, k, z)?,
        Change::Swap => swap(op),
        Change::Condition(value) => set_condition(op, value),
    }
    Ok(())
}
