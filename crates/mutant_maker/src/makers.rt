//! The makers that look at the operator, the predicate, the operands and the condition.
ghost use Rattle.std.specs.Prelude.{◌≡◌, ◌∷◌, [], flat_map, if◌then◌else◌, OnOk};
ghost use Rattle.ir_tree.specs.declared.operand.Opd.{Opd};
ghost use Rattle.mutant_maker.specs.Makers as spec;
ghost use Rattle.mutant_maker.specs.Changes as changes;
ghost use Rattle.mutant_maker.specs.Walks.{with_ops};

use crate::changes::Change;
use crate::rows::Walk;
use am_base::{BinOp, OutOfMemory, Pred};
use code_form::{Instr, Operand};
use ir_tree::Op;
use std::alloc::Global;

// Operators.

fn same_operation(a: BinOp, b: BinOp) -> bool
    ensures { result ≡ spec.same_operation a b }
{
    a == b
}

/// Adds a binary operation with each other operation of a list.
#[tactic(auto, using(crate::proofs::Steps::done))]
fn put_operations(
    alloc: Global,
    walk: &mut Walk,
    op: &Op,
    b: BinOp,
    all: &[BinOp],
) -> Result<(), OutOfMemory>
    ensures { OnOk result (walk.new ≡ with_ops walk.old
        (flat_map (λ k. if spec.same_operation b k then [] else changes.with_operation op.now k ∷ []) all.now)) }
{
    'each: for k in all {
        let same = same_operation(b, *k);
        walk.put_unless(alloc, op, same, Change::Operation(*k))?;
    }
    Ok(())
}

/// Adds what the first maker makes: a binary operation with each other operation.
#[tactic(auto, using(crate::proofs::Steps::done))]
pub(crate) fn put_operators(alloc: Global, walk: &mut Walk, op: &Op) -> Result<(), OutOfMemory>
    ensures { OnOk result (walk.new ≡ with_ops walk.old (spec.operator_maker op.now)) }
{
    let all = [
        BinOp::Add,
        BinOp::Sub,
        BinOp::Mul,
        BinOp::UDiv,
        BinOp::SDiv,
        BinOp::URem,
        BinOp::SRem,
        BinOp::Shl,
        BinOp::LShr,
        BinOp::AShr,
        BinOp::And,
        BinOp::Or,
        BinOp::Xor,
    ];
    match op {
        Op::Bin(b, _, _, _) => put_operations(alloc, walk, op, *b, &all),
        _ => Ok(()),
    }
}

// Predicates.

fn same_predicate(a: Pred, b: Pred) -> bool
    ensures { result ≡ spec.same_predicate a b }
{
    a == b
}

/// Adds an `icmp` with each other predicate of a list.
#[tactic(auto, using(crate::proofs::Steps::done))]
fn put_comparisons(
    alloc: Global,
    walk: &mut Walk,
    op: &Op,
    p: Pred,
    all: &[Pred],
) -> Result<(), OutOfMemory>
    ensures { OnOk result (walk.new ≡ with_ops walk.old
        (flat_map (λ k. if spec.same_predicate p k then [] else changes.with_predicate op.now k ∷ []) all.now)) }
{
    'each: for k in all {
        let same = same_predicate(p, *k);
        walk.put_unless(alloc, op, same, Change::Predicate(*k))?;
    }
    Ok(())
}

/// Adds what the second maker makes: an `icmp` with each other predicate.
#[tactic(auto, using(crate::proofs::Steps::done))]
pub(crate) fn put_predicates(alloc: Global, walk: &mut Walk, op: &Op) -> Result<(), OutOfMemory>
    ensures { OnOk result (walk.new ≡ with_ops walk.old (spec.predicate_maker op.now)) }
{
    let all = [
        Pred::Eq,
        Pred::Ne,
        Pred::Ugt,
        Pred::Uge,
        Pred::Ult,
        Pred::Ule,
        Pred::Sgt,
        Pred::Sge,
        Pred::Slt,
        Pred::Sle,
    ];
    match op {
        Op::Cmp(p, _, _, _) => put_comparisons(alloc, walk, op, *p, &all),
        _ => Ok(()),
    }
}

// Swaps.

fn same_operand(a: Operand, b: Operand) -> bool
    ensures { result ≡ spec.same_operand a b }
{
    match (a, b) {
        (Operand::Reg(x), Operand::Reg(y)) => x == y,
        (Operand::Word(x), Operand::Word(y)) => x == y,
        _ => false,
    }
}

/// Whether the maker of swaps makes something of an instruction: its code has two different parts
/// to be swapped.
fn has_swap(code: &Instr, op: &Op) -> bool
    ensures { spec.swap_maker code.now op.now
        ≡ (if result then changes.swapped op.now ∷ [] else []) }
{
    match (code, op) {
        (Instr::Bin(_, _, p, q), Op::Bin(_, _, _, _)) => !same_operand(*p, *q),
        (Instr::Cmp(_, _, p, q), Op::Cmp(_, _, _, _)) => !same_operand(*p, *q),
        (Instr::Select(_, p, q), Op::Select(_, _, _, _, _, _)) => !same_operand(*p, *q),
        (Instr::Branch(_, p, q), Op::Branch(_, _, _, _)) => *p != *q,
        _ => false,
    }
}

/// Adds what the fourth maker makes: the instruction with two parts swapped that differ in its
/// code.
#[tactic(auto, using(crate::proofs::Steps::done))]
pub(crate) fn put_swap(
    alloc: Global,
    walk: &mut Walk,
    code: &Instr,
    op: &Op,
) -> Result<(), OutOfMemory>
    ensures { OnOk result (walk.new ≡ with_ops walk.old (spec.swap_maker code.now op.now)) }
{
    if !has_swap(code, op) {
        return Ok(());
    }
    walk.put(alloc, op, Change::Swap)
}

// Conditions.

fn has_condition(op: &Op) -> bool
    ensures { (j : Opd) → spec.with_condition op.now j
        ≡ (if result then changes.conditioned op.now j ∷ [] else []) }
{
    matches!(op, Op::Select(_, _, _, _, _, _) | Op::Branch(_, _, _, _))
}

/// Adds the instruction with another condition, unless its code has that condition already.
#[tactic(auto, using(crate::proofs::Steps::done))]
fn put_condition(
    alloc: Global,
    walk: &mut Walk,
    op: &Op,
    is_old: bool,
    value: bool,
) -> Result<(), OutOfMemory>
    ensures { OnOk result (walk.new ≡ with_ops walk.old
        (if is_old then [] else spec.with_condition op.now (changes.condition value))) }
{
    if is_old || !has_condition(op) {
        return Ok(());
    }
    walk.put(alloc, op, Change::Condition(value))
}

/// Adds the instruction with the condition `true`, then `false`, unless `d` is that condition.
fn put_both(alloc: Global, walk: &mut Walk, op: &Op, d: Operand) -> Result<(), OutOfMemory>
    ensures { OnOk result (walk.new ≡ with_ops walk.old
        (flat_map (spec.with_condition op.now) (spec.new_conditions d))) }
{
    let is_true = same_operand(d, Operand::Word(1));
    put_condition(alloc, walk, op, is_true, true)?;
    let is_false = same_operand(d, Operand::Word(0));
    put_condition(alloc, walk, op, is_false, false)?;
    Ok(())
}

/// Adds what the fifth maker makes: the instruction with the condition `true`, then `false`, where
/// its code has another one.
#[tactic(auto, using(crate::proofs::Steps::done))]
pub(crate) fn put_conditions(
    alloc: Global,
    walk: &mut Walk,
    code: &Instr,
    op: &Op,
) -> Result<(), OutOfMemory>
    ensures { OnOk result (walk.new ≡ with_ops walk.old (spec.condition_maker code.now op.now)) }
{
    match code {
        Instr::Select(d, _, _) => put_both(alloc, walk, op, *d),
        Instr::Branch(d, _, _) => put_both(alloc, walk, op, *d),
        _ => Ok(()),
    }
}
