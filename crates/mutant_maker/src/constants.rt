//! The maker that looks at constants.
ghost use Rattle.std.specs.Prelude.{◌≡◌, ◌∷◌, [], map, OnOk};
ghost use Rattle.ir_rules.specs.Types.{kind_of};
ghost use Rattle.ir_tree.specs.declared.operand.Opd.TheVariants as opd;
ghost use Rattle.mutant_maker.specs.Makers as spec;
ghost use Rattle.mutant_maker.specs.Walks.{with_ops};

use crate::changes::Change;
use crate::numbers::new_numbers;
use crate::rows::Walk;
use am_base::OutOfMemory;
use ir_tree::{Op, Opd, TyText};
use ir_types::Types;
use std::alloc::Global;

/// Adds the instruction with a number in place of an operand.
fn put_number(
    alloc: Global,
    walk: &mut Walk,
    op: &Op,
    k: usize,
    z: &i128,
) -> Result<(), OutOfMemory>
    ensures { OnOk result (walk.new
        ≡ with_ops walk.old (spec.with_value op.now k (opd.Number z.now) ∷ [])) }
{
    walk.put(alloc, op, Change::Number(k, *z))
}

/// Adds the instruction with each of some numbers in place of an operand.
#[tactic(auto, using(crate::proofs::Steps::done))]
fn put_each(
    alloc: Global,
    walk: &mut Walk,
    op: &Op,
    k: usize,
    numbers: &[i128],
) -> Result<(), OutOfMemory>
    ensures { OnOk result (walk.new ≡ with_ops walk.old
        (map (λ z. spec.with_value op.now k (opd.Number z)) numbers.now)) }
{
    'each: for z in numbers {
        put_number(alloc, walk, op, k, z)?;
    }
    Ok(())
}

/// Adds what the third maker makes of the operand with a number among those that it asks.
fn put_numbers(
    alloc: Global,
    types: &Types<'_>,
    walk: &mut Walk,
    op: &Op,
    k: usize,
    v: (&TyText, &Opd),
) -> Result<(), OutOfMemory>
    ensures { OnOk result (walk.new ≡ with_ops walk.old (map (λ z. spec.with_value op.now k (opd.Number z))
        (spec.new_numbers (kind_of types.now.defs v.entry.0.now) v.entry.1.now))) }
{
    let numbers = new_numbers(alloc, types.kind(v.0), v.1)?;
    put_each(alloc, walk, op, k, numbers.as_slice())
}

/// Adds what the third maker makes of an instruction that has two of the operands that it asks.
#[tactic(auto, using(crate::proofs::Steps::done))]
fn put_two(
    alloc: Global,
    types: &Types<'_>,
    walk: &mut Walk,
    op: &Op,
    a: (&TyText, &Opd),
    b: (&TyText, &Opd),
) -> Result<(), OutOfMemory>
    ensures { OnOk result (walk.new ≡ with_ops walk.old (spec.constants_from (kind_of types.now.defs) op.now 0
        ((a.entry.0.now, a.entry.1.now) ∷ (b.entry.0.now, b.entry.1.now) ∷ []))) }
{
    put_numbers(alloc, types, walk, op, 0, a)?;
    put_numbers(alloc, types, walk, op, 1, b)?;
    Ok(())
}

/// Adds what the third maker makes of a call.
#[tactic(auto, using(crate::proofs::Steps::done))]
fn put_arguments(
    alloc: Global,
    types: &Types<'_>,
    walk: &mut Walk,
    op: &Op,
    xs: &[(TyText, Opd)],
) -> Result<(), OutOfMemory>
    ensures { OnOk result (walk.new ≡ with_ops walk.old
        (spec.constants_from (kind_of types.now.defs) op.now 0 xs.now)) }
{
    'each: for (k, x) in xs.iter().enumerate() {
        put_numbers(alloc, types, walk, op, k, (&x.0, &x.1))?;
    }
    Ok(())
}

/// Adds what the third maker makes: the instruction with other numbers in place of a number.
#[tactic(auto, using(crate::proofs::Steps::done))]
pub(crate) fn put_constants(
    alloc: Global,
    types: &Types<'_>,
    walk: &mut Walk,
    op: &Op,
) -> Result<(), OutOfMemory>
    ensures { OnOk result (walk.new ≡ with_ops walk.old
        (spec.constant_maker (kind_of types.now.defs) op.now)) }
{
    match op {
        Op::Bin(_, t, x, y) => put_two(alloc, types, walk, op, (t, x), (t, y)),
        Op::Cmp(_, t, x, y) => put_two(alloc, types, walk, op, (t, x), (t, y)),
        Op::Select(_, _, t, x, u, y) => put_two(alloc, types, walk, op, (t, x), (u, y)),
        Op::Store(t, x, _, _) => put_numbers(alloc, types, walk, op, 0, (t, x)),
        Op::Ret(Some(v)) => put_numbers(alloc, types, walk, op, 0, (&v.0, &v.1)),
        Op::Call(_, _, xs) => put_arguments(alloc, types, walk, op, xs.as_slice()),
        _ => Ok(()),
    }
}
