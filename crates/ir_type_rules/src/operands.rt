//! The operands of an instruction, each with the type that is written for it.
ghost use Rattle.std.specs.Prelude.{◌≡◌, [], ◌∷◌, ◌++◌, map, OnOk, IfOk};
ghost use Rattle.ir_rules.specs.Parts as spec;
ghost use Rattle.ir_rules.specs.Parts.{maybe, Typed as Pair};

use am_base::OutOfMemory;
use am_lists::Items;
use ir_tree::{Name, Op, Opd, TyText};
use std::alloc::Global;

/// An operand behind its type.
pub type Typed<'a> = (&'a TyText, &'a Opd);

fn one<'a>(alloc: Global, t: &'a TyText, a: &'a Opd) -> Result<Items<Typed<'a>>, OutOfMemory>
    ensures { IfOk result (λ list. map {B = Pair} (λ v. (v.0.now, v.1.now)) list ≡ (t.now, a.now) ∷ []) }
{
    let mut list = Items::new(alloc);
    list.push((t, a))?;
    Ok(list)
}

fn two<'a>(
    alloc: Global,
    t: &'a TyText,
    a: &'a Opd,
    u: &'a TyText,
    b: &'a Opd,
) -> Result<Items<Typed<'a>>, OutOfMemory>
    ensures { IfOk result (λ list. map {B = Pair} (λ v. (v.0.now, v.1.now)) list
        ≡ (t.now, a.now) ∷ (u.now, b.now) ∷ []) }
{
    let mut list = Items::new(alloc);
    list.push((t, a))?;
    list.push((u, b))?;
    Ok(list)
}

/// Appends an operand.
pub fn add_operand<'a>(
    list: &mut Items<Typed<'a>>,
    t: &'a TyText,
    a: &'a Opd,
) -> Result<(), OutOfMemory>
    ensures { OnOk result (map {B = Pair} (λ v. (v.0.now, v.1.now)) list.new
        ≡ map {B = Pair} (λ v. (v.0.now, v.1.now)) list.old ++ (t.now, a.now) ∷ []) }
{
    list.push((t, a))?;
    Ok(())
}

fn maybe_one<'a>(
    alloc: Global,
    value: &'a Option<(TyText, Opd)>,
) -> Result<Items<Typed<'a>>, OutOfMemory>
    ensures { IfOk result (λ list. map {B = Pair} (λ v. (v.0.now, v.1.now)) list ≡ maybe value.now) }
{
    let mut list = Items::new(alloc);
    if let Some(value) = value {
        list.push((&value.0, &value.1))?;
    }
    Ok(list)
}

fn all<'a>(alloc: Global, operands: &'a [(TyText, Opd)]) -> Result<Items<Typed<'a>>, OutOfMemory>
    ensures { IfOk result (λ list. map {B = Pair} (λ v. (v.0.now, v.1.now)) list ≡ operands.now) }
{
    let mut list = Items::new(alloc);
    'each: for operand in operands {
        list.push((&operand.0, &operand.1))?;
    }
    Ok(list)
}

fn with_indices<'a>(
    alloc: Global,
    t: &'a TyText,
    a: &'a Opd,
    indices: &'a [(TyText, Opd)],
) -> Result<Items<Typed<'a>>, OutOfMemory>
    ensures { IfOk result (λ list. map {B = Pair} (λ v. (v.0.now, v.1.now)) list ≡ (t.now, a.now) ∷ indices.now) }
{
    let mut list = one(alloc, t, a)?;
    'each: for index in indices {
        list.push((&index.0, &index.1))?;
    }
    Ok(list)
}

fn of_entries<'a>(
    alloc: Global,
    t: &'a TyText,
    entries: &'a [(Opd, Name)],
) -> Result<Items<Typed<'a>>, OutOfMemory>
    ensures { IfOk result (λ list. map {B = Pair} (λ v. (v.0.now, v.1.now)) list
        ≡ map {B = Pair} (λ e. (t.now, e.0)) entries.now) }
{
    let mut list = Items::new(alloc);
    'each: for entry in entries {
        list.push((t, &entry.0))?;
    }
    Ok(list)
}

fn with_cases<'a>(
    alloc: Global,
    t: &'a TyText,
    a: &'a Opd,
    cases: &'a [(TyText, Opd, Name)],
) -> Result<Items<Typed<'a>>, OutOfMemory>
    ensures { IfOk result (λ list. map {B = Pair} (λ v. (v.0.now, v.1.now)) list
        ≡ (t.now, a.now) ∷ map {B = Pair} (λ c. (c.0, c.1)) cases.now) }
{
    let mut list = one(alloc, t, a)?;
    'each: for case in cases {
        list.push((&case.0, &case.1))?;
    }
    Ok(list)
}

fn three<'a>(
    alloc: Global,
    first: Typed<'a>,
    second: Typed<'a>,
    third: Typed<'a>,
) -> Result<Items<Typed<'a>>, OutOfMemory>
    ensures { IfOk result (λ list. map {B = Pair} (λ v. (v.0.now, v.1.now)) list
        ≡ (first.entry.0.now, first.entry.1.now) ∷ (second.entry.0.now, second.entry.1.now)
        ∷ (third.entry.0.now, third.entry.1.now) ∷ []) }
{
    let mut list = Items::new(alloc);
    list.push(first)?;
    list.push(second)?;
    list.push(third)?;
    Ok(list)
}

/// Returns the operands of an instruction, each with the type that is written for it.
pub fn op_operands<'a>(alloc: Global, op: &'a Op) -> Result<Items<Typed<'a>>, OutOfMemory>
    ensures { IfOk result (λ list. map {B = Pair} (λ v. (v.0.now, v.1.now)) list ≡ spec.op_operands op.now) }
{
    match op {
        Op::Bin(_, t, a, b) | Op::Cmp(_, t, a, b) => two(alloc, t, a, t, b),
        Op::Select(s, c, t, a, u, b) => three(alloc, (s, c), (t, a), (u, b)),
        Op::Cast(_, t, a, _) | Op::Freeze(t, a) | Op::Load(_, t, a) => one(alloc, t, a),
        Op::Alloca(_, count) => maybe_one(alloc, count),
        Op::Store(t, a, u, b) => two(alloc, t, a, u, b),
        Op::Get(_, t, a, indices) => with_indices(alloc, t, a, indices.as_slice()),
        Op::Phi(t, entries) => of_entries(alloc, t, entries.as_slice()),
        Op::Call(_, _, args) => all(alloc, args.as_slice()),
        Op::Branch(t, c, _, _) => one(alloc, t, c),
        Op::Switch(t, a, _, cases) => with_cases(alloc, t, a, cases.as_slice()),
        Op::Ret(value) => maybe_one(alloc, value),
        Op::Jump(_) | Op::Unreachable => Ok(Items::new(alloc)),
    }
}
