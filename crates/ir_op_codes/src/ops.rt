//! Instructions by registers, words, blocks and functions.
ghost use Rattle.std.specs.Prelude.{◌≡◌, All, IfOk, false};
ghost use Rattle.std.specs.Option.{option_copied};
ghost use Rattle.ir_tree.specs.declared.op.Op.TheVariants as written;
ghost use Rattle.ir_rules.specs.Types.{is_large, expanded};
ghost use Rattle.type_layout.specs.Types.{size_of, align_of};
ghost use Rattle.ir_op_codes.specs.Paths.{size_in, align_in};
ghost use Rattle.ir_op_codes.specs.Words.{IsFit};
ghost use Rattle.ir_op_codes.specs.Settings.{code_by, IsFitMaybe, AreFit, OpFits};

use crate::lists::{cases, entries, indices};
use crate::names::Names;
use crate::paths::steps_of;
use crate::reads::{operands, two, typed};
use crate::words::{kind_width, literal_part};
use am_base::{BinOp, Cast, OutOfMemory, Pred};
use am_lists::Items;
use code_form::{Instr, Operand};
use ir_tree::{Name, Op, Opd, TyText};
use ir_types::Types;
use std::alloc::Global;
use type_table::Extent;

fn binary(
    alloc: Global,
    types: &mut Types<'_>,
    names: &Names<'_>,
    o: BinOp,
    t: &TyText,
    a: &Opd,
    b: &Opd,
) -> Result<Instr, OutOfMemory>
    requires first { IsFit types.old.defs a.now }
    requires second { IsFit types.old.defs b.now }
    ensures defs { types.new.defs ≡ types.old.defs }
    ensures code { IfOk result (λ i. i ≡ code_by types.old.defs names.now (written.Bin o t.now a.now b.now)) }
{
    let w = kind_width(types.kind(t));
    let (a, b) = two(alloc, types, names, (t, a), (t, b))?;
    Ok(Instr::Bin(o, w, a, b))
}

fn comparison(
    alloc: Global,
    types: &mut Types<'_>,
    names: &Names<'_>,
    p: Pred,
    t: &TyText,
    a: &Opd,
    b: &Opd,
) -> Result<Instr, OutOfMemory>
    requires first { IsFit types.old.defs a.now }
    requires second { IsFit types.old.defs b.now }
    ensures defs { types.new.defs ≡ types.old.defs }
    ensures code { IfOk result (λ i. i ≡ code_by types.old.defs names.now (written.Cmp p t.now a.now b.now)) }
{
    let w = kind_width(types.kind(t));
    let (a, b) = two(alloc, types, names, (t, a), (t, b))?;
    Ok(Instr::Cmp(p, w, a, b))
}

fn selection(
    alloc: Global,
    types: &mut Types<'_>,
    names: &Names<'_>,
    c: (&TyText, &Opd),
    a: (&TyText, &Opd),
    b: (&TyText, &Opd),
) -> Result<Instr, OutOfMemory>
    requires condition { IsFit types.old.defs c.1.now }
    requires first { IsFit types.old.defs a.1.now }
    requires second { IsFit types.old.defs b.1.now }
    ensures defs { types.new.defs ≡ types.old.defs }
    ensures code { IfOk result (λ i. i
        ≡ code_by types.old.defs names.now (written.Select c.entry.0.now c.entry.1.now a.entry.0.now a.entry.1.now b.entry.0.now b.entry.1.now)) }
{
    let (c, a) = two(alloc, types, names, c, a)?;
    let b = typed(alloc, types, names, b.0, b.1)?;
    Ok(Instr::Select(c, a, b))
}

fn conversion(
    alloc: Global,
    types: &mut Types<'_>,
    names: &Names<'_>,
    cast: Cast,
    a: (&TyText, &Opd),
    to: &TyText,
) -> Result<Instr, OutOfMemory>
    requires { IsFit types.old.defs a.1.now }
    ensures defs { types.new.defs ≡ types.old.defs }
    ensures code { IfOk result (λ i. i ≡ code_by types.old.defs names.now (written.Cast cast a.entry.0.now a.entry.1.now to.now)) }
{
    let before = kind_width(types.kind(a.0));
    let after = kind_width(types.kind(to));
    let a = typed(alloc, types, names, a.0, a.1)?;
    Ok(Instr::Cast(cast, before, after, a))
}

fn load(
    alloc: Global,
    types: &mut Types<'_>,
    names: &Names<'_>,
    t: &TyText,
    a: (&TyText, &Opd),
) -> Result<Instr, OutOfMemory>
    requires { IsFit types.old.defs a.1.now }
    ensures defs { types.new.defs ≡ types.old.defs }
    ensures code { IfOk result (λ i. i ≡ code_by types.old.defs names.now (written.Load t.now a.entry.0.now a.entry.1.now)) }
{
    let w = kind_width(types.kind(t));
    let a = typed(alloc, types, names, a.0, a.1)?;
    Ok(Instr::Load(w, a))
}

fn store(
    alloc: Global,
    types: &mut Types<'_>,
    names: &Names<'_>,
    a: (&TyText, &Opd),
    b: (&TyText, &Opd),
) -> Result<Instr, OutOfMemory>
    requires first { IsFit types.old.defs a.1.now }
    requires second { IsFit types.old.defs b.1.now }
    ensures defs { types.new.defs ≡ types.old.defs }
    ensures code { IfOk result (λ i. i ≡ code_by types.old.defs names.now (written.Store a.entry.0.now a.entry.1.now b.entry.0.now b.entry.1.now)) }
{
    let w = kind_width(types.kind(a.0));
    let (a, b) = two(alloc, types, names, a, b)?;
    Ok(Instr::Store(w, a, b))
}

fn branch(
    alloc: Global,
    types: &mut Types<'_>,
    names: &Names<'_>,
    c: (&TyText, &Opd),
    yes: &Name,
    no: &Name,
) -> Result<Instr, OutOfMemory>
    requires { IsFit types.old.defs c.1.now }
    ensures defs { types.new.defs ≡ types.old.defs }
    ensures code { IfOk result (λ i. i ≡ code_by types.old.defs names.now (written.Branch c.entry.0.now c.entry.1.now yes.now no.now)) }
{
    let c = typed(alloc, types, names, c.0, c.1)?;
    Ok(Instr::Branch(c, names.block(yes), names.block(no)))
}

fn switch(
    alloc: Global,
    types: &mut Types<'_>,
    names: &Names<'_>,
    a: (&TyText, &Opd),
    other: &Name,
    list: &Items<(TyText, Opd, Name)>,
) -> Result<Instr, OutOfMemory>
    requires { IsFit types.old.defs a.1.now }
    ensures defs { types.new.defs ≡ types.old.defs }
    ensures code { IfOk result (λ i. i ≡ code_by types.old.defs names.now (written.Switch a.entry.0.now a.entry.1.now other.now list.now)) }
{
    let w = kind_width(types.kind(a.0));
    let cases = cases(alloc, types, names, a.0, list.as_slice())?;
    let a = typed(alloc, types, names, a.0, a.1)?;
    Ok(Instr::Switch(w, a, names.block(other), cases))
}

fn call(
    alloc: Global,
    types: &mut Types<'_>,
    names: &Names<'_>,
    t: &TyText,
    name: &Name,
    args: &Items<(TyText, Opd)>,
) -> Result<Instr, OutOfMemory>
    requires { AreFit types.old.defs args.now }
    ensures defs { types.new.defs ≡ types.old.defs }
    ensures code { IfOk result (λ i. i ≡ code_by types.old.defs names.now (written.Call t.now name.now args.now)) }
{
    let callee = names.callee(alloc, name)?;
    let args = operands(alloc, types, names, args.as_slice())?;
    Ok(Instr::Call(callee, args))
}

fn path(
    alloc: Global,
    types: &mut Types<'_>,
    names: &Names<'_>,
    of: &TyText,
    a: (&TyText, &Opd),
    list: &Items<(TyText, Opd)>,
) -> Result<Instr, OutOfMemory>
    requires large { is_large types.old.defs of.now ≡ false }
    requires base { IsFit types.old.defs a.1.now }
    requires indices { AreFit types.old.defs list.now }
    ensures defs { types.new.defs ≡ types.old.defs }
    ensures code { IfOk result (λ i. i ≡ code_by types.old.defs names.now (written.Get of.now a.entry.0.now a.entry.1.now list.now)) }
{
    let steps = steps_of(alloc, types, of, list.as_slice())?;
    let literal = literal_part(types, steps.as_slice());
    let base = typed(alloc, types, names, a.0, a.1)?;
    let others = indices(alloc, types, names, steps.as_slice())?;
    Ok(Instr::Get(base, literal, others))
}

fn size_and_align(extent: Option<&Extent>) -> (u64, u64)
    ensures size { result.0 ≡ size_in (option_copied extent.entry) }
    ensures align { result.1 ≡ align_in (option_copied extent.entry) }
{
    match extent {
        None => (0, 0),
        Some(extent) => (extent.size, extent.align),
    }
}

/// Returns the size and the alignment of a type, in bytes.
fn room_of(alloc: Global, types: &mut Types<'_>, t: &TyText) -> Result<(u64, u64), OutOfMemory>
    requires { is_large types.old.defs t.now ≡ false }
    ensures defs { types.new.defs ≡ types.old.defs }
    ensures size { IfOk result (λ r. r.0 ≡ size_of (expanded types.old.defs t.now)) }
    ensures align { IfOk result (λ r. r.1 ≡ align_of (expanded types.old.defs t.now)) }
{
    let number = types.number(alloc, t)?;
    Ok(size_and_align(types.table().extent(number)))
}

fn alloca(
    alloc: Global,
    types: &mut Types<'_>,
    names: &Names<'_>,
    t: &TyText,
    count: &Option<(TyText, Opd)>,
) -> Result<Instr, OutOfMemory>
    requires large { is_large types.old.defs t.now ≡ false }
    requires count { IsFitMaybe types.old.defs count.now }
    ensures defs { types.new.defs ≡ types.old.defs }
    ensures code { IfOk result (λ i. i ≡ code_by types.old.defs names.now (written.Alloca t.now count.now)) }
{
    let (size, align) = room_of(alloc, types, t)?;
    let count = match count {
        None => Operand::Word(1),
        Some(v) => typed(alloc, types, names, &v.0, &v.1)?,
    };
    Ok(Instr::Alloca(size, align, count))
}

fn value(
    alloc: Global,
    types: &mut Types<'_>,
    names: &Names<'_>,
    v: &Option<(TyText, Opd)>,
) -> Result<Instr, OutOfMemory>
    requires { IsFitMaybe types.old.defs v.now }
    ensures defs { types.new.defs ≡ types.old.defs }
    ensures code { IfOk result (λ i. i ≡ code_by types.old.defs names.now (written.Ret v.now)) }
{
    match v {
        None => Ok(Instr::Ret(None)),
        Some(v) => Ok(Instr::Ret(Some(typed(alloc, types, names, &v.0, &v.1)?))),
    }
}

fn phi(
    alloc: Global,
    types: &mut Types<'_>,
    names: &Names<'_>,
    t: &TyText,
    list: &Items<(Opd, Name)>,
) -> Result<Instr, OutOfMemory>
    requires { All (λ e. IsFit types.old.defs e.0) list.now }
    ensures defs { types.new.defs ≡ types.old.defs }
    ensures code { IfOk result (λ i. i ≡ code_by types.old.defs names.now (written.Phi t.now list.now)) }
{
    Ok(Instr::Phi(entries(alloc, types, names, t, list.as_slice())?))
}

/// Returns the code of an instruction: its names are replaced by registers, blocks, functions,
/// ports and addresses, and its types by widths, sizes and offsets. It takes time about linear in
/// what is written.
pub fn op_code(
    alloc: Global,
    types: &mut Types<'_>,
    names: &Names<'_>,
    op: &Op,
) -> Result<Instr, OutOfMemory>
    requires { OpFits types.old.defs op.now }
    ensures defs { types.new.defs ≡ types.old.defs }
    ensures code { IfOk result (λ i. i ≡ code_by types.old.defs names.now op.now) }
{
    match op {
        Op::Bin(o, t, a, b) => binary(alloc, types, names, *o, t, a, b),
        Op::Cmp(p, t, a, b) => comparison(alloc, types, names, *p, t, a, b),
        Op::Select(s, c, t, a, u, b) => selection(alloc, types, names, (s, c), (t, a), (u, b)),
        Op::Cast(c, t, a, to) => conversion(alloc, types, names, *c, (t, a), to),
        Op::Freeze(t, a) => Ok(Instr::Freeze(typed(alloc, types, names, t, a)?)),
        Op::Alloca(t, count) => alloca(alloc, types, names, t, count),
        Op::Load(t, u, a) => load(alloc, types, names, t, (u, a)),
        Op::Store(t, a, u, b) => store(alloc, types, names, (t, a), (u, b)),
        Op::Get(of, t, a, list) => path(alloc, types, names, of, (t, a), list),
        Op::Phi(t, list) => phi(alloc, types, names, t, list),
        Op::Call(t, name, args) => call(alloc, types, names, t, name, args),
        Op::Jump(to) => Ok(Instr::Jump(names.block(to))),
        Op::Branch(t, c, yes, no) => branch(alloc, types, names, (t, c), yes, no),
        Op::Switch(t, a, other, list) => switch(alloc, types, names, (t, a), other, list),
        Op::Ret(v) => value(alloc, types, names, v),
        Op::Unreachable => Ok(Instr::Unreachable),
    }
}
