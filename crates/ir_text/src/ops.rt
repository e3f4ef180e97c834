//! The text of instructions.
ghost use Rattle.ir_text.specs.Parts as parts;
ghost use Rattle.ir_text.specs.Printing.{with_tokens};
ghost use Rattle.ir_tree.specs.declared.op.Op.TheVariants as tree;
ghost use Rattle.std.specs.Prelude.{◌≡◌, OnOk};

use crate::lists::{put_arguments, put_cases, put_entries, put_indices, put_target};
use crate::operands::{put_operand, put_typed};
use crate::sheet::Sheet;
use crate::types::put_type;
use am_base::{BinOp, Cast, OutOfMemory, Pred};
use ir_tree::{Name, Op, Opd, TyText};

#[tactic(auto, using(crate::proofs::Steps::step, crate::proofs::Steps::part), unfolding(crate::specs::Parts::op_lexemes))]
fn put_binary(
    sheet: &mut Sheet,
    op: BinOp,
    ty: &TyText,
    a: &Opd,
    b: &Opd,
) -> Result<(), OutOfMemory>
    ensures { OnOk result
        (sheet.new ≡ with_tokens sheet.old (parts.op_lexemes (tree.Bin op ty.now a.now b.now))) }
{
    sheet.binary(op)?;
    put_type(sheet, ty)?;
    put_operand(sheet, a)?;
    sheet.sign(b',')?;
    put_operand(sheet, b)?;
    Ok(())
}

#[tactic(auto, using(crate::proofs::Steps::step, crate::proofs::Steps::part), unfolding(crate::specs::Parts::op_lexemes))]
fn put_compare(
    sheet: &mut Sheet,
    pred: Pred,
    ty: &TyText,
    a: &Opd,
    b: &Opd,
) -> Result<(), OutOfMemory>
    ensures { OnOk result
        (sheet.new ≡ with_tokens sheet.old (parts.op_lexemes (tree.Cmp pred ty.now a.now b.now))) }
{
    sheet.word(b"icmp")?;
    sheet.predicate(pred)?;
    put_type(sheet, ty)?;
    put_operand(sheet, a)?;
    sheet.sign(b',')?;
    put_operand(sheet, b)?;
    Ok(())
}

#[tactic(auto, using(crate::proofs::Steps::step, crate::proofs::Steps::part), unfolding(crate::specs::Parts::op_lexemes))]
fn put_select(
    sheet: &mut Sheet,
    s: &TyText,
    condition: &Opd,
    t: &TyText,
    a: &Opd,
    u: &TyText,
    b: &Opd,
) -> Result<(), OutOfMemory>
    ensures { OnOk result (sheet.new ≡ with_tokens sheet.old
        (parts.op_lexemes (tree.Select s.now condition.now t.now a.now u.now b.now))) }
{
    sheet.word(b"select")?;
    put_typed(sheet, s, condition)?;
    sheet.sign(b',')?;
    put_typed(sheet, t, a)?;
    sheet.sign(b',')?;
    put_typed(sheet, u, b)?;
    Ok(())
}

#[tactic(auto, using(crate::proofs::Steps::step, crate::proofs::Steps::part), unfolding(crate::specs::Parts::op_lexemes))]
fn put_cast(
    sheet: &mut Sheet,
    cast: Cast,
    ty: &TyText,
    a: &Opd,
    to: &TyText,
) -> Result<(), OutOfMemory>
    ensures { OnOk result
        (sheet.new ≡ with_tokens sheet.old
        (parts.op_lexemes (tree.Cast cast ty.now a.now to.now))) }
{
    sheet.cast(cast)?;
    put_typed(sheet, ty, a)?;
    sheet.word(b"to")?;
    put_type(sheet, to)?;
    Ok(())
}

#[tactic(auto, using(crate::proofs::Steps::step), unfolding(crate::specs::Parts::op_lexemes))]
fn put_freeze(sheet: &mut Sheet, ty: &TyText, a: &Opd) -> Result<(), OutOfMemory>
    ensures { OnOk result
        (sheet.new ≡ with_tokens sheet.old (parts.op_lexemes (tree.Freeze ty.now a.now))) }
{
    sheet.word(b"freeze")?;
    put_typed(sheet, ty, a)?;
    Ok(())
}

#[tactic(auto, using(crate::proofs::Steps::step, crate::proofs::Steps::done))]
fn put_count(sheet: &mut Sheet, count: &Option<(TyText, Opd)>) -> Result<(), OutOfMemory>
    ensures { OnOk result (sheet.new ≡ with_tokens sheet.old (parts.count count.now)) }
{
    match count {
        None => Ok(()),
        Some(count) => {
            sheet.sign(b',')?;
            put_typed(sheet, &count.0, &count.1)?;
            Ok(())
        }
    }
}

#[tactic(auto, using(crate::proofs::Steps::step, crate::proofs::Steps::part), unfolding(crate::specs::Parts::op_lexemes))]
fn put_alloca(
    sheet: &mut Sheet,
    ty: &TyText,
    count: &Option<(TyText, Opd)>,
) -> Result<(), OutOfMemory>
    ensures { OnOk result
        (sheet.new ≡ with_tokens sheet.old (parts.op_lexemes (tree.Alloca ty.now count.now))) }
{
    sheet.word(b"alloca")?;
    put_type(sheet, ty)?;
    put_count(sheet, count)?;
    Ok(())
}

#[tactic(auto, using(crate::proofs::Steps::step, crate::proofs::Steps::part), unfolding(crate::specs::Parts::op_lexemes))]
fn put_load(sheet: &mut Sheet, ty: &TyText, base: &TyText, address: &Opd) -> Result<(), OutOfMemory>
    ensures { OnOk result
        (sheet.new ≡ with_tokens sheet.old
        (parts.op_lexemes (tree.Load ty.now base.now address.now))) }
{
    sheet.word(b"load")?;
    put_type(sheet, ty)?;
    sheet.sign(b',')?;
    put_typed(sheet, base, address)?;
    Ok(())
}

#[tactic(auto, using(crate::proofs::Steps::step, crate::proofs::Steps::part), unfolding(crate::specs::Parts::op_lexemes))]
fn put_store(
    sheet: &mut Sheet,
    ty: &TyText,
    value: &Opd,
    base: &TyText,
    address: &Opd,
) -> Result<(), OutOfMemory>
    ensures { OnOk result
        (sheet.new ≡ with_tokens sheet.old
        (parts.op_lexemes (tree.Store ty.now value.now base.now address.now))) }
{
    sheet.word(b"store")?;
    put_typed(sheet, ty, value)?;
    sheet.sign(b',')?;
    put_typed(sheet, base, address)?;
    Ok(())
}

#[tactic(auto, using(crate::proofs::Steps::step, crate::proofs::Steps::part), unfolding(crate::specs::Parts::op_lexemes))]
fn put_get(
    sheet: &mut Sheet,
    of: &TyText,
    ty: &TyText,
    base: &Opd,
    indices: &[(TyText, Opd)],
) -> Result<(), OutOfMemory>
    ensures { OnOk result
        (sheet.new ≡ with_tokens sheet.old
        (parts.op_lexemes (tree.Get of.now ty.now base.now indices.now))) }
{
    sheet.word(b"getelementptr")?;
    put_type(sheet, of)?;
    sheet.sign(b',')?;
    put_typed(sheet, ty, base)?;
    put_indices(sheet, indices)?;
    Ok(())
}

#[tactic(auto, using(crate::proofs::Steps::step, crate::proofs::Steps::part), unfolding(crate::specs::Parts::op_lexemes))]
fn put_phi(sheet: &mut Sheet, ty: &TyText, entries: &[(Opd, Name)]) -> Result<(), OutOfMemory>
    ensures { OnOk result
        (sheet.new ≡ with_tokens sheet.old (parts.op_lexemes (tree.Phi ty.now entries.now))) }
{
    sheet.word(b"phi")?;
    put_type(sheet, ty)?;
    put_entries(sheet, entries)?;
    Ok(())
}

#[tactic(auto, using(crate::proofs::Steps::step, crate::proofs::Steps::part, crate::proofs::Steps::last), unfolding(crate::specs::Parts::op_lexemes))]
fn put_call(
    sheet: &mut Sheet,
    ty: &TyText,
    callee: &Name,
    arguments: &[(TyText, Opd)],
) -> Result<(), OutOfMemory>
    ensures { OnOk result
        (sheet.new ≡ with_tokens sheet.old
        (parts.op_lexemes (tree.Call ty.now callee.now arguments.now))) }
{
    sheet.word(b"call")?;
    put_type(sheet, ty)?;
    sheet.global(callee)?;
    sheet.sign(b'(')?;
    put_arguments(sheet, arguments)?;
    sheet.sign(b')')?;
    Ok(())
}

#[tactic(auto, using(crate::proofs::Steps::step), unfolding(crate::specs::Parts::op_lexemes))]
fn put_jump(sheet: &mut Sheet, to: &Name) -> Result<(), OutOfMemory>
    ensures { OnOk result
        (sheet.new ≡ with_tokens sheet.old (parts.op_lexemes (tree.Jump to.now))) }
{
    sheet.word(b"br")?;
    put_target(sheet, to)?;
    Ok(())
}

#[tactic(auto, using(crate::proofs::Steps::step, crate::proofs::Steps::part), unfolding(crate::specs::Parts::op_lexemes))]
fn put_branch(
    sheet: &mut Sheet,
    ty: &TyText,
    condition: &Opd,
    chosen: &Name,
    other: &Name,
) -> Result<(), OutOfMemory>
    ensures { OnOk result
        (sheet.new ≡ with_tokens sheet.old
        (parts.op_lexemes (tree.Branch ty.now condition.now chosen.now other.now))) }
{
    sheet.word(b"br")?;
    put_typed(sheet, ty, condition)?;
    sheet.sign(b',')?;
    put_target(sheet, chosen)?;
    sheet.sign(b',')?;
    put_target(sheet, other)?;
    Ok(())
}

#[tactic(auto, using(crate::proofs::Steps::step, crate::proofs::Steps::part, crate::proofs::Steps::last), unfolding(crate::specs::Parts::op_lexemes))]
fn put_switch(
    sheet: &mut Sheet,
    ty: &TyText,
    value: &Opd,
    other: &Name,
    cases: &[(TyText, Opd, Name)],
) -> Result<(), OutOfMemory>
    ensures { OnOk result
        (sheet.new ≡ with_tokens sheet.old
        (parts.op_lexemes (tree.Switch ty.now value.now other.now cases.now))) }
{
    sheet.word(b"switch")?;
    put_typed(sheet, ty, value)?;
    sheet.sign(b',')?;
    put_target(sheet, other)?;
    sheet.sign(b'[')?;
    put_cases(sheet, cases)?;
    sheet.sign(b']')?;
    Ok(())
}

#[tactic(auto, using(crate::proofs::Steps::last))]
fn put_returned(sheet: &mut Sheet, value: &Option<(TyText, Opd)>) -> Result<(), OutOfMemory>
    ensures { OnOk result (sheet.new ≡ with_tokens sheet.old (parts.returned value.now)) }
{
    match value {
        None => {
            sheet.word(b"void")?;
            Ok(())
        }
        Some(value) => put_typed(sheet, &value.0, &value.1),
    }
}

#[tactic(auto, using(crate::proofs::Steps::step), unfolding(crate::specs::Parts::op_lexemes))]
fn put_ret(sheet: &mut Sheet, value: &Option<(TyText, Opd)>) -> Result<(), OutOfMemory>
    ensures { OnOk result
        (sheet.new ≡ with_tokens sheet.old (parts.op_lexemes (tree.Ret value.now))) }
{
    sheet.word(b"ret")?;
    put_returned(sheet, value)?;
    Ok(())
}

#[tactic(auto, using(crate::proofs::Steps::last), unfolding(crate::specs::Parts::op_lexemes))]
fn put_unreachable(sheet: &mut Sheet) -> Result<(), OutOfMemory>
    ensures { OnOk result (sheet.new ≡ with_tokens sheet.old (parts.op_lexemes tree.Unreachable)) }
{
    sheet.word(b"unreachable")?;
    Ok(())
}

/// Writes an instruction, without its result.
pub fn put_op(sheet: &mut Sheet, op: &Op) -> Result<(), OutOfMemory>
    ensures { OnOk result (sheet.new ≡ with_tokens sheet.old (parts.op_lexemes op.now)) }
{
    match op {
        Op::Bin(op, ty, a, b) => put_binary(sheet, *op, ty, a, b),
        Op::Cmp(pred, ty, a, b) => put_compare(sheet, *pred, ty, a, b),
        Op::Select(s, c, t, a, u, b) => put_select(sheet, s, c, t, a, u, b),
        Op::Cast(cast, ty, a, to) => put_cast(sheet, *cast, ty, a, to),
        Op::Freeze(ty, a) => put_freeze(sheet, ty, a),
        Op::Alloca(ty, count) => put_alloca(sheet, ty, count),
        Op::Load(ty, base, a) => put_load(sheet, ty, base, a),
        Op::Store(t, a, u, b) => put_store(sheet, t, a, u, b),
        Op::Get(of, ty, base, indices) => put_get(sheet, of, ty, base, indices.as_slice()),
        Op::Phi(ty, entries) => put_phi(sheet, ty, entries.as_slice()),
        Op::Call(ty, callee, args) => put_call(sheet, ty, callee, args.as_slice()),
        Op::Jump(to) => put_jump(sheet, to),
        Op::Branch(ty, a, chosen, other) => put_branch(sheet, ty, a, chosen, other),
        Op::Switch(ty, a, other, cases) => put_switch(sheet, ty, a, other, cases.as_slice()),
        Op::Ret(value) => put_ret(sheet, value),
        Op::Unreachable => put_unreachable(sheet),
    }
}
