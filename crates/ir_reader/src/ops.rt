//! Instructions other than calls and jumps, and the choice among all.
ghost use Rattle.ir_reader_tokens.specs.Reads.{Reads, Takes};
ghost use Rattle.ir_grammar.specs.Ops as spec;
ghost use Rattle.ir_grammar.specs.declared.starts.OpStart.TheVariants as start;
ghost use Rattle.std.specs.Prelude.{◌≡◌};

use crate::calls::{plain_call, tail_call};
use crate::jumps::{branch, phi, switch};
use am_base::{BinOp, Cast};
use ir_grammar::OpStart;
use ir_reader_parts::{
    Ignored, further_operands, operand, optional, repeated, type_text, typed_operand,
};
use ir_reader_tokens::{Cursor, PartError};
use ir_tree::{Op, Opd, TyText};
use std::alloc::Global;

/// `add` to `xor`.
fn binary(alloc: Global, cursor: &mut Cursor<'_>, op: BinOp) -> Result<Op, PartError>
    ensures { Reads ((spec.op_by (start.Bin op)).parse cursor.old) result cursor.new }
{
    cursor.next()?;
    repeated(alloc, cursor, Ignored::ArithmeticFlags)?;
    let ty = type_text(alloc, cursor)?;
    let a = operand(alloc, cursor)?;
    cursor.sign(b',')?;
    let b = operand(alloc, cursor)?;
    Ok(Op::Bin(op, ty, a, b))
}

/// `icmp`.
fn compare(alloc: Global, cursor: &mut Cursor<'_>) -> Result<Op, PartError>
    ensures { Reads ((spec.op_by start.Cmp).parse cursor.old) result cursor.new }
{
    cursor.next()?;
    optional(cursor, b"samesign")?;
    let pred = cursor.predicate()?;
    let ty = type_text(alloc, cursor)?;
    let a = operand(alloc, cursor)?;
    cursor.sign(b',')?;
    let b = operand(alloc, cursor)?;
    Ok(Op::Cmp(pred, ty, a, b))
}

/// `select`.
fn select(alloc: Global, cursor: &mut Cursor<'_>) -> Result<Op, PartError>
    ensures { Reads ((spec.op_by start.Select).parse cursor.old) result cursor.new }
{
    cursor.next()?;
    let (s, c) = typed_operand(alloc, cursor)?;
    cursor.sign(b',')?;
    let (t, a) = typed_operand(alloc, cursor)?;
    cursor.sign(b',')?;
    let (u, b) = typed_operand(alloc, cursor)?;
    Ok(Op::Select(s, c, t, a, u, b))
}

/// `trunc` to `inttoptr`.
fn conversion(alloc: Global, cursor: &mut Cursor<'_>, cast: Cast) -> Result<Op, PartError>
    ensures { Reads ((spec.op_by (start.Cast cast)).parse cursor.old) result cursor.new }
{
    cursor.next()?;
    repeated(alloc, cursor, Ignored::CastFlags)?;
    let (ty, a) = typed_operand(alloc, cursor)?;
    cursor.word(b"to")?;
    let to = type_text(alloc, cursor)?;
    Ok(Op::Cast(cast, ty, a, to))
}

/// `freeze`.
fn freeze(alloc: Global, cursor: &mut Cursor<'_>) -> Result<Op, PartError>
    ensures { Reads ((spec.op_by start.Freeze).parse cursor.old) result cursor.new }
{
    cursor.next()?;
    let (ty, a) = typed_operand(alloc, cursor)?;
    Ok(Op::Freeze(ty, a))
}

/// `, T opd`, or nothing.
fn count(alloc: Global, cursor: &mut Cursor<'_>) -> Result<Option<(TyText, Opd)>, PartError>
    ensures { Reads (spec.count.parse cursor.old) result cursor.new }
{
    if !cursor.sees_more_types() {
        return Ok(None);
    }
    cursor.sign(b',')?;
    Ok(Some(typed_operand(alloc, cursor)?))
}

/// `alloca`.
fn alloca(alloc: Global, cursor: &mut Cursor<'_>) -> Result<Op, PartError>
    ensures { Reads ((spec.op_by start.Alloca).parse cursor.old) result cursor.new }
{
    cursor.next()?;
    let ty = type_text(alloc, cursor)?;
    let n = count(alloc, cursor)?;
    Ok(Op::Alloca(ty, n))
}

/// `load`.
fn load(alloc: Global, cursor: &mut Cursor<'_>) -> Result<Op, PartError>
    ensures { Reads ((spec.op_by start.Load).parse cursor.old) result cursor.new }
{
    cursor.next()?;
    optional(cursor, b"volatile")?;
    let ty = type_text(alloc, cursor)?;
    cursor.sign(b',')?;
    let (base, address) = typed_operand(alloc, cursor)?;
    Ok(Op::Load(ty, base, address))
}

/// `store`.
fn store(alloc: Global, cursor: &mut Cursor<'_>) -> Result<Op, PartError>
    ensures { Reads ((spec.op_by start.Store).parse cursor.old) result cursor.new }
{
    cursor.next()?;
    optional(cursor, b"volatile")?;
    let (ty, a) = typed_operand(alloc, cursor)?;
    cursor.sign(b',')?;
    let (base, address) = typed_operand(alloc, cursor)?;
    Ok(Op::Store(ty, a, base, address))
}

/// `getelementptr`.
fn get(alloc: Global, cursor: &mut Cursor<'_>) -> Result<Op, PartError>
    ensures { Reads ((spec.op_by start.Get).parse cursor.old) result cursor.new }
{
    cursor.next()?;
    repeated(alloc, cursor, Ignored::Flags)?;
    let of = type_text(alloc, cursor)?;
    cursor.sign(b',')?;
    let (ty, base) = typed_operand(alloc, cursor)?;
    let indices = further_operands(alloc, cursor)?;
    Ok(Op::Get(of, ty, base, indices))
}

/// `ret`.
fn ret(alloc: Global, cursor: &mut Cursor<'_>) -> Result<Op, PartError>
    ensures { Reads ((spec.op_by start.Ret).parse cursor.old) result cursor.new }
{
    cursor.next()?;
    if cursor.sees_word(b"void") {
        cursor.next()?;
        return Ok(Op::Ret(None));
    }
    Ok(Op::Ret(Some(typed_operand(alloc, cursor)?)))
}

/// `unreachable`.
fn unreachable(cursor: &mut Cursor<'_>) -> Result<Op, PartError>
    ensures { Takes ((spec.op_by start.Unreachable).parse cursor.old) result cursor.new }
{
    cursor.next()?;
    Ok(Op::Unreachable)
}

/// An instruction without its result.
#[tactic(auto, using(ir_reader_tokens::proofs::Taken::taken_read), unfolding(ir_grammar::specs::Ops::instruction))]
pub fn instruction(alloc: Global, cursor: &mut Cursor<'_>) -> Result<Op, PartError>
    ensures { Reads (spec.instruction.parse cursor.old) result cursor.new }
{
    match cursor.op_start() {
        OpStart::Bin(op) => binary(alloc, cursor, op),
        OpStart::Cmp => compare(alloc, cursor),
        OpStart::Select => select(alloc, cursor),
        OpStart::Cast(cast) => conversion(alloc, cursor, cast),
        OpStart::Freeze => freeze(alloc, cursor),
        OpStart::Alloca => alloca(alloc, cursor),
        OpStart::Load => load(alloc, cursor),
        OpStart::Store => store(alloc, cursor),
        OpStart::Get => get(alloc, cursor),
        OpStart::Phi => phi(alloc, cursor),
        OpStart::TailCall => tail_call(alloc, cursor),
        OpStart::Call => plain_call(alloc, cursor),
        OpStart::Branch => branch(alloc, cursor),
        OpStart::Switch => switch(alloc, cursor),
        OpStart::Ret => ret(alloc, cursor),
        OpStart::Unreachable => unreachable(cursor),
        OpStart::Nothing => Err(PartError::NotHere),
    }
}
