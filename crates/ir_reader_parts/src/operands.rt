//! Operands.
ghost use Rattle.ir_reader_tokens.specs.Reads.{Reads, Takes};
ghost use Rattle.ir_grammar.specs.Operands as spec;
ghost use Rattle.ir_grammar.specs.Rule as rule;
ghost use Rattle.ir_grammar.specs.Starts.{sees_type};
ghost use Rattle.ir_reader_parts.specs.Alone.{alone};
ghost use Rattle.std.specs.Prelude.{◌≡◌};

use crate::skips::{Ignored, repeated};
use crate::types::type_text;
use am_lists::Items;
use ir_grammar::OperandStart;
use ir_reader_tokens::{Cursor, PartError};
use ir_tree::{Opd, TyText};
use sqlite_items::Boxed;
use std::alloc::Global;

/// `T Number`.
fn constant_index(alloc: Global, cursor: &mut Cursor<'_>) -> Result<(TyText, i128), PartError>
    ensures { Reads (spec.constant_index.parse cursor.old) result cursor.new }
{
    let ty = type_text(alloc, cursor)?;
    let n = cursor.integer()?;
    Ok((ty, n))
}

/// `, T Number`, repeated while a comma and a type come next.
fn constant_indices(
    alloc: Global,
    cursor: &mut Cursor<'_>,
) -> Result<Items<(TyText, i128)>, PartError>
    ensures { Reads
        ((rule.further sees_type spec.constant_index).parse cursor.old) result cursor.new }
{
    let mut found = Items::new(alloc);
    'turns: while cursor.sees_more_types() {
        cursor.sign(b',')?;
        found.push(constant_index(alloc, cursor)?)?;
    }
    Ok(found)
}

/// A `getelementptr` constant.
fn get_constant(alloc: Global, cursor: &mut Cursor<'_>) -> Result<Opd, PartError>
    ensures { Reads (spec.get_constant.parse cursor.old) result cursor.new }
{
    cursor.next()?;
    repeated(alloc, cursor, Ignored::Flags)?;
    cursor.sign(b'(')?;
    let of = type_text(alloc, cursor)?;
    cursor.sign(b',')?;
    let base = type_text(alloc, cursor)?;
    let name = cursor.global_name(alloc)?;
    let indices = constant_indices(alloc, cursor)?;
    cursor.sign(b')')?;
    let parts = Boxed::new(alloc, (of, base, name, indices))?;
    Ok(Opd::Get(parts))
}

/// An operand that is the next word alone.
fn word(cursor: &mut Cursor<'_>, value: Opd) -> Result<Opd, PartError>
    ensures { Takes ((alone value).parse cursor.old) result cursor.new }
{
    cursor.next()?;
    Ok(value)
}

/// An operand.
#[tactic(auto, using(ir_reader_tokens::proofs::Taken::taken_read), unfolding(ir_grammar::specs::Operands::operand))]
pub fn operand(alloc: Global, cursor: &mut Cursor<'_>) -> Result<Opd, PartError>
    ensures { Reads (spec.operand.parse cursor.old) result cursor.new }
{
    match cursor.operand_start() {
        OperandStart::Local => Ok(Opd::Local(cursor.local(alloc)?)),
        OperandStart::Global => Ok(Opd::Global(cursor.global_name(alloc)?)),
        OperandStart::Number => Ok(Opd::Number(cursor.integer()?)),
        OperandStart::Get => get_constant(alloc, cursor),
        OperandStart::True => word(cursor, Opd::True),
        OperandStart::False => word(cursor, Opd::False),
        OperandStart::Null => word(cursor, Opd::Null),
        OperandStart::Undef => word(cursor, Opd::Undef),
        OperandStart::Poison => word(cursor, Opd::Poison),
        OperandStart::Zero => word(cursor, Opd::Zero),
        OperandStart::Nothing => Err(PartError::NotHere),
    }
}

/// `T opd`.
pub fn typed_operand(alloc: Global, cursor: &mut Cursor<'_>) -> Result<(TyText, Opd), PartError>
    ensures { Reads (spec.typed_operand.parse cursor.old) result cursor.new }
{
    let ty = type_text(alloc, cursor)?;
    let value = operand(alloc, cursor)?;
    Ok((ty, value))
}

/// `, T opd`, repeated while a comma and a type come next.
pub fn further_operands(
    alloc: Global,
    cursor: &mut Cursor<'_>,
) -> Result<Items<(TyText, Opd)>, PartError>
    ensures { Reads
        ((rule.further sees_type spec.typed_operand).parse cursor.old) result cursor.new }
{
    let mut found = Items::new(alloc);
    'turns: while cursor.sees_more_types() {
        cursor.sign(b',')?;
        found.push(typed_operand(alloc, cursor)?)?;
    }
    Ok(found)
}
