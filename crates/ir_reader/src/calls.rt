//! Calls.
ghost use Rattle.ir_reader_tokens.specs.Reads.{Reads};
ghost use Rattle.ir_grammar.specs.Ops as spec;
ghost use Rattle.ir_grammar.specs.Rule as rule;
ghost use Rattle.ir_grammar.specs.Starts.{sees_type};
ghost use Rattle.ir_grammar.specs.declared.starts.OpStart.TheVariants as start;
ghost use Rattle.std.specs.Prelude.{◌≡◌};

use am_lists::Items;
use ir_reader_parts::{Ignored, operand, repeated, result_type, type_text};
use ir_reader_tokens::{Cursor, PartError};
use ir_tree::{Op, Opd, TyText};
use std::alloc::Global;

/// An argument: `T skip* opd`.
fn argument(alloc: Global, cursor: &mut Cursor<'_>) -> Result<(TyText, Opd), PartError>
    ensures { Reads (spec.argument.parse cursor.old) result cursor.new }
{
    let ty = type_text(alloc, cursor)?;
    repeated(alloc, cursor, Ignored::Skips)?;
    let value = operand(alloc, cursor)?;
    Ok((ty, value))
}

/// The arguments between the brackets of a call.
fn arguments(alloc: Global, cursor: &mut Cursor<'_>) -> Result<Items<(TyText, Opd)>, PartError>
    ensures { Reads ((rule.listed sees_type spec.argument).parse cursor.old) result cursor.new }
{
    let mut found = Items::new(alloc);
    if !cursor.sees_type() {
        return Ok(found);
    }
    found.push(argument(alloc, cursor)?)?;
    further_arguments(alloc, cursor, found)
}

/// The further arguments, after those found so far.
fn further_arguments(
    alloc: Global,
    cursor: &mut Cursor<'_>,
    mut found: Items<(TyText, Opd)>,
) -> Result<Items<(TyText, Opd)>, PartError>
    ensures { Reads
        (rule.onto found
        ((rule.further sees_type spec.argument).parse cursor.old)) result cursor.new }
{
    'turns: while cursor.sees_more_types() {
        cursor.sign(b',')?;
        found.push(argument(alloc, cursor)?)?;
    }
    Ok(found)
}

/// The rest of a call, after the word `call`.
fn call(alloc: Global, cursor: &mut Cursor<'_>) -> Result<Op, PartError>
    ensures { Reads (spec.call.parse cursor.old) result cursor.new }
{
    repeated(alloc, cursor, Ignored::Skips)?;
    let ty = result_type(alloc, cursor)?;
    let callee = cursor.global_name(alloc)?;
    cursor.sign(b'(')?;
    let args = arguments(alloc, cursor)?;
    cursor.sign(b')')?;
    repeated(alloc, cursor, Ignored::Skips)?;
    Ok(Op::Call(ty, callee, args))
}

/// `call`.
pub fn plain_call(alloc: Global, cursor: &mut Cursor<'_>) -> Result<Op, PartError>
    ensures { Reads ((spec.op_by start.Call).parse cursor.old) result cursor.new }
{
    cursor.next()?;
    call(alloc, cursor)
}

/// `tail`, `musttail` or `notail`, and `call`.
pub fn tail_call(alloc: Global, cursor: &mut Cursor<'_>) -> Result<Op, PartError>
    ensures { Reads ((spec.op_by start.TailCall).parse cursor.old) result cursor.new }
{
    cursor.next()?;
    cursor.word(b"call")?;
    call(alloc, cursor)
}
