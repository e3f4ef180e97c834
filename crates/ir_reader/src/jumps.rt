//! `phi`, `br` and `switch`.
ghost use Rattle.ir_reader_tokens.specs.Reads.{Reads};
ghost use Rattle.ir_grammar.specs.Lexeme.{sees_sign};
ghost use Rattle.ir_grammar.specs.Ops as spec;
ghost use Rattle.ir_grammar.specs.Rule as rule;
ghost use Rattle.ir_grammar.specs.Starts.{sees_type};
ghost use Rattle.ir_grammar.specs.declared.starts.OpStart.TheVariants as start;
ghost use Rattle.std.specs.Prelude.{◌≡◌};

use am_lists::Items;
use ir_reader_parts::{operand, type_text, typed_operand};
use ir_reader_tokens::{Cursor, PartError};
use ir_tree::{Name, Op, Opd, TyText};
use std::alloc::Global;

// `phi`.

/// `[ opd , Local ]`.
fn entry(alloc: Global, cursor: &mut Cursor<'_>) -> Result<(Opd, Name), PartError>
    ensures { Reads (spec.entry.parse cursor.old) result cursor.new }
{
    cursor.sign(b'[')?;
    let value = operand(alloc, cursor)?;
    cursor.sign(b',')?;
    let from = cursor.local(alloc)?;
    cursor.sign(b']')?;
    Ok((value, from))
}

/// Whether a comma comes next, and a `[` after it.
fn sees_more_entries(cursor: &Cursor<'_>) -> bool
    ensures { result ≡ rule.comma_then (sees_sign 91) cursor.now }
{
    cursor.sees_sign(b',') && cursor.after().sees_sign(b'[')
}

/// The entries of a `phi`, one at least.
fn entries(alloc: Global, cursor: &mut Cursor<'_>) -> Result<Items<(Opd, Name)>, PartError>
    ensures { Reads
        ((rule.some_listed (sees_sign 91) spec.entry).parse cursor.old) result cursor.new }
{
    let mut found = Items::new(alloc);
    found.push(entry(alloc, cursor)?)?;
    further_entries(alloc, cursor, found)
}

/// The further entries, after those found so far.
fn further_entries(
    alloc: Global,
    cursor: &mut Cursor<'_>,
    mut found: Items<(Opd, Name)>,
) -> Result<Items<(Opd, Name)>, PartError>
    ensures { Reads
        (rule.onto found
        ((rule.further (sees_sign 91) spec.entry).parse cursor.old)) result cursor.new }
{
    'turns: while sees_more_entries(cursor) {
        cursor.sign(b',')?;
        found.push(entry(alloc, cursor)?)?;
    }
    Ok(found)
}

/// `phi`.
pub fn phi(alloc: Global, cursor: &mut Cursor<'_>) -> Result<Op, PartError>
    ensures { Reads ((spec.op_by start.Phi).parse cursor.old) result cursor.new }
{
    cursor.next()?;
    let ty = type_text(alloc, cursor)?;
    let found = entries(alloc, cursor)?;
    Ok(Op::Phi(ty, found))
}

// `br` and `switch`.

/// `label Local`.
fn target(alloc: Global, cursor: &mut Cursor<'_>) -> Result<Name, PartError>
    ensures { Reads (spec.target.parse cursor.old) result cursor.new }
{
    cursor.word(b"label")?;
    cursor.local(alloc)
}

/// The rest of a `br` with a condition, after the word `br`.
fn conditional(alloc: Global, cursor: &mut Cursor<'_>) -> Result<Op, PartError>
    ensures { Reads (spec.conditional.parse cursor.old) result cursor.new }
{
    let (ty, condition) = typed_operand(alloc, cursor)?;
    cursor.sign(b',')?;
    let chosen = target(alloc, cursor)?;
    cursor.sign(b',')?;
    let other = target(alloc, cursor)?;
    Ok(Op::Branch(ty, condition, chosen, other))
}

/// `br`.
pub fn branch(alloc: Global, cursor: &mut Cursor<'_>) -> Result<Op, PartError>
    ensures { Reads ((spec.op_by start.Branch).parse cursor.old) result cursor.new }
{
    cursor.next()?;
    if cursor.sees_word(b"label") {
        return Ok(Op::Jump(target(alloc, cursor)?));
    }
    conditional(alloc, cursor)
}

/// A case: `T opd , label Local`.
fn case(alloc: Global, cursor: &mut Cursor<'_>) -> Result<(TyText, Opd, Name), PartError>
    ensures { Reads (spec.case.parse cursor.old) result cursor.new }
{
    let (ty, value) = typed_operand(alloc, cursor)?;
    cursor.sign(b',')?;
    let to = target(alloc, cursor)?;
    Ok((ty, value, to))
}

/// The cases of a `switch`.
fn cases(alloc: Global, cursor: &mut Cursor<'_>) -> Result<Items<(TyText, Opd, Name)>, PartError>
    ensures { Reads ((rule.many sees_type spec.case).parse cursor.old) result cursor.new }
{
    let mut found = Items::new(alloc);
    'turns: while cursor.sees_type() {
        found.push(case(alloc, cursor)?)?;
    }
    Ok(found)
}

/// `switch`.
pub fn switch(alloc: Global, cursor: &mut Cursor<'_>) -> Result<Op, PartError>
    ensures { Reads ((spec.op_by start.Switch).parse cursor.old) result cursor.new }
{
    cursor.next()?;
    let (ty, value) = typed_operand(alloc, cursor)?;
    cursor.sign(b',')?;
    let other = target(alloc, cursor)?;
    cursor.sign(b'[')?;
    let found = cases(alloc, cursor)?;
    cursor.sign(b']')?;
    Ok(Op::Switch(ty, value, other, found))
}
