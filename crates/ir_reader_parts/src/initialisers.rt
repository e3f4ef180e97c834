//! Initial values of globals.
ghost use Rattle.ir_reader_tokens.specs.Reads.{Reads};
ghost use Rattle.ir_grammar.specs.Operands as spec;
ghost use Rattle.ir_grammar.specs.Rule as rule;
ghost use Rattle.ir_grammar.specs.Starts.{sees_type};
ghost use Rattle.std.specs.Prelude.{◌≡◌};

use crate::operands::operand;
use crate::types::type_text;
use am_base::MAX_NESTING;
use ir_reader_tokens::{Cursor, PartError};
use ir_tree::{Init, TyText};
use sqlite_items::Items;
use std::alloc::Global;

/// A constant that is one operand or one text.
fn simple(alloc: Global, cursor: &mut Cursor<'_>) -> Result<Init, PartError>
    ensures { Reads (spec.init_simple.parse cursor.old) result cursor.new }
{
    if cursor.sees_cstring() {
        return Ok(Init::Text(cursor.cstring(alloc)?));
    }
    Ok(Init::One(operand(alloc, cursor)?))
}

/// An initialiser without a bracket of its own.
fn flat(alloc: Global, cursor: &mut Cursor<'_>) -> Result<Init, PartError>
    ensures { Reads (spec.init_flat.parse cursor.old) result cursor.new }
{
    if cursor.sees_sign(b'[') {
        return Err(PartError::NotHere);
    }
    if cursor.sees_sign(b'{') {
        return Err(PartError::NotHere);
    }
    simple(alloc, cursor)
}

/// An initialiser in which at most `depth` `[` and `{` of its own are open at once.
#[cycle(initialisers)]
#[tactic(auto, unfolding(ir_grammar::specs::Operands::init_in))]
pub fn init_in(alloc: Global, cursor: &mut Cursor<'_>, depth: u32) -> Result<Init, PartError>
    ensures { Reads ((spec.init_in depth).parse cursor.old) result cursor.new }
{
    if depth == 0 {
        flat(alloc, cursor)
    } else {
        nested(alloc, cursor, depth - 1)
    }
}

#[cycle(initialisers)]
fn nested(alloc: Global, cursor: &mut Cursor<'_>, depth: u32) -> Result<Init, PartError>
    ensures { Reads ((spec.init_nested (spec.init_in depth)).parse cursor.old) result cursor.new }
{
    if cursor.sees_sign(b'[') {
        return array(alloc, cursor, depth);
    }
    if cursor.sees_sign(b'{') {
        return structure(alloc, cursor, depth);
    }
    simple(alloc, cursor)
}

#[cycle(initialisers)]
fn array(alloc: Global, cursor: &mut Cursor<'_>, depth: u32) -> Result<Init, PartError>
    ensures { Reads ((spec.init_array (spec.init_in depth)).parse cursor.old) result cursor.new }
{
    cursor.next()?;
    let elements = listed(alloc, cursor, depth)?;
    cursor.sign(b']')?;
    Ok(Init::Array(elements))
}

#[cycle(initialisers)]
fn structure(alloc: Global, cursor: &mut Cursor<'_>, depth: u32) -> Result<Init, PartError>
    ensures { Reads ((spec.init_struct (spec.init_in depth)).parse cursor.old) result cursor.new }
{
    cursor.next()?;
    let elements = listed(alloc, cursor, depth)?;
    cursor.sign(b'}')?;
    Ok(Init::Struct(elements))
}

#[cycle(initialisers)]
fn element(alloc: Global, cursor: &mut Cursor<'_>, depth: u32) -> Result<(TyText, Init), PartError>
    ensures { Reads ((spec.element (spec.init_in depth)).parse cursor.old) result cursor.new }
{
    let ty = type_text(alloc, cursor)?;
    let value = init_in(alloc, cursor, depth)?;
    Ok((ty, value))
}

#[cycle(initialisers)]
fn listed(
    alloc: Global,
    cursor: &mut Cursor<'_>,
    depth: u32,
) -> Result<Items<(TyText, Init)>, PartError>
    ensures { Reads
        ((rule.listed sees_type
        (spec.element (spec.init_in depth))).parse cursor.old) result cursor.new }
{
    let mut found = Items::new(alloc);
    if !cursor.sees_type() {
        return Ok(found);
    }
    found.push(element(alloc, cursor, depth)?)?;
    further(alloc, cursor, depth, found)
}

/// The further elements of a list, after those found so far.
#[cycle(initialisers)]
fn further(
    alloc: Global,
    cursor: &mut Cursor<'_>,
    depth: u32,
    mut found: Items<(TyText, Init)>,
) -> Result<Items<(TyText, Init)>, PartError>
    ensures { Reads
        (rule.onto found
        ((rule.further sees_type
        (spec.element (spec.init_in depth))).parse cursor.old)) result cursor.new }
{
    'turns: while cursor.sees_more_types() {
        cursor.sign(b',')?;
        found.push(element(alloc, cursor, depth)?)?;
    }
    Ok(found)
}

/// The initial value of a global.
pub fn initialiser(alloc: Global, cursor: &mut Cursor<'_>) -> Result<Init, PartError>
    ensures { Reads (spec.initialiser.parse cursor.old) result cursor.new }
{
    init_in(alloc, cursor, MAX_NESTING)
}
