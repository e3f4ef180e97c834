//! Types.
ghost use Rattle.ir_grammar.specs.Rule as rule;
ghost use Rattle.ir_grammar.specs.Starts.{sees_type};
ghost use Rattle.ir_grammar.specs.Types as spec;
ghost use Rattle.ir_reader_tokens.specs.Reads.{Reads};
ghost use Rattle.std.specs.Prelude.{◌≡◌};

use am_base::MAX_NESTING;
use ir_grammar::TypeStart;
use ir_reader_tokens::{Cursor, PartError};
use ir_tree::TyText;
use sqlite_items::{Boxed, Items};
use std::alloc::Global;

fn simple(alloc: Global, cursor: &mut Cursor<'_>, start: TypeStart) -> Result<TyText, PartError>
    ensures { Reads ((spec.simple start).parse cursor.old) result cursor.new }
{
    match start {
        TypeStart::Int(width) => {
            cursor.next()?;
            Ok(TyText::Int(width))
        }
        TypeStart::Ptr => {
            cursor.next()?;
            Ok(TyText::Ptr)
        }
        TypeStart::Named => Ok(TyText::Named(cursor.local(alloc)?)),
        TypeStart::Square | TypeStart::Curly | TypeStart::Nothing => Err(PartError::NotHere),
    }
}

/// A type in which at most `depth` `[` and `{` are open at once.
#[cycle(types)]
#[tactic(auto, unfolding(ir_grammar::specs::Types::type_in))]
pub fn type_in(alloc: Global, cursor: &mut Cursor<'_>, depth: u32) -> Result<TyText, PartError>
    ensures { Reads ((spec.type_in depth).parse cursor.old) result cursor.new }
{
    let start = cursor.type_start();
    if depth == 0 {
        simple(alloc, cursor, start)
    } else {
        nested(alloc, cursor, depth - 1, start)
    }
}

#[cycle(types)]
fn nested(
    alloc: Global,
    cursor: &mut Cursor<'_>,
    depth: u32,
    start: TypeStart,
) -> Result<TyText, PartError>
    ensures { Reads ((spec.nested (spec.type_in depth) start).parse cursor.old) result cursor.new }
{
    match start {
        TypeStart::Square => array(alloc, cursor, depth),
        TypeStart::Curly => structure(alloc, cursor, depth),
        TypeStart::Int(_) | TypeStart::Ptr | TypeStart::Named | TypeStart::Nothing => {
            simple(alloc, cursor, start)
        }
    }
}

#[cycle(types)]
fn array(alloc: Global, cursor: &mut Cursor<'_>, depth: u32) -> Result<TyText, PartError>
    ensures { Reads ((spec.array (spec.type_in depth)).parse cursor.old) result cursor.new }
{
    cursor.next()?;
    let n = cursor.array_length()?;
    cursor.word(b"x")?;
    let of = type_in(alloc, cursor, depth)?;
    cursor.sign(b']')?;
    Ok(TyText::Array(n, Boxed::new(alloc, of)?))
}

#[cycle(types)]
fn structure(alloc: Global, cursor: &mut Cursor<'_>, depth: u32) -> Result<TyText, PartError>
    ensures { Reads ((spec.struct (spec.type_in depth)).parse cursor.old) result cursor.new }
{
    cursor.next()?;
    let fields = listed(alloc, cursor, depth)?;
    cursor.sign(b'}')?;
    Ok(TyText::Struct(fields))
}

#[cycle(types)]
fn listed(alloc: Global, cursor: &mut Cursor<'_>, depth: u32) -> Result<Items<TyText>, PartError>
    ensures { Reads
        ((rule.listed sees_type (spec.type_in depth)).parse cursor.old) result cursor.new }
{
    let mut found = Items::new(alloc);
    if !cursor.sees_type() {
        return Ok(found);
    }
    found.push(type_in(alloc, cursor, depth)?)?;
    further(alloc, cursor, depth, found)
}

/// The further types of a list, after those found so far.
#[cycle(types)]
fn further(
    alloc: Global,
    cursor: &mut Cursor<'_>,
    depth: u32,
    mut found: Items<TyText>,
) -> Result<Items<TyText>, PartError>
    ensures { Reads
        (rule.onto found
        ((rule.further sees_type (spec.type_in depth)).parse cursor.old)) result cursor.new }
{
    'turns: while cursor.sees_more_types() {
        cursor.sign(b',')?;
        found.push(type_in(alloc, cursor, depth)?)?;
    }
    Ok(found)
}

/// A type of an item, with the limit on its nesting.
pub fn type_text(alloc: Global, cursor: &mut Cursor<'_>) -> Result<TyText, PartError>
    ensures { Reads (spec.type_text.parse cursor.old) result cursor.new }
{
    type_in(alloc, cursor, MAX_NESTING)
}

/// The type of a result: `void` or a type.
pub fn result_type(alloc: Global, cursor: &mut Cursor<'_>) -> Result<TyText, PartError>
    ensures { Reads (spec.result_type.parse cursor.old) result cursor.new }
{
    if cursor.sees_word(b"void") {
        cursor.next()?;
        return Ok(TyText::Void);
    }
    type_text(alloc, cursor)
}
