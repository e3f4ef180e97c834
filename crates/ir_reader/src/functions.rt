//! Declarations and heads of functions.
ghost use Rattle.ir_reader_tokens.specs.Reads.{Reads};
ghost use Rattle.ir_grammar.specs.Items as spec;
ghost use Rattle.ir_grammar.specs.Rule as rule;
ghost use Rattle.ir_grammar.specs.Starts.{sees_type};
ghost use Rattle.std.specs.Prelude.{IfOk, map, ◌≡◌};

use am_base::OutOfMemory;
use am_lists::Items;
use ir_reader_parts::{Ignored, repeated, result_type, type_text};
use ir_reader_tokens::{Cursor, PartError};
use ir_tree::{Item, Name, TyText};
use std::alloc::Global;

/// A local, or nothing.
fn optional_local(alloc: Global, cursor: &mut Cursor<'_>) -> Result<Option<Name>, PartError>
    ensures { Reads (spec.optional_local.parse cursor.old) result cursor.new }
{
    if cursor.sees_local() {
        return Ok(Some(cursor.local(alloc)?));
    }
    Ok(None)
}

/// A parameter: `T skip* Local?`.
fn parameter(alloc: Global, cursor: &mut Cursor<'_>) -> Result<(TyText, Option<Name>), PartError>
    ensures { Reads (spec.parameter.parse cursor.old) result cursor.new }
{
    let ty = type_text(alloc, cursor)?;
    repeated(alloc, cursor, Ignored::Skips)?;
    let name = optional_local(alloc, cursor)?;
    Ok((ty, name))
}

/// The parameters between the brackets of a function.
fn listed(
    alloc: Global,
    cursor: &mut Cursor<'_>,
) -> Result<Items<(TyText, Option<Name>)>, PartError>
    ensures { Reads ((rule.listed sees_type spec.parameter).parse cursor.old) result cursor.new }
{
    let mut found = Items::new(alloc);
    if !cursor.sees_type() {
        return Ok(found);
    }
    found.push(parameter(alloc, cursor)?)?;
    further_parameters(alloc, cursor, found)
}

/// The further parameters, after those found so far.
fn further_parameters(
    alloc: Global,
    cursor: &mut Cursor<'_>,
    mut found: Items<(TyText, Option<Name>)>,
) -> Result<Items<(TyText, Option<Name>)>, PartError>
    ensures { Reads
        (rule.onto found
        ((rule.further sees_type spec.parameter).parse cursor.old)) result cursor.new }
{
    'turns: while cursor.sees_more_types() {
        cursor.sign(b',')?;
        found.push(parameter(alloc, cursor)?)?;
    }
    Ok(found)
}

/// `( param,* )`.
fn parameters(
    alloc: Global,
    cursor: &mut Cursor<'_>,
) -> Result<Items<(TyText, Option<Name>)>, PartError>
    ensures { Reads (spec.parameters.parse cursor.old) result cursor.new }
{
    cursor.sign(b'(')?;
    let found = listed(alloc, cursor)?;
    cursor.sign(b')')?;
    Ok(found)
}

/// The types of the parameters.
fn types_of(
    alloc: Global,
    parameters: &[(TyText, Option<Name>)],
) -> Result<Items<TyText>, OutOfMemory>
    ensures { IfOk result (λ types. types ≡ map (λ p. p.0) parameters.now) }
{
    let mut types = Items::new(alloc);
    'each: for parameter in parameters {
        types.push(parameter.0.copy(alloc)?)?;
    }
    Ok(types)
}

/// `declare skip* R Global ( param,* ) skip*`.
pub fn declare(alloc: Global, cursor: &mut Cursor<'_>) -> Result<Option<Item>, PartError>
    ensures { Reads (spec.declare.parse cursor.old) result cursor.new }
{
    cursor.next()?;
    repeated(alloc, cursor, Ignored::Skips)?;
    let ty = result_type(alloc, cursor)?;
    let name = cursor.global_name(alloc)?;
    let found = parameters(alloc, cursor)?;
    repeated(alloc, cursor, Ignored::Skips)?;
    let types = types_of(alloc, found.as_slice())?;
    Ok(Some(Item::Declare(name, ty, types)))
}

/// `define skip* R Global ( param,* ) (skip | Meta Meta)* {`.
pub fn head(alloc: Global, cursor: &mut Cursor<'_>) -> Result<Option<Item>, PartError>
    ensures { Reads (spec.head.parse cursor.old) result cursor.new }
{
    cursor.next()?;
    repeated(alloc, cursor, Ignored::Skips)?;
    let ty = result_type(alloc, cursor)?;
    let name = cursor.global_name(alloc)?;
    let found = parameters(alloc, cursor)?;
    repeated(alloc, cursor, Ignored::HeadSkips)?;
    cursor.sign(b'{')?;
    Ok(Some(Item::Head(name, ty, found)))
}
