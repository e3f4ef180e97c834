//! Items.
ghost use Rattle.ir_reader_tokens.specs.Reads.{Reads, Takes};
ghost use Rattle.ir_grammar.specs.Items as spec;
ghost use Rattle.ir_grammar.specs.declared.starts.ItemStart.TheVariants as start;
ghost use Rattle.std.specs.Prelude.{◌≡◌};

use crate::functions::{declare, head};
use crate::ops::instruction;
use ir_grammar::ItemStart;
use ir_reader_parts::{Ignored, curly, group, initialiser, optional, repeated, type_text};
use ir_reader_tokens::{Cursor, PartError};
use ir_tree::{Item, Name};
use sqlite_items::Boxed;
use std::alloc::Global;

/// `source_filename = Quoted`.
fn source(cursor: &mut Cursor<'_>) -> Result<Option<Item>, PartError>
    ensures { Takes (spec.source.parse cursor.old) result cursor.new }
{
    cursor.next()?;
    cursor.sign(b'=')?;
    cursor.quoted()?;
    Ok(None)
}

/// `datalayout` or `triple`.
fn target_kind(cursor: &mut Cursor<'_>) -> Result<(), PartError>
    ensures { Takes (spec.target_kind.parse cursor.old) result cursor.new }
{
    if cursor.sees_word(b"datalayout") {
        return cursor.next();
    }
    cursor.word(b"triple")
}

/// `target (datalayout | triple) = Quoted`.
fn target_line(cursor: &mut Cursor<'_>) -> Result<Option<Item>, PartError>
    ensures { Takes (spec.target_line.parse cursor.old) result cursor.new }
{
    cursor.next()?;
    target_kind(cursor)?;
    cursor.sign(b'=')?;
    cursor.quoted()?;
    Ok(None)
}

/// `attributes Hash = { .. }`.
fn attributes(alloc: Global, cursor: &mut Cursor<'_>) -> Result<Option<Item>, PartError>
    ensures { Reads (spec.attributes.parse cursor.old) result cursor.new }
{
    cursor.next()?;
    cursor.hash()?;
    cursor.sign(b'=')?;
    curly(alloc, cursor)?;
    Ok(None)
}

/// `Meta = distinct? Meta group`.
fn metadata(alloc: Global, cursor: &mut Cursor<'_>) -> Result<Option<Item>, PartError>
    ensures { Reads (spec.metadata.parse cursor.old) result cursor.new }
{
    cursor.next()?;
    cursor.sign(b'=')?;
    optional(cursor, b"distinct")?;
    cursor.meta()?;
    group(alloc, cursor)?;
    Ok(None)
}

/// `type T`, after the type's name and its `=`.
fn type_definition(
    alloc: Global,
    cursor: &mut Cursor<'_>,
    name: Name,
) -> Result<Option<Item>, PartError>
    ensures { Reads ((spec.type_definition name).parse cursor.old) result cursor.new }
{
    cursor.next()?;
    let ty = type_text(alloc, cursor)?;
    Ok(Some(Item::TypeDef(name, ty)))
}

/// `op tail*`, after its result and its `=` if they are written.
fn instruction_of(
    alloc: Global,
    cursor: &mut Cursor<'_>,
    result_name: Option<Name>,
) -> Result<Option<Item>, PartError>
    ensures { Reads ((spec.instruction_of result_name).parse cursor.old) result cursor.new }
{
    let op = Boxed::new(alloc, instruction(alloc, cursor)?)?;
    repeated(alloc, cursor, Ignored::Tails)?;
    Ok(Some(Item::Instr(result_name, op)))
}

/// `Local = type T` or `Local = op tail*`.
fn bound(alloc: Global, cursor: &mut Cursor<'_>) -> Result<Option<Item>, PartError>
    ensures { Reads (spec.bound.parse cursor.old) result cursor.new }
{
    let name = cursor.local(alloc)?;
    cursor.sign(b'=')?;
    if cursor.sees_word(b"type") {
        return type_definition(alloc, cursor, name);
    }
    instruction_of(alloc, cursor, Some(name))
}

/// `Global = skip* (global | constant) T init gtail*`.
fn global(alloc: Global, cursor: &mut Cursor<'_>) -> Result<Option<Item>, PartError>
    ensures { Reads (spec.global.parse cursor.old) result cursor.new }
{
    let name = cursor.global_name(alloc)?;
    cursor.sign(b'=')?;
    repeated(alloc, cursor, Ignored::Skips)?;
    let constant = cursor.global_kind()?;
    let ty = type_text(alloc, cursor)?;
    let init = initialiser(alloc, cursor)?;
    repeated(alloc, cursor, Ignored::GlobalTails)?;
    Ok(Some(Item::Global(name, constant, ty, init)))
}

/// The label of a block.
fn label(alloc: Global, cursor: &mut Cursor<'_>) -> Result<Option<Item>, PartError>
    ensures { Reads ((spec.item_by start.Label).parse cursor.old) result cursor.new }
{
    let name = cursor.label_name(alloc)?;
    Ok(Some(Item::Label(name)))
}

/// The `}` of a function.
fn end(cursor: &mut Cursor<'_>) -> Result<Option<Item>, PartError>
    ensures { Takes ((spec.item_by start.End).parse cursor.old) result cursor.new }
{
    cursor.next()?;
    Ok(Some(Item::End))
}

/// An item; `None` if it is one that the tree leaves out.
#[tactic(auto, using(ir_reader_tokens::proofs::Taken::taken_read), unfolding(ir_grammar::specs::Items::item))]
pub fn item(alloc: Global, cursor: &mut Cursor<'_>) -> Result<Option<Item>, PartError>
    ensures { Reads (spec.item.parse cursor.old) result cursor.new }
{
    match cursor.item_start() {
        ItemStart::Source => source(cursor),
        ItemStart::Target => target_line(cursor),
        ItemStart::Attributes => attributes(alloc, cursor),
        ItemStart::Meta => metadata(alloc, cursor),
        ItemStart::Local => bound(alloc, cursor),
        ItemStart::Global => global(alloc, cursor),
        ItemStart::Declare => declare(alloc, cursor),
        ItemStart::Define => head(alloc, cursor),
        ItemStart::Label => label(alloc, cursor),
        ItemStart::End => end(cursor),
        ItemStart::Other => instruction_of(alloc, cursor, None),
    }
}
