//! The text of items.
ghost use Rattle.ir_text.specs.Parts as parts;
ghost use Rattle.ir_text.specs.Printing.{with_token, with_tokens};
ghost use Rattle.ir_text.specs.Spelling as canon;
ghost use Rattle.ir_tree.specs.declared.item.Item.TheVariants as tree;
ghost use Rattle.std.specs.Prelude.{◌≡◌, map, OnOk};

use crate::inits::put_init;
use crate::lists::put_parameters;
use crate::ops::put_op;
use crate::sheet::Sheet;
use crate::types::{put_type, put_types};
use am_base::OutOfMemory;
use ir_tree::{Init, Item, Name, Op, TyText};

#[tactic(auto, using(crate::proofs::Steps::step), unfolding(crate::specs::Parts::item_lexemes))]
fn put_type_definition(sheet: &mut Sheet, name: &Name, ty: &TyText) -> Result<(), OutOfMemory>
    ensures { OnOk result
        (sheet.new ≡ with_tokens sheet.old (parts.item_lexemes (tree.TypeDef name.now ty.now))) }
{
    sheet.local(name)?;
    sheet.sign(b'=')?;
    sheet.word(b"type")?;
    put_type(sheet, ty)?;
    Ok(())
}

fn global_kind(constant: bool) -> &'static [u8]
    ensures { result.now ≡ parts.global_kind constant }
{
    if constant { b"constant" } else { b"global" }
}

fn put_global_kind(sheet: &mut Sheet, constant: bool) -> Result<(), OutOfMemory>
    ensures { OnOk result
        (sheet.new ≡ with_token sheet.old (canon.word (parts.global_kind constant))) }
{
    sheet.word(global_kind(constant))?;
    Ok(())
}

#[tactic(auto, using(crate::proofs::Steps::step, crate::proofs::Steps::part), unfolding(crate::specs::Parts::item_lexemes))]
fn put_global(
    sheet: &mut Sheet,
    name: &Name,
    constant: bool,
    ty: &TyText,
    init: &Init,
) -> Result<(), OutOfMemory>
    ensures { OnOk result
        (sheet.new ≡ with_tokens sheet.old
        (parts.item_lexemes (tree.Global name.now constant ty.now init.now))) }
{
    sheet.global(name)?;
    sheet.sign(b'=')?;
    put_global_kind(sheet, constant)?;
    put_type(sheet, ty)?;
    put_init(sheet, init)?;
    Ok(())
}

#[tactic(auto, using(crate::proofs::Steps::step, crate::proofs::Steps::part, crate::proofs::Steps::last), unfolding(crate::specs::Parts::item_lexemes))]
fn put_declare(
    sheet: &mut Sheet,
    name: &Name,
    ty: &TyText,
    types: &[TyText],
) -> Result<(), OutOfMemory>
    ensures { OnOk result
        (sheet.new ≡ with_tokens sheet.old
        (parts.item_lexemes (tree.Declare name.now ty.now types.now))) }
{
    sheet.word(b"declare")?;
    put_type(sheet, ty)?;
    sheet.global(name)?;
    sheet.sign(b'(')?;
    put_types(sheet, types)?;
    sheet.sign(b')')?;
    Ok(())
}

#[tactic(auto, using(crate::proofs::Steps::step, crate::proofs::Steps::part, crate::proofs::Steps::last))]
fn put_in_parentheses(
    sheet: &mut Sheet,
    parameters: &[(TyText, Option<Name>)],
) -> Result<(), OutOfMemory>
    ensures { OnOk result
        (sheet.new ≡ with_tokens sheet.old
        (parts.in_parentheses (map parts.parameter parameters.now))) }
{
    sheet.sign(b'(')?;
    put_parameters(sheet, parameters)?;
    sheet.sign(b')')?;
    Ok(())
}

#[tactic(auto, using(crate::proofs::Steps::step, crate::proofs::Steps::part, crate::proofs::Steps::last), unfolding(crate::specs::Parts::item_lexemes))]
fn put_head(
    sheet: &mut Sheet,
    name: &Name,
    ty: &TyText,
    parameters: &[(TyText, Option<Name>)],
) -> Result<(), OutOfMemory>
    ensures { OnOk result
        (sheet.new ≡ with_tokens sheet.old
        (parts.item_lexemes (tree.Head name.now ty.now parameters.now))) }
{
    sheet.word(b"define")?;
    put_type(sheet, ty)?;
    sheet.global(name)?;
    put_in_parentheses(sheet, parameters)?;
    sheet.sign(b'{')?;
    Ok(())
}

#[tactic(auto, using(crate::proofs::Steps::last), unfolding(crate::specs::Parts::item_lexemes))]
fn put_label(sheet: &mut Sheet, name: &Name) -> Result<(), OutOfMemory>
    ensures { OnOk result
        (sheet.new ≡ with_tokens sheet.old (parts.item_lexemes (tree.Label name.now))) }
{
    sheet.label(name)?;
    Ok(())
}

#[tactic(auto, using(crate::proofs::Steps::last), unfolding(crate::specs::Parts::item_lexemes))]
fn put_end(sheet: &mut Sheet) -> Result<(), OutOfMemory>
    ensures { OnOk result (sheet.new ≡ with_tokens sheet.old (parts.item_lexemes tree.End)) }
{
    sheet.sign(b'}')?;
    Ok(())
}

/// Writes the result of an instruction and `=`, if it has one.
#[tactic(auto, using(crate::proofs::Steps::step, crate::proofs::Steps::last, crate::proofs::Steps::done))]
fn put_result(sheet: &mut Sheet, name: &Option<Name>) -> Result<(), OutOfMemory>
    ensures { OnOk result (sheet.new ≡ with_tokens sheet.old (parts.result name.now)) }
{
    match name {
        None => Ok(()),
        Some(name) => {
            sheet.local(name)?;
            sheet.sign(b'=')?;
            Ok(())
        }
    }
}

#[tactic(auto, using(crate::proofs::Steps::part), unfolding(crate::specs::Parts::item_lexemes))]
fn put_instruction(sheet: &mut Sheet, name: &Option<Name>, op: &Op) -> Result<(), OutOfMemory>
    ensures { OnOk result
        (sheet.new ≡ with_tokens sheet.old (parts.item_lexemes (tree.Instr name.now op.now))) }
{
    put_result(sheet, name)?;
    put_op(sheet, op)?;
    Ok(())
}

/// Writes an item.
pub fn put_item(sheet: &mut Sheet, item: &Item) -> Result<(), OutOfMemory>
    ensures { OnOk result (sheet.new ≡ with_tokens sheet.old (parts.item_lexemes item.now)) }
{
    match item {
        Item::TypeDef(name, ty) => put_type_definition(sheet, name, ty),
        Item::Global(name, constant, ty, init) => put_global(sheet, name, *constant, ty, init),
        Item::Declare(name, ty, types) => put_declare(sheet, name, ty, types.as_slice()),
        Item::Head(name, ty, parameters) => put_head(sheet, name, ty, parameters.as_slice()),
        Item::Label(name) => put_label(sheet, name),
        Item::Instr(name, op) => put_instruction(sheet, name, op.get()),
        Item::End => put_end(sheet),
    }
}
