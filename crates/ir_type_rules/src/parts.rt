//! The types and the operands that are written in an item.
ghost use Rattle.std.specs.Prelude.{◌≡◌, [], ◌++◌, ◌∷◌, map, flat_map, OnOk, IfOk};
ghost use Rattle.ir_rules.specs.Parts as spec;
ghost use Rattle.ir_rules.specs.Parts.{opd_types, op_types, own_types, element_types, Typed as Pair};

use crate::init_parts::{add_init_operands, add_init_types, add_type};
use crate::operands::{Typed, op_operands};
use am_base::OutOfMemory;
use am_lists::Items;
use ir_tree::{Item, Name, Op, Opd, TyText};
use std::alloc::Global;

/// Returns the operands of an item, each with the type that is written for it.
pub fn operands_of<'a>(alloc: Global, item: &'a Item) -> Result<Items<Typed<'a>>, OutOfMemory>
    ensures { IfOk result (λ list. map {B = Pair} (λ v. (v.0.now, v.1.now)) list ≡ spec.operands_of item.now) }
{
    match item {
        Item::Instr(_, op) => op_operands(alloc, op.get()),
        Item::Global(_, _, ty, init) => {
            let mut list = Items::new(alloc);
            add_init_operands(&mut list, ty, init)?;
            Ok(list)
        }
        _ => Ok(Items::new(alloc)),
    }
}

/// Appends some types.
pub fn add_types<'a>(list: &mut Items<&'a TyText>, types: &'a [TyText]) -> Result<(), OutOfMemory>
    ensures { OnOk result (map (λ t. t.now) list.new ≡ map (λ t. t.now) list.old ++ types.now) }
{
    'each: for ty in types {
        add_type(list, ty)?;
    }
    Ok(())
}

/// Appends the types of parameters.
pub fn add_params<'a>(
    list: &mut Items<&'a TyText>,
    params: &'a [(TyText, Option<Name>)],
) -> Result<(), OutOfMemory>
    ensures { OnOk result (map (λ t. t.now) list.new ≡ map (λ t. t.now) list.old ++ map (λ p. p.0) params.now) }
{
    'each: for param in params {
        add_type(list, &param.0)?;
    }
    Ok(())
}

fn add_op_types<'a>(list: &mut Items<&'a TyText>, op: &'a Op) -> Result<(), OutOfMemory>
    ensures { OnOk result (map (λ t. t.now) list.new ≡ map (λ t. t.now) list.old ++ op_types op.now) }
{
    match op {
        Op::Cast(_, _, _, t)
        | Op::Alloca(t, _)
        | Op::Load(t, _, _)
        | Op::Get(t, _, _, _)
        | Op::Phi(t, _)
        | Op::Call(t, _, _) => add_type(list, t),
        _ => Ok(()),
    }
}

fn add_own_types<'a>(list: &mut Items<&'a TyText>, item: &'a Item) -> Result<(), OutOfMemory>
    ensures { OnOk result (map (λ t. t.now) list.new ≡ map (λ t. t.now) list.old ++ own_types item.now) }
{
    match item {
        Item::TypeDef(_, ty) | Item::Global(_, _, ty, _) => add_type(list, ty),
        Item::Declare(_, ty, params) => {
            add_type(list, ty)?;
            add_types(list, params.as_slice())
        }
        Item::Head(_, ty, params) => {
            add_type(list, ty)?;
            add_params(list, params.as_slice())
        }
        Item::Instr(_, op) => add_op_types(list, op.get()),
        _ => Ok(()),
    }
}

fn add_element_types<'a>(list: &mut Items<&'a TyText>, item: &'a Item) -> Result<(), OutOfMemory>
    ensures { OnOk result (map (λ t. t.now) list.new ≡ map (λ t. t.now) list.old ++ element_types item.now) }
{
    match item {
        Item::Global(_, _, _, init) => add_init_types(list, init),
        _ => Ok(()),
    }
}

/// Appends the types of a constant's indices.
pub fn add_index_types<'a>(
    list: &mut Items<&'a TyText>,
    indices: &'a [(TyText, i128)],
) -> Result<(), OutOfMemory>
    ensures { OnOk result (map (λ t. t.now) list.new ≡ map (λ t. t.now) list.old ++ map (λ i. i.0) indices.now) }
{
    'each: for index in indices {
        add_type(list, &index.0)?;
    }
    Ok(())
}

fn add_opd_types<'a>(list: &mut Items<&'a TyText>, a: &'a Opd) -> Result<(), OutOfMemory>
    ensures { OnOk result (map (λ t. t.now) list.new ≡ map (λ t. t.now) list.old ++ opd_types a.now) }
{
    match a {
        Opd::Get(get) => {
            let get = get.get();
            add_type(list, &get.0)?;
            add_type(list, &get.1)?;
            add_index_types(list, get.3.as_slice())
        }
        _ => Ok(()),
    }
}

fn add_typed<'a>(
    list: &mut Items<&'a TyText>,
    ty: &'a TyText,
    a: &'a Opd,
) -> Result<(), OutOfMemory>
    ensures { OnOk result (map (λ t. t.now) list.new ≡ map (λ t. t.now) list.old ++ ty.now ∷ opd_types a.now) }
{
    add_type(list, ty)?;
    add_opd_types(list, a)
}

fn add_operand_types<'a>(
    list: &mut Items<&'a TyText>,
    operands: &[Typed<'a>],
) -> Result<(), OutOfMemory>
    ensures { OnOk result (map (λ t. t.now) list.new
        ≡ map (λ t. t.now) list.old ++ flat_map (λ v. v.0.now ∷ opd_types v.1.now) operands.now) }
{
    'each: for operand in operands {
        add_typed(list, operand.0, operand.1)?;
    }
    Ok(())
}

/// Returns every type that is written in an item.
pub fn types_of<'a>(alloc: Global, item: &'a Item) -> Result<Items<&'a TyText>, OutOfMemory>
    ensures { IfOk result (λ list. map (λ t. t.now) list ≡ spec.types_of item.now) }
{
    let operands = operands_of(alloc, item)?;
    let mut list = Items::new(alloc);
    add_own_types(&mut list, item)?;
    add_element_types(&mut list, item)?;
    add_operand_types(&mut list, operands.as_slice())?;
    Ok(list)
}
