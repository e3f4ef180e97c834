//! The rule on types that have to be integers or pointers.
ghost use Rattle.std.specs.Prelude.{◌≡◌, [], ◌∷◌, ◌++◌, None, is_none, map, flat_map, OnOk, IfOk};
ghost use Rattle.std.specs.List.{list_any};
ghost use Rattle.ir_tree.specs.declared.item.Item.TheVariants.{Instr};
ghost use Rattle.ir_rules.specs.Operands as rule;
ghost use Rattle.ir_rules.specs.Parts as spec;
ghost use Rattle.ir_rules.specs.Parts.{indices_of, op_scalars, unless_void, constant_indices};
ghost use Rattle.ir_scopes.specs.Kinds.{kind_in};
ghost use Rattle.ir_type_rules.specs.Alone.{kinds_alone};

use crate::init_parts::add_type;
use crate::operands::{Typed, op_operands};
use crate::parts::{add_index_types, add_params, add_types, operands_of};
use am_base::OutOfMemory;
use am_lists::Items;
use ir_scopes::KindTable;
use ir_tree::{Item, Name, Op, Opd, TyText};
use std::alloc::Global;

fn add_unless_void<'a>(list: &mut Items<&'a TyText>, ty: &'a TyText) -> Result<(), OutOfMemory>
    ensures { OnOk result (map (λ t. t.now) list.new ≡ map (λ t. t.now) list.old ++ unless_void ty.now) }
{
    match ty {
        TyText::Void => Ok(()),
        _ => add_type(list, ty),
    }
}

fn add_op_scalars<'a>(list: &mut Items<&'a TyText>, op: &'a Op) -> Result<(), OutOfMemory>
    ensures { OnOk result (map (λ t. t.now) list.new ≡ map (λ t. t.now) list.old ++ op_scalars op.now) }
{
    match op {
        Op::Cast(_, _, _, t) | Op::Load(t, _, _) | Op::Phi(t, _) => add_type(list, t),
        Op::Call(t, _, _) => add_unless_void(list, t),
        _ => Ok(()),
    }
}

fn add_written_types<'a>(
    list: &mut Items<&'a TyText>,
    operands: &[Typed<'a>],
) -> Result<(), OutOfMemory>
    ensures { OnOk result (map (λ t. t.now) list.new
        ≡ map (λ t. t.now) list.old ++ map (λ v. v.0.now) operands.now) }
{
    'each: for operand in operands {
        add_type(list, operand.0)?;
    }
    Ok(())
}

fn add_opd_indices<'a>(list: &mut Items<&'a TyText>, a: &'a Opd) -> Result<(), OutOfMemory>
    ensures { OnOk result (map (λ t. t.now) list.new
        ≡ map (λ t. t.now) list.old ++ map (λ i. i.0) (indices_of a.now)) }
{
    match a {
        Opd::Get(get) => add_index_types(list, get.get().3.as_slice()),
        _ => Ok(()),
    }
}

fn add_constant_indices<'a>(
    list: &mut Items<&'a TyText>,
    operands: &[Typed<'a>],
) -> Result<(), OutOfMemory>
    ensures { OnOk result (map (λ t. t.now) list.new
        ≡ map (λ t. t.now) list.old ++ flat_map (λ v. map (λ i. i.0) (indices_of v.1.now)) operands.now) }
{
    'each: for operand in operands {
        add_opd_indices(list, operand.1)?;
    }
    Ok(())
}

fn declare_scalars<'a>(
    alloc: Global,
    ty: &'a TyText,
    params: &'a [TyText],
) -> Result<Items<&'a TyText>, OutOfMemory>
    ensures { IfOk result (λ list. map (λ t. t.now) list ≡ unless_void ty.now ++ params.now) }
{
    let mut list = Items::new(alloc);
    add_unless_void(&mut list, ty)?;
    add_types(&mut list, params)?;
    Ok(list)
}

fn head_scalars<'a>(
    alloc: Global,
    ty: &'a TyText,
    params: &'a [(TyText, Option<Name>)],
) -> Result<Items<&'a TyText>, OutOfMemory>
    ensures { IfOk result (λ list. map (λ t. t.now) list ≡ unless_void ty.now ++ map (λ p. p.0) params.now) }
{
    let mut list = Items::new(alloc);
    add_unless_void(&mut list, ty)?;
    add_params(&mut list, params)?;
    Ok(list)
}

fn op_all_scalars<'a>(alloc: Global, op: &'a Op) -> Result<Items<&'a TyText>, OutOfMemory>
    ensures { IfOk result (λ list. map (λ t. t.now) list ≡ spec.scalars_of (Instr None op.now)) }
{
    let operands = op_operands(alloc, op)?;
    let mut list = Items::new(alloc);
    add_op_scalars(&mut list, op)?;
    add_written_types(&mut list, operands.as_slice())?;
    add_constant_indices(&mut list, operands.as_slice())?;
    Ok(list)
}

/// Returns the types of the constant indices of an item.
pub fn index_scalars<'a>(alloc: Global, item: &'a Item) -> Result<Items<&'a TyText>, OutOfMemory>
    ensures { IfOk result (λ list. map (λ t. t.now) list ≡ map (λ i. i.0) (constant_indices item.now)) }
{
    let operands = operands_of(alloc, item)?;
    let mut list = Items::new(alloc);
    add_constant_indices(&mut list, operands.as_slice())?;
    Ok(list)
}

/// Returns the types of an item that have to be integers or pointers.
fn scalars_of<'a>(alloc: Global, item: &'a Item) -> Result<Items<&'a TyText>, OutOfMemory>
    ensures { IfOk result (λ list. map (λ t. t.now) list ≡ spec.scalars_of item.now) }
{
    match item {
        Item::Declare(_, ty, params) => declare_scalars(alloc, ty, params.as_slice()),
        Item::Head(_, ty, params) => head_scalars(alloc, ty, params.as_slice()),
        Item::Instr(_, op) => op_all_scalars(alloc, op.get()),
        Item::Global(_, _, _, _) => index_scalars(alloc, item),
        _ => Ok(Items::new(alloc)),
    }
}

fn some_no_scalar(kinds: &KindTable, list: &[&TyText]) -> bool
    ensures { result ≡ list_any (λ t. is_none (kind_in kinds.now.names t.now)) list.now }
{
    let mut found = false;
    'each: for ty in list {
        let here = kinds.of(ty).is_none();
        found = found || here;
    }
    found
}

/// Whether `void`, an array or a struct stands where the item needs an integer or a pointer.
pub fn scalar_wanted(alloc: Global, kinds: &KindTable, item: &Item) -> Result<bool, OutOfMemory>
    ensures { IfOk result (λ b. b ≡ rule.scalar_wanted (kinds_alone (kind_in kinds.now.names)) item.now) }
{
    let list = scalars_of(alloc, item)?;
    Ok(some_no_scalar(kinds, list.as_slice()))
}
