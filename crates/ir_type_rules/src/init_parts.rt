//! The operands and the types in an initialiser.
ghost use Rattle.std.specs.Prelude.{◌≡◌, [], ◌++◌, ◌∷◌, map, flat_map, OnOk};
ghost use Rattle.ir_rules.specs.Parts.{init_operands, init_types, Typed as Pair};

use crate::operands::{Typed, add_operand};
use am_base::OutOfMemory;
use am_lists::Items;
use ir_tree::{Init, TyText};

/// Appends the operands of an initialiser of a type, each with the type that is written before it.
#[cycle(operands)]
pub fn add_init_operands<'a>(
    list: &mut Items<Typed<'a>>,
    ty: &'a TyText,
    init: &'a Init,
) -> Result<(), OutOfMemory>
    ensures { OnOk result (map {B = Pair} (λ v. (v.0.now, v.1.now)) list.new
        ≡ map {B = Pair} (λ v. (v.0.now, v.1.now)) list.old ++ init_operands ty.now init.now) }
{
    match init {
        Init::One(a) => add_operand(list, ty, a),
        Init::Text(_) => Ok(()),
        Init::Array(elements) => add_elements_operands(list, elements.as_slice()),
        Init::Struct(fields) => add_elements_operands(list, fields.as_slice()),
    }
}

#[cycle(operands)]
fn add_elements_operands<'a>(
    list: &mut Items<Typed<'a>>,
    elements: &'a [(TyText, Init)],
) -> Result<(), OutOfMemory>
    ensures { OnOk result (map {B = Pair} (λ v. (v.0.now, v.1.now)) list.new
        ≡ map {B = Pair} (λ v. (v.0.now, v.1.now)) list.old ++ flat_map (λ e. init_operands e.0 e.1) elements.now) }
{
    'each: for element in elements {
        add_init_operands(list, &element.0, &element.1)?;
    }
    Ok(())
}

/// Appends a type.
pub fn add_type<'a>(list: &mut Items<&'a TyText>, ty: &'a TyText) -> Result<(), OutOfMemory>
    ensures { OnOk result (map (λ t. t.now) list.new ≡ map (λ t. t.now) list.old ++ ty.now ∷ []) }
{
    list.push(ty)?;
    Ok(())
}

/// Appends the types of the elements in an initialiser.
#[cycle(types)]
pub fn add_init_types<'a>(list: &mut Items<&'a TyText>, init: &'a Init) -> Result<(), OutOfMemory>
    ensures { OnOk result (map (λ t. t.now) list.new ≡ map (λ t. t.now) list.old ++ init_types init.now) }
{
    match init {
        Init::One(_) => Ok(()),
        Init::Text(_) => Ok(()),
        Init::Array(elements) => add_elements_types(list, elements.as_slice()),
        Init::Struct(fields) => add_elements_types(list, fields.as_slice()),
    }
}

#[cycle(types)]
fn add_elements_types<'a>(
    list: &mut Items<&'a TyText>,
    elements: &'a [(TyText, Init)],
) -> Result<(), OutOfMemory>
    ensures { OnOk result (map (λ t. t.now) list.new
        ≡ map (λ t. t.now) list.old ++ flat_map (λ e. e.0 ∷ init_types e.1) elements.now) }
{
    'each: for element in elements {
        add_type(list, &element.0)?;
        add_init_types(list, &element.1)?;
    }
    Ok(())
}
