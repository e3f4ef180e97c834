//! The pass over a module's items that gathers what their global names stand for.
ghost use Rattle.std.specs.Prelude.{◌≡◌, ◌<◌, ◌≤◌, ◌+◌, ◌-◌, ◌^◌, OnOk, IfOk, map};
ghost use Rattle.ir_names.specs.Names.{firsts};
ghost use Rattle.ir_rules.specs.Entities.{entities_of};
ghost use Rattle.ir_rules.specs.Types as types;
ghost use Rattle.ir_scopes.specs.Globals as spec;
ghost use Rattle.ir_scopes.specs.Globals.{with_declared, with_defined, with_entity};
ghost use Rattle.ir_scopes.specs.Kinds.{kind_in};

use crate::kinds::KindTable;
use am_base::OutOfMemory;
use am_lists::Items;
use code_form::TyScalar;
use ir_names::NameTable;
use ir_rules::{Entity, Signature};
use ir_tree::{Item, Name, TyText};
use std::alloc::Global;

/// What the items of a module define as variables and functions so far.
#[derive(Drop)]
struct Globals {
    /// What the names stand for, each by its first definition.
    table: NameTable<Entity>,
    /// How many functions are defined.
    functions: usize,
}

/// Returns the integers and pointers that types stand for, in order.
pub fn kinds_of(
    alloc: Global,
    kinds: &KindTable,
    types: &[TyText],
) -> Result<Items<Option<TyScalar>>, OutOfMemory>
    ensures { IfOk result (λ list. list ≡ map (kind_in kinds.now.names) types.now) }
{
    let mut list = Items::new(alloc);
    'each: for ty in types {
        list.push(kinds.of(ty))?;
    }
    Ok(list)
}

fn kinds_of_params(
    alloc: Global,
    kinds: &KindTable,
    params: &[(TyText, Option<Name>)],
) -> Result<Items<Option<TyScalar>>, OutOfMemory>
    ensures { IfOk result (λ list. list ≡ map (λ p. kind_in kinds.now.names p.0) params.now) }
{
    let mut list = Items::new(alloc);
    'each: for param in params {
        list.push(kinds.of(&param.0))?;
    }
    Ok(list)
}

/// Returns the type of a result. `None` for `void`.
pub fn result_kind(kinds: &KindTable, ty: &TyText) -> Option<Option<TyScalar>>
    ensures { result ≡ types.result_kind (kind_in kinds.now.names) ty.now }
{
    match ty {
        TyText::Void => None,
        _ => Some(kinds.of(ty)),
    }
}

fn add_declared(
    alloc: Global,
    kinds: &KindTable,
    globals: &mut Globals,
    name: &Name,
    ty: &TyText,
    params: &[TyText],
) -> Result<(), OutOfMemory>
    ensures { let kind = kind_in kinds.now.names in
        OnOk result (globals.new ≡ with_declared kind globals.old name.now ty.now params.now) }
{
    let signature = Signature {
        params: kinds_of(alloc, kinds, params)?,
        result: result_kind(kinds, ty),
    };
    globals.table.add(alloc, name, Entity::Declared(signature))
}

fn add_defined(
    alloc: Global,
    kinds: &KindTable,
    globals: &mut Globals,
    name: &Name,
    ty: &TyText,
    params: &[(TyText, Option<Name>)],
) -> Result<(), OutOfMemory>
    requires { globals.old.functions < 2 ^ 64 - 1 }
    ensures { let kind = kind_in kinds.now.names in
        OnOk result (globals.new ≡ with_defined kind globals.old name.now ty.now params.now) }
{
    let signature = Signature {
        params: kinds_of_params(alloc, kinds, params)?,
        result: result_kind(kinds, ty),
    };
    let number = globals.functions;
    globals
        .table
        .add(alloc, name, Entity::Defined(number, signature))?;
    globals.functions = number + 1;
    Ok(())
}

fn add_entity(
    alloc: Global,
    kinds: &KindTable,
    globals: &mut Globals,
    item: &Item,
) -> Result<(), OutOfMemory>
    requires { globals.old.functions < 2 ^ 64 - 1 }
    ensures entity { let kind = kind_in kinds.now.names in
        OnOk result (globals.new ≡ with_entity kind globals.old item.now) }
    ensures few { OnOk result (globals.new.functions ≤ globals.old.functions + 1) }
{
    match item {
        Item::Global(name, _, _, _) => globals.table.add(alloc, name, Entity::Variable),
        Item::Declare(name, ty, params) => {
            add_declared(alloc, kinds, globals, name, ty, params.as_slice())
        }
        Item::Head(name, ty, params) => {
            add_defined(alloc, kinds, globals, name, ty, params.as_slice())
        }
        _ => Ok(()),
    }
}

fn gathered(alloc: Global, kinds: &KindTable, items: &[Item]) -> Result<Globals, OutOfMemory>
    ensures { let kind = kind_in kinds.now.names in
        IfOk result (λ globals. globals ≡ spec.gathered kind items.now) }
{
    let mut globals = Globals {
        table: NameTable::new(alloc),
        functions: 0,
    };
    'each: for item in items {
        add_entity(alloc, kinds, &mut globals, item)?;
    }
    Ok(globals)
}

/// Returns what the global names of a module stand for, each by its first definition in text order.
/// It takes time about linear in the items.
pub fn entities_of(
    alloc: Global,
    kinds: &KindTable,
    items: &[Item],
) -> Result<NameTable<Entity>, OutOfMemory>
    ensures { let kind = kind_in kinds.now.names in
        IfOk result (λ table. table ≡ firsts (entities_of kind items.now)) }
{
    let globals = gathered(alloc, kinds, items)?;
    Ok(globals.table)
}
