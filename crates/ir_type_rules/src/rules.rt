//! The rules on the types that are written in an item.
ghost use Rattle.std.specs.Prelude.{◌≡◌, ◌||◌, IfOk};
ghost use Rattle.std.specs.List.{list_any};
ghost use Rattle.ir_rules.specs.Types.{has_unknown, is_large};
ghost use Rattle.ir_rules.specs.Operands as spec;
ghost use Rattle.ir_type_rules.specs.Alone.{types_alone};

use crate::parts::types_of;
use am_base::OutOfMemory;
use ir_tree::{Item, TyText};
use ir_types::Types;
use std::alloc::Global;

fn some_unknown(types: &Types<'_>, list: &[&TyText]) -> bool
    ensures { result ≡ list_any (λ t. has_unknown types.now.defs t.now) list.now }
{
    let mut found = false;
    'each: for ty in list {
        let here = types.has_unknown(ty);
        found = found || here;
    }
    found
}

/// Whether a type that is written in the item names no type definition.
pub fn unknown_type(alloc: Global, types: &Types<'_>, item: &Item) -> Result<bool, OutOfMemory>
    ensures { IfOk result (λ b. b ≡ spec.unknown_type (types_alone types.now.defs) item.now) }
{
    let list = types_of(alloc, item)?;
    Ok(some_unknown(types, list.as_slice()))
}

/// Whether the item is a type definition that contains itself.
pub fn recursive_type(types: &Types<'_>, item: &Item) -> bool
    ensures { result ≡ spec.recursive_type (types_alone types.now.defs) item.now }
{
    match item {
        Item::TypeDef(name, _) => types.holds_itself(name),
        _ => false,
    }
}

/// Whether the type, or one inside it, is larger than the greatest size.
pub fn is_type_large(alloc: Global, types: &mut Types<'_>, ty: &TyText) -> Result<bool, OutOfMemory>
    ensures defs { types.new.defs ≡ types.old.defs }
    ensures large { IfOk result (λ b. b ≡ is_large types.old.defs ty.now) }
{
    let number = types.number(alloc, ty)?;
    Ok(types.table().extent(number).is_none())
}

fn either(a: bool, b: bool) -> bool
    ensures { result ≡ (a || b) }
{
    a || b
}

fn some_large(alloc: Global, types: &mut Types<'_>, list: &[&TyText]) -> Result<bool, OutOfMemory>
    ensures defs { types.new.defs ≡ types.old.defs }
    ensures large { IfOk result (λ b. b ≡ list_any (λ t. is_large types.old.defs t.now) list.now) }
{
    let mut found = false;
    'each: for ty in list {
        let here = is_type_large(alloc, types, ty)?;
        found = either(found, here);
    }
    Ok(found)
}

/// Whether a type that is written in the item, or one inside it, is larger than the greatest size.
pub fn type_too_large(
    alloc: Global,
    types: &mut Types<'_>,
    item: &Item,
) -> Result<bool, OutOfMemory>
    ensures defs { types.new.defs ≡ types.old.defs }
    ensures broken { IfOk result (λ b. b ≡ spec.type_too_large (types_alone types.old.defs) item.now) }
{
    let list = types_of(alloc, item)?;
    some_large(alloc, types, list.as_slice())
}
