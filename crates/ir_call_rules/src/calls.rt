//! The rules on calls and declarations.
ghost use Rattle.std.specs.Prelude.{◌≡◌, None, IfOk, [], map, not, is_some};
ghost use Rattle.ir_names.specs.Names.{defined};
ghost use Rattle.ir_rules.specs.Calls as spec;
ghost use Rattle.ir_rules.specs.Entities.{signature_of};
ghost use Rattle.ir_scopes.specs.Kinds.{kind_in};
ghost use Rattle.ir_call_rules.specs.Alone.{calls_alone};

use crate::ports::Ports;
use am_base::OutOfMemory;
use am_lists::Items;
use code_form::TyScalar;
use ir_names::NameTable;
use ir_rules::{Entity, Signature};
use ir_scopes::{KindTable, kinds_of, result_kind, same_signature};
use ir_tree::{Item, Name, Op, Opd, TyText};
use std::alloc::Global;

fn is_callee(
    alloc: Global,
    ports: &Ports<'_>,
    entities: &NameTable<Entity>,
    name: &Name,
) -> Result<bool, OutOfMemory>
    ensures { IfOk result (λ is.
        is ≡ spec.is_callee ports.now name.now (defined entities.now name.now)) }
{
    match entities.get(name) {
        Some(Entity::Defined(_, _)) => Ok(true),
        Some(Entity::Declared(_)) => Ok(ports.callee_of(alloc, name)?.is_some()),
        Some(Entity::Variable) | None => Ok(false),
    }
}

/// Whether the item calls what is neither defined, nor declared and an outside function or port.
pub fn unknown_callee(
    alloc: Global,
    ports: &Ports<'_>,
    entities: &NameTable<Entity>,
    item: &Item,
) -> Result<bool, OutOfMemory>
    ensures { let s = calls_alone (λ t. None) entities.now ports.now in
        IfOk result (λ broken. broken ≡ spec.unknown_callee s item.now) }
{
    match item {
        Item::Instr(_, op) => match op.get() {
            Op::Call(_, name, _) => Ok(!is_callee(alloc, ports, entities, name)?),
            _ => Ok(false),
        },
        _ => Ok(false),
    }
}

fn kinds_of_args(
    alloc: Global,
    kinds: &KindTable,
    args: &[(TyText, Opd)],
) -> Result<Items<Option<TyScalar>>, OutOfMemory>
    ensures { let kind = kind_in kinds.now.names in
        IfOk result (λ list. list ≡ map kind (map (λ x. x.0) args.now)) }
{
    let mut list = Items::new(alloc);
    'each: for arg in args {
        list.push(kinds.of(&arg.0))?;
    }
    Ok(list)
}

fn call_signature(
    alloc: Global,
    kinds: &KindTable,
    ty: &TyText,
    args: &[(TyText, Opd)],
) -> Result<Signature, OutOfMemory>
    ensures { let kind = kind_in kinds.now.names in IfOk result (λ call.
        call ≡ signature_of kind ty.now (map (λ x. x.0) args.now)) }
{
    Ok(Signature {
        params: kinds_of_args(alloc, kinds, args)?,
        result: result_kind(kinds, ty),
    })
}

/// Whether what a name stands for is a function with another signature.
fn has_other_signature(entities: &NameTable<Entity>, call: &Signature, name: &Name) -> bool
    ensures { result ≡ spec.has_other_signature call.now (defined entities.now name.now) }
{
    match entities.get(name) {
        Some(Entity::Defined(_, sign)) => !same_signature(call, sign),
        Some(Entity::Declared(sign)) => !same_signature(call, sign),
        Some(Entity::Variable) | None => false,
    }
}

/// Whether the item is a call whose types or number of arguments, or whose type of result, aren't
/// those of its callee in the module.
pub fn call_differs(
    alloc: Global,
    kinds: &KindTable,
    entities: &NameTable<Entity>,
    item: &Item,
) -> Result<bool, OutOfMemory>
    ensures { let s = calls_alone (kind_in kinds.now.names) entities.now [] in
        IfOk result (λ broken. broken ≡ spec.call_differs s item.now) }
{
    match item {
        Item::Instr(_, op) => match op.get() {
            Op::Call(ty, name, args) => {
                let call = call_signature(alloc, kinds, ty, args.as_slice())?;
                Ok(has_other_signature(entities, &call, name))
            }
            _ => Ok(false),
        },
        _ => Ok(false),
    }
}

fn differs_from(declared: &Signature, wanted: &Option<Signature>) -> bool
    ensures { result ≡ spec.differs_from declared.now wanted.now }
{
    match wanted {
        None => false,
        Some(sign) => !same_signature(declared, sign),
    }
}

/// Whether the item declares an outside function or port with another signature than it has.
pub fn declare_differs(
    alloc: Global,
    kinds: &KindTable,
    ports: &Ports<'_>,
    item: &Item,
) -> Result<bool, OutOfMemory>
    ensures { let s = calls_alone (kind_in kinds.now.names) [] ports.now in
        IfOk result (λ broken. broken ≡ spec.declare_differs s item.now) }
{
    match item {
        Item::Declare(name, ty, params) => {
            let declared = Signature {
                params: kinds_of(alloc, kinds, params.as_slice())?,
                result: result_kind(kinds, ty),
            };
            let callee = ports.callee_of(alloc, name)?;
            let wanted = ports.signature_of(alloc, callee)?;
            Ok(differs_from(&declared, &wanted))
        }
        _ => Ok(false),
    }
}
