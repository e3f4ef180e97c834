//! The rule on the paths of `getelementptr`.
ghost use Rattle.std.specs.Prelude.{◌≡◌, ◌||◌, Some, fold, map, drop, slice_get, is_some, IfOk};
ghost use Rattle.std.specs.List.{list_any};
ghost use Rattle.std.specs.Option.{option_copied};
ghost use Rattle.am_base.specs.declared.word.Width.TheVariants.{W32};
ghost use Rattle.code_form.specs.declared.code.TyScalar.TheVariants as scalar;
ghost use Rattle.ir_rules.specs.Types.{same_kind};
ghost use Rattle.ir_rules.specs.Paths as spec;
ghost use Rattle.ir_rules.specs.Paths.{index_operand};
ghost use Rattle.ir_type_rules.specs.Alone.{types_alone};
ghost use Rattle.ir_type_rules.specs.Walk.{typed_at, field_in, part_in, next_type};

use crate::operands::Typed;
use crate::parts::operands_of;
use am_base::{OutOfMemory, Width};
use code_form::TyScalar;
use ir_tree::{Item, Op, Opd, TyText};
use ir_types::Types;
use std::alloc::Global;
use type_table::Shape;

fn is_i32(kind: Option<TyScalar>) -> bool
    ensures { result ≡ same_kind kind (Some (scalar.Int W32)) }
{
    matches!(kind, Some(TyScalar::Int(Width::W32)))
}

fn is_pointer(kind: Option<TyScalar>) -> bool
    ensures { result ≡ same_kind kind (Some scalar.Ptr) }
{
    matches!(kind, Some(TyScalar::Ptr))
}

/// The number of a field that an index of a kind is. `None` unless it is an i32 number.
fn field_number(kind: Option<TyScalar>, index: &Opd) -> Option<u128>
    ensures { result ≡ spec.field_number kind index.now }
{
    match index {
        Opd::Number(n) if *n >= 0 && is_i32(kind) => Some(*n as u128),
        _ => None,
    }
}

fn field_at(parts: &[usize], field: Option<u128>) -> Option<usize>
    ensures { result ≡ field_in parts.now field }
{
    match field {
        Some(n) if n < parts.len() as u128 => Some(parts[n as usize]),
        _ => None,
    }
}

/// The number of the part that an index goes into.
fn part(field: Option<u128>, shape: Option<&Shape>) -> Option<usize>
    ensures { result ≡ part_in field (option_copied shape.entry) }
{
    match shape {
        Some(Shape::Array(_, of)) => Some(*of),
        Some(Shape::Struct(parts)) => field_at(parts.as_slice(), field),
        _ => None,
    }
}

fn step(types: &Types<'_>, at: Option<usize>, ty: &TyText, index: &Opd) -> Option<usize>
    ensures { typed_at types.now.types result
        ≡ next_type types.now.defs (typed_at types.now.types at) (ty.now, index.now) }
{
    match at {
        None => None,
        Some(n) => part(field_number(types.kind(ty), index), types.table().shape(n)),
    }
}

fn is_type(types: &Types<'_>, at: Option<usize>) -> bool
    ensures { result ≡ is_some (typed_at types.now.types at) }
{
    match at {
        None => false,
        Some(n) => types.table().shape(n).is_some(),
    }
}

fn walked(types: &Types<'_>, from: usize, indices: &[(TyText, Opd)]) -> Option<usize>
    ensures { typed_at types.now.types result
        ≡ fold (next_type types.now.defs) (slice_get types.now.types from) indices.now }
{
    let mut at = Some(from);
    'each: for index in indices {
        at = step(types, at, &index.0, &index.1);
    }
    at
}

fn walked_by_numbers(types: &Types<'_>, from: usize, indices: &[(TyText, i128)]) -> Option<usize>
    ensures { typed_at types.now.types result
        ≡ fold (next_type types.now.defs) (slice_get types.now.types from) (map index_operand indices.now) }
{
    let mut at = Some(from);
    'each: for index in indices {
        at = step(types, at, &index.0, &Opd::Number(index.1));
    }
    at
}

/// A list without its first element.
fn behind_first<T>(list: &[T]) -> &[T]
    ensures { result.now ≡ drop 1 list.now }
{
    match list {
        [] => &[],
        [_, rest @ ..] => rest,
    }
}

/// Whether an index goes into no array or struct, where the first one goes over values of the type.
fn no_path(
    alloc: Global,
    types: &mut Types<'_>,
    of: &TyText,
    indices: &[(TyText, Opd)],
) -> Result<bool, OutOfMemory>
    ensures defs { types.new.defs ≡ types.old.defs }
    ensures broken { IfOk result (λ b. b ≡ spec.no_path types.old.defs of.now indices.now) }
{
    let from = types.number(alloc, of)?;
    match indices {
        [] => Ok(false),
        [_, ..] => Ok(!is_type(types, walked(types, from, behind_first(indices)))),
    }
}

/// The same of the indices of a constant.
fn no_number_path(
    alloc: Global,
    types: &mut Types<'_>,
    of: &TyText,
    indices: &[(TyText, i128)],
) -> Result<bool, OutOfMemory>
    ensures defs { types.new.defs ≡ types.old.defs }
    ensures broken { IfOk result (λ b. b ≡ spec.no_path types.old.defs of.now (map index_operand indices.now)) }
{
    let from = types.number(alloc, of)?;
    match indices {
        [] => Ok(false),
        [_, ..] => {
            let end = walked_by_numbers(types, from, behind_first(indices));
            Ok(!is_type(types, end))
        }
    }
}

fn either(a: bool, b: bool) -> bool
    ensures { result ≡ (a || b) }
{
    a || b
}

fn no_constant_path(alloc: Global, types: &mut Types<'_>, a: &Opd) -> Result<bool, OutOfMemory>
    ensures defs { types.new.defs ≡ types.old.defs }
    ensures broken { IfOk result (λ b. b ≡ spec.no_constant_path types.old.defs a.now) }
{
    match a {
        Opd::Get(get) => {
            let get = get.get();
            let base = is_pointer(types.kind(&get.1));
            let path = no_number_path(alloc, types, &get.0, get.3.as_slice())?;
            Ok(either(path, !base))
        }
        _ => Ok(false),
    }
}

fn some_no_path(
    alloc: Global,
    types: &mut Types<'_>,
    operands: &[Typed<'_>],
) -> Result<bool, OutOfMemory>
    ensures defs { types.new.defs ≡ types.old.defs }
    ensures broken { IfOk result (λ b. b ≡ list_any (λ v. spec.no_constant_path types.old.defs v.1.now) operands.now) }
{
    let mut found = false;
    'each: for operand in operands {
        let here = no_constant_path(alloc, types, operand.1)?;
        found = either(found, here);
    }
    Ok(found)
}

fn no_op_path(alloc: Global, types: &mut Types<'_>, op: &Op) -> Result<bool, OutOfMemory>
    ensures defs { types.new.defs ≡ types.old.defs }
    ensures broken { IfOk result (λ b. b ≡ spec.no_op_path types.old.defs op.now) }
{
    match op {
        Op::Get(of, _, _, indices) => no_path(alloc, types, of, indices.as_slice()),
        _ => Ok(false),
    }
}

fn no_item_path(alloc: Global, types: &mut Types<'_>, item: &Item) -> Result<bool, OutOfMemory>
    ensures defs { types.new.defs ≡ types.old.defs }
    ensures broken { IfOk result (λ b. b ≡ spec.no_item_path types.old.defs item.now) }
{
    match item {
        Item::Instr(_, op) => no_op_path(alloc, types, op.get()),
        _ => Ok(false),
    }
}

/// Whether an index of a `getelementptr` in the item goes into no array or struct, a struct's index
/// isn't an i32 number of one of its fields, or the type of a constant's base isn't a pointer.
pub fn get_path(alloc: Global, types: &mut Types<'_>, item: &Item) -> Result<bool, OutOfMemory>
    ensures defs { types.new.defs ≡ types.old.defs }
    ensures broken { IfOk result (λ b. b ≡ spec.get_path (types_alone types.old.defs) item.now) }
{
    let operands = operands_of(alloc, item)?;
    let own = no_item_path(alloc, types, item)?;
    let inner = some_no_path(alloc, types, operands.as_slice())?;
    Ok(either(own, inner))
}
