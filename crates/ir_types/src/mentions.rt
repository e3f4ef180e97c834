//! The definitions that a type names.
ghost use Rattle.std.specs.Prelude.{◌≡◌, ◌++◌, not, is_some, map, OnOk, IfOk};
ghost use Rattle.std.specs.List.{list_any, flat_map};
ghost use Rattle.ir_names.specs.Names.{defined};
ghost use Rattle.ir_types.specs.Graph.{numbers_in, names_unknown, maybe_number};

use am_base::OutOfMemory;
use am_lists::Items;
use ir_names::NameTable;
use ir_tree::{Name, TyText};
use std::alloc::Global;

fn is_unknown(numbers: &NameTable<usize>, name: &Name) -> bool
    ensures { result ≡ not (is_some (defined numbers.now name.now)) }
{
    match numbers.get(name) {
        None => true,
        Some(_) => false,
    }
}

/// Whether a type names no definition.
#[cycle(unknown)]
pub fn names_unknown_type(numbers: &NameTable<usize>, ty: &TyText) -> bool
    ensures { result ≡ names_unknown numbers.now ty.now }
{
    match ty {
        TyText::Int(_) | TyText::Ptr | TyText::Void => false,
        TyText::Array(_, of) => names_unknown_type(numbers, of.get()),
        TyText::Struct(fields) => some_names_unknown_type(numbers, fields.as_slice()),
        TyText::Named(name) => is_unknown(numbers, name),
    }
}

#[cycle(unknown)]
fn some_names_unknown_type(numbers: &NameTable<usize>, types: &[TyText]) -> bool
    ensures { result ≡ list_any (names_unknown numbers.now) types.now }
{
    let mut found = false;
    'each: for ty in types {
        let here = names_unknown_type(numbers, ty);
        found = found || here;
    }
    found
}

fn add_name(
    numbers: &NameTable<usize>,
    list: &mut Items<usize>,
    name: &Name,
) -> Result<(), OutOfMemory>
    ensures { OnOk result (list.new ≡ list.old ++ maybe_number (defined numbers.now name.now)) }
{
    if let Some(number) = numbers.get(name) {
        list.push(*number)?;
    }
    Ok(())
}

/// Appends the numbers of the definitions that a type names.
#[cycle(add)]
fn add_numbers(
    numbers: &NameTable<usize>,
    list: &mut Items<usize>,
    ty: &TyText,
) -> Result<(), OutOfMemory>
    ensures { OnOk result (list.new ≡ list.old ++ numbers_in numbers.now ty.now) }
{
    match ty {
        TyText::Int(_) | TyText::Ptr | TyText::Void => Ok(()),
        TyText::Array(_, of) => add_numbers(numbers, list, of.get()),
        TyText::Struct(fields) => add_all_numbers(numbers, list, fields.as_slice()),
        TyText::Named(name) => add_name(numbers, list, name),
    }
}

#[cycle(add)]
fn add_all_numbers(
    numbers: &NameTable<usize>,
    list: &mut Items<usize>,
    types: &[TyText],
) -> Result<(), OutOfMemory>
    ensures { OnOk result (list.new ≡ list.old ++ flat_map (numbers_in numbers.now) types.now) }
{
    'each: for ty in types {
        add_numbers(numbers, list, ty)?;
    }
    Ok(())
}

fn numbers_of_names(
    alloc: Global,
    numbers: &NameTable<usize>,
    ty: &TyText,
) -> Result<Items<usize>, OutOfMemory>
    ensures { IfOk result (λ list. list ≡ numbers_in numbers.now ty.now) }
{
    let mut list = Items::new(alloc);
    add_numbers(numbers, &mut list, ty)?;
    Ok(list)
}

/// Returns the numbers of the definitions that each body names.
pub fn edges_of(
    alloc: Global,
    numbers: &NameTable<usize>,
    bodies: &[&TyText],
) -> Result<Items<Items<usize>>, OutOfMemory>
    ensures { IfOk result (λ edges. edges ≡ map (λ b. numbers_in numbers.now b.now) bodies.now) }
{
    let mut edges = Items::new(alloc);
    'each: for ty in bodies {
        edges.push(numbers_of_names(alloc, numbers, ty)?)?;
    }
    Ok(edges)
}
