//! The number of what a type stands for.
ghost use Rattle.std.specs.Prelude.{◌≡◌, ◌<◌, Some, length, map, slice_get, IfOk};
ghost use Rattle.type_table.specs.Table.{Keeps};
ghost use Rattle.ir_tree.specs.declared.name.Name.{Name as TheName};
ghost use Rattle.ir_rules.specs.Types.{expand_by};
ghost use Rattle.ir_types.specs.Named.{name_number, types_in};

use crate::names::Names;
use am_base::OutOfMemory;
use am_lists::Items;
use ir_tree::TyText;
use std::alloc::Global;
use type_table::{Shape, TypeTable};

/// Returns the number of what a type stands for, where the names stand for what their numbers say.
#[cycle(number)]
pub fn number_by(
    alloc: Global,
    names: &Names<'_>,
    table: &mut TypeTable,
    ty: &TyText,
) -> Result<usize, OutOfMemory>
    requires { let number = name_number names.now.numbers.now names.now.recursive.now names.now.named.now in
        (n : TheName) → number n < length table.old }
    ensures kept { Keeps table.old table.new }
    ensures number { let number = name_number names.now.numbers.now names.now.recursive.now names.now.named.now in
        IfOk result (λ k. slice_get table.new k ≡ Some (expand_by (types_in table.old number) ty.now)) }
{
    match ty {
        TyText::Int(w) => table.add(alloc, Shape::Int(*w)),
        TyText::Ptr => table.add(alloc, Shape::Ptr),
        TyText::Void => table.add(alloc, Shape::Struct(Items::new(alloc))),
        TyText::Array(n, of) => {
            let of = number_by(alloc, names, table, of.get())?;
            table.add(alloc, Shape::Array(*n, of))
        }
        TyText::Struct(fields) => {
            let parts = numbers_by(alloc, names, table, fields.as_slice())?;
            table.add(alloc, Shape::Struct(parts))
        }
        TyText::Named(name) => Ok(names.number(name)),
    }
}

#[cycle(number)]
fn numbers_by(
    alloc: Global,
    names: &Names<'_>,
    table: &mut TypeTable,
    types: &[TyText],
) -> Result<Items<usize>, OutOfMemory>
    requires { let number = name_number names.now.numbers.now names.now.recursive.now names.now.named.now in
        (n : TheName) → number n < length table.old }
    ensures kept { Keeps table.old table.new }
    ensures numbers { let number = name_number names.now.numbers.now names.now.recursive.now names.now.named.now in
        IfOk result (λ list. map (slice_get table.new) list ≡ map (λ t. Some (expand_by (types_in table.old number) t)) types.now) }
{
    let mut list = Items::new(alloc);
    'each: for ty in types {
        let number = number_by(alloc, names, table, ty)?;
        list.push(number)?;
    }
    Ok(list)
}
