//! The type definitions of a module by number.
ghost use Rattle.std.specs.Prelude.{◌≡◌, ◌<◌, ◌≤◌, ◌+◌, ◌-◌, ◌^◌, ◌++◌, map, OnOk, IfOk};
ghost use Rattle.ir_names.specs.Names.{firsts};
ghost use Rattle.ir_rules.specs.Types.{type_defs};
ghost use Rattle.ir_types.specs.Definitions as spec;

use am_base::OutOfMemory;
use am_lists::Items;
use ir_names::NameTable;
use ir_tree::{Item, TyText};
use std::alloc::Global;

/// The numbers of the definitions so far.
#[derive(Drop)]
pub struct Numbering {
    /// The numbers by the names, each of its first definition.
    pub table: NameTable<usize>,
    /// The number of the next definition.
    pub next: usize,
}

fn add_definition(alloc: Global, numbering: &mut Numbering, item: &Item) -> Result<(), OutOfMemory>
    requires { numbering.old.next < 2 ^ 64 - 1 }
    ensures definition { OnOk result (numbering.new ≡ spec.with_definition numbering.old item.now) }
    ensures few { OnOk result (numbering.new.next ≤ numbering.old.next + 1) }
{
    if let Item::TypeDef(name, _) = item {
        numbering.table.add(alloc, name, numbering.next)?;
        numbering.next += 1;
    }
    Ok(())
}

fn numbering_of(alloc: Global, items: &[Item]) -> Result<Numbering, OutOfMemory>
    ensures { IfOk result (λ numbering. numbering ≡ spec.numbering_of items.now) }
{
    let mut numbering = Numbering {
        table: NameTable::new(alloc),
        next: 0,
    };
    'each: for item in items {
        add_definition(alloc, &mut numbering, item)?;
    }
    Ok(numbering)
}

/// Returns the number of each type name's first definition among all type definitions in text
/// order, from 0.
pub fn numbers_of(alloc: Global, items: &[Item]) -> Result<NameTable<usize>, OutOfMemory>
    ensures { IfOk result (λ table. table ≡ firsts (spec.numbered_from 0 (type_defs items.now))) }
{
    let numbering = numbering_of(alloc, items)?;
    Ok(numbering.table)
}

fn push_body<'a>(bodies: &mut Items<&'a TyText>, item: &'a Item) -> Result<(), OutOfMemory>
    ensures { OnOk result (map (λ b. b.now) bodies.new ≡ map (λ b. b.now) bodies.old ++ spec.body_of item.now) }
{
    if let Item::TypeDef(_, ty) = item {
        bodies.push(ty)?;
    }
    Ok(())
}

/// Returns what the types are defined as, in text order.
pub fn bodies_of<'a>(alloc: Global, items: &'a [Item]) -> Result<Items<&'a TyText>, OutOfMemory>
    ensures { IfOk result (λ bodies. map (λ b. b.now) bodies ≡ map (λ d. d.1) (type_defs items.now)) }
{
    let mut bodies = Items::new(alloc);
    'each: for item in items {
        push_body(&mut bodies, item)?;
    }
    Ok(bodies)
}
