//! The numbers of what the definitions stand for.
ghost use Rattle.std.specs.Prelude.{◌≡◌, ℕ, ◌<◌, true, false, not, ◌&&◌, Some, length, slice_get, OnOk, IfOk};
ghost use Rattle.type_table.specs.Table.{Keeps};
ghost use Rattle.ir_rules.specs.Types.{type_defs, empty};
ghost use Rattle.ir_types.specs.Graph as spec;
ghost use Rattle.ir_types.specs.Graph.{next_of};
ghost use Rattle.ir_types.specs.Named.{Level, IsGraph, AreExact, Stands};

use crate::flags::{all_set, filled, held, set_flag, some_left};
use crate::names::Names;
use crate::number::number_by;
use crate::walk::named_by;
use am_base::OutOfMemory;
use am_lists::Items;
use ir_names::NameTable;
use ir_tree::{Item, TyText};
use std::alloc::Global;
use type_table::TypeTable;

/// The definitions of a module, and which of them name which.
#[derive(Clone, Copy)]
pub struct Graph<'a> {
    /// The items of the module.
    pub items: &'a [Item],
    /// What the definitions say, in text order.
    pub bodies: &'a [&'a TyText],
    /// For each definition the numbers of those that it names.
    pub edges: &'a [Items<usize>],
    /// The numbers of the definitions.
    pub numbers: &'a NameTable<usize>,
    /// For each definition whether it contains itself.
    pub recursive: &'a [bool],
}

/// The numbers of the definitions so far.
#[derive(Drop)]
pub struct Naming {
    /// For each definition whether it has its number, or contains itself.
    pub done: Items<bool>,
    /// For each definition the number of what it stands for, 0 where there is none yet.
    pub named: Items<u64>,
}

/// Whether a definition isn't done, but all that it names are.
fn is_ready(edges: &[Items<usize>], done: &[bool], d: usize) -> bool
    ensures { result
        ≡ (not (spec.held done.now d) && not (spec.some_left done.now (next_of edges.now d))) }
{
    !held(done, d) && !some_left(done, named_by(edges, d))
}

/// Numbers a definition by the numbers of those that it names.
fn number_ready(
    alloc: Global,
    graph: &Graph<'_>,
    table: &mut TypeTable,
    naming: &mut Naming,
    d: usize,
) -> Result<(), OutOfMemory>
    requires graph { IsGraph graph.now }
    requires exact { AreExact graph.now naming.old table.old }
    requires other { spec.held naming.old.done d ≡ false }
    requires ready { spec.some_left naming.old.done (next_of graph.now.edges.now d) ≡ false }
    ensures kept { Keeps table.old table.new }
    ensures exact { OnOk result (AreExact graph.now naming.new table.new) }
    ensures grows { OnOk result ((c : ℕ)
        → spec.held naming.old.done c ≡ true → spec.held naming.new.done c ≡ true) }
    ensures done { OnOk result (spec.held naming.new.done d ≡ true) }
{
    let ty = graph.bodies[d];
    let names = Names {
        numbers: graph.numbers,
        recursive: graph.recursive,
        named: naming.named.as_slice(),
    };
    let number = number_by(alloc, &names, table, ty)?;
    naming.named.set(d, number as u64);
    set_flag(&mut naming.done, d);
    Ok(())
}

/// Numbers a definition if it isn't done and all that it names are.
fn number_one(
    alloc: Global,
    graph: &Graph<'_>,
    table: &mut TypeTable,
    naming: &mut Naming,
    d: usize,
) -> Result<(), OutOfMemory>
    requires graph { IsGraph graph.now }
    requires exact { AreExact graph.now naming.old table.old }
    ensures kept { Keeps table.old table.new }
    ensures exact { OnOk result (AreExact graph.now naming.new table.new) }
    ensures grows { OnOk result ((c : ℕ)
        → spec.held naming.old.done c ≡ true → spec.held naming.new.done c ≡ true) }
    ensures tried { OnOk result (spec.held naming.new.done d ≡ false
        → spec.some_left naming.old.done (next_of graph.now.edges.now d) ≡ true) }
{
    if is_ready(graph.edges, naming.done.as_slice(), d) {
        number_ready(alloc, graph, table, naming, d)?;
    }
    Ok(())
}

/// Numbers the definitions in an order, each of them if all that it names are done.
fn number_all(
    alloc: Global,
    graph: &Graph<'_>,
    order: &[usize],
    table: &mut TypeTable,
    naming: &mut Naming,
) -> Result<(), OutOfMemory>
    requires graph { IsGraph graph.now }
    requires exact { AreExact graph.now naming.old table.old }
    requires whole { (d : ℕ) → d < length graph.now.edges.now → Stands order.now d }
    ensures kept { Keeps table.old table.new }
    ensures exact { OnOk result (AreExact graph.now naming.new table.new) }
    ensures tried { OnOk result ((d : ℕ) → spec.held naming.new.done d ≡ false
        → spec.some_left naming.old.done (next_of graph.now.edges.now d) ≡ true) }
{
    'each: for d in order {
        number_one(alloc, graph, table, naming, *d)?;
    }
    Ok(())
}

/// Returns for each definition the number of what it stands for. Once through the order is enough
/// where each definition comes behind those that it names, but for those that contain themselves.
pub fn named_of(
    alloc: Global,
    graph: &Graph<'_>,
    order: &[usize],
    table: &mut TypeTable,
) -> Result<Items<u64>, OutOfMemory>
    requires graph { IsGraph graph.now }
    requires whole { (d : ℕ) → d < length graph.now.edges.now → Stands order.now d }
    requires zero { slice_get table.old 0 ≡ Some empty }
    ensures kept { Keeps table.old table.new }
    ensures level { let defs = type_defs graph.now.items.now in
        let g = graph.now in
        IfOk result (λ named. Level table.new g.numbers.now g.recursive.now named defs (length defs)) }
{
    let mut naming = Naming {
        done: Items::from_slice(alloc, graph.recursive)?,
        named: filled(alloc, graph.recursive.len(), 0)?,
    };
    'passes: for _pass in 0..graph.edges.len() {
        number_all(alloc, graph, order, table, &mut naming)?;
        if all_set(naming.done.as_slice()) {
            return Ok(naming.named);
        }
    }
    Ok(naming.named)
}
