//! The pass over a function's items that gathers for each block the blocks that branch to it.
ghost use Rattle.std.specs.Prelude.{◌≡◌, ℕ, ◌<◌, nat_eq, [], IfOk, OnOk, fold, map, length, slice_set, if◌then◌else◌};
ghost use Rattle.ir_rules.specs.Parts.{branch_labels};
ghost use Rattle.ir_rules.specs.Settings as settings;
ghost use Rattle.ir_scopes.specs.Kinds.{kind_in};
ghost use Rattle.ir_call_rules.specs.Alone.{branches_alone};
ghost use Rattle.ir_call_rules.specs.Sources.{bucket, with_source, with_edge, sources_once};
ghost use Rattle.ir_call_rules.specs.Sources as spec;

use am_base::OutOfMemory;
use am_lists::Items;
use ir_names::NameTable;
use ir_rules::{Local, Scope};
use ir_scopes::{KindTable, add_item, empty_scope};
use ir_tree::{Item, Name, Op, Opd, TyText};
use std::alloc::Global;
use std::marker::Model;

/// For each block of a function, by its number, the blocks that branch to it in text order.
#[derive(Drop)]
pub struct Sources {
    lists: Vec<Items<usize>>,
}

impl Model for Sources {
    ghost use Rattle.std.specs.Prelude.{List, ℕ};

    ghost Value = { List (List ℕ) };

    ghost view = { λ sources. sources.lists.items };
}

fn is_last(list: &Items<usize>, n: usize) -> bool
    ensures { result ≡ spec.is_last list.now n }
{
    match list.get(list.len().saturating_sub(1)) {
        None => false,
        Some(last) => *last == n,
    }
}

fn add_source(list: &mut Items<usize>, from: usize) -> Result<(), OutOfMemory>
    ensures { OnOk result (list.new ≡ with_source list.old from) }
{
    if !is_last(list, from) {
        list.push(from)?;
    }
    Ok(())
}

/// Makes room for a block and all before it.
fn grow(alloc: Global, lists: &mut Vec<Items<usize>>, block: usize) -> Result<(), OutOfMemory>
    ensures room { OnOk result (block < length lists.new.items) }
    ensures same { OnOk result ((b : ℕ) → bucket lists.new.items b ≡ bucket lists.old.items b) }
{
    'each: while lists.len() <= block {
        lists.push(Items::new(alloc))?;
    }
    Ok(())
}

fn put(lists: &mut Vec<Items<usize>>, block: usize, from: usize) -> Result<(), OutOfMemory>
    requires { block < length lists.old.items }
    ensures { let sources = with_source (bucket lists.old.items block) from in
        OnOk result (lists.new.items ≡ slice_set lists.old.items block sources) }
{
    add_source(&mut lists[block], from)
}

impl Sources {
    /// Returns the lists of no branch. It takes no memory.
    pub fn new(alloc: Global) -> Sources
        ensures { result ≡ [] }
    {
        Sources {
            lists: Vec::new(alloc),
        }
    }

    /// The blocks that branch to a block.
    pub fn of(&self, block: usize) -> &[usize]
        ensures { result.now ≡ bucket self.now block }
    {
        match self.lists.get(block) {
            None => &[],
            Some(list) => list.as_slice(),
        }
    }

    /// Adds a branch from one block to another.
    fn add(&mut self, alloc: Global, block: usize, from: usize) -> Result<(), OutOfMemory>
        ensures { OnOk result ((b : ℕ) → bucket self.new b
            ≡ (if nat_eq block b then with_source (bucket self.old b) from else bucket self.old b)) }
    {
        grow(alloc, &mut self.lists, block)?;
        put(&mut self.lists, block, from)
    }
}

fn add_label(
    alloc: Global,
    locals: &NameTable<Local>,
    sources: &mut Sources,
    from: usize,
    name: &Name,
) -> Result<(), OutOfMemory>
    ensures { let s = branches_alone locals.now [] in
        OnOk result ((b : ℕ) → bucket sources.new b
        ≡ with_edge s b (bucket sources.old b) (from, name.now)) }
{
    match locals.get(name) {
        Some(Local::Block(block)) => sources.add(alloc, *block, from),
        _ => Ok(()),
    }
}

fn add_cases(
    alloc: Global,
    locals: &NameTable<Local>,
    sources: &mut Sources,
    from: usize,
    cases: &[(TyText, Opd, Name)],
) -> Result<(), OutOfMemory>
    ensures { let s = branches_alone locals.now [] in
        OnOk result ((b : ℕ) → bucket sources.new b
        ≡ fold (with_edge s b) (bucket sources.old b) (map (λ c. (from, c.2)) cases.now)) }
{
    'each: for case in cases {
        add_label(alloc, locals, sources, from, &case.2)?;
    }
    Ok(())
}

fn add_branches(
    alloc: Global,
    locals: &NameTable<Local>,
    sources: &mut Sources,
    from: usize,
    op: &Op,
) -> Result<(), OutOfMemory>
    ensures { let s = branches_alone locals.now [] in
        OnOk result ((b : ℕ) → bucket sources.new b ≡ fold (with_edge s b)
        (bucket sources.old b) (map (λ n. (from, n)) (branch_labels op.now))) }
{
    match op {
        Op::Jump(to) => add_label(alloc, locals, sources, from, to),
        Op::Branch(_, _, chosen, other) => {
            add_label(alloc, locals, sources, from, chosen)?;
            add_label(alloc, locals, sources, from, other)
        }
        Op::Switch(_, _, other, cases) => {
            add_label(alloc, locals, sources, from, other)?;
            add_cases(alloc, locals, sources, from, cases.as_slice())?;
            Ok(())
        }
        _ => Ok(()),
    }
}

/// Adds the branches of an item, where its function has defined `after` once it has.
fn add_edges(
    alloc: Global,
    locals: &NameTable<Local>,
    sources: &mut Sources,
    after: &Scope,
    item: &Item,
) -> Result<(), OutOfMemory>
    ensures { let s = branches_alone locals.now [] in
        OnOk result ((b : ℕ) → bucket sources.new b ≡ fold (with_edge s b)
        (bucket sources.old b) (settings.edges_at after.now item.now)) }
{
    match item {
        Item::Instr(_, op) => {
            let from = after.starts.len().saturating_sub(1);
            add_branches(alloc, locals, sources, from, op.get())
        }
        _ => Ok(()),
    }
}

/// Returns for each block of a function, whose names are `locals`, the blocks that branch to it. It
/// takes time about linear in the items.
pub fn sources_of(
    alloc: Global,
    kinds: &KindTable,
    locals: &NameTable<Local>,
    items: &[Item],
) -> Result<Sources, OutOfMemory>
    ensures { let edges = settings.edges_of (kind_in kinds.now.names) items.now in
        let s = branches_alone locals.now edges in
        IfOk result (λ sources. (b : ℕ) → bucket sources b ≡ sources_once s edges b) }
{
    let mut scope = empty_scope(alloc);
    let mut sources = Sources::new(alloc);
    'each: for item in items {
        add_item(alloc, kinds, &mut scope, item)?;
        add_edges(alloc, locals, &mut sources, &scope, item)?;
    }
    Ok(sources)
}
