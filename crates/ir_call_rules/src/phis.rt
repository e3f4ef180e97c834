//! The rule on the entries of a `phi`.
ghost use Rattle.std.specs.Prelude.{◌≡◌, IfOk, ◌||◌, not, map};
ghost use Rattle.ir_names.specs.Names.{defined};
ghost use Rattle.ir_rules.specs.Blocks as spec;
ghost use Rattle.ir_call_rules.specs.Sources.{differs_from_first, phi_differs};

use crate::numbers::{either, same_set};
use am_base::OutOfMemory;
use am_lists::{Items, Same};
use ir_names::NameTable;
use ir_rules::Local;
use ir_tree::{Item, Name, Op, Opd};
use std::alloc::Global;

fn block_number(locals: &NameTable<Local>, name: &Name) -> usize
    ensures { result ≡ spec.block_number (defined locals.now name.now) }
{
    match locals.get(name) {
        Some(Local::Block(number)) => *number,
        _ => 0,
    }
}

fn entry_blocks(
    alloc: Global,
    locals: &NameTable<Local>,
    entries: &[(Opd, Name)],
) -> Result<Items<usize>, OutOfMemory>
    ensures { IfOk result (λ list.
        list ≡ map (λ e. spec.block_number (defined locals.now e.1)) entries.now) }
{
    let mut list = Items::new(alloc);
    'each: for entry in entries {
        list.push(block_number(locals, &entry.1))?;
    }
    Ok(list)
}

/// Whether an entry isn't the first one of its label.
fn differs(firsts: &NameTable<Opd>, entry: &(Opd, Name)) -> bool
    ensures { result ≡ differs_from_first (defined firsts.now entry.now.1) entry.now.0 }
{
    match firsts.get(&entry.1) {
        None => false,
        Some(first) => !first.same(&entry.0),
    }
}

/// Whether two entries of one label differ. It takes time about linear in the entries.
fn two_differ(alloc: Global, entries: &[(Opd, Name)]) -> Result<bool, OutOfMemory>
    ensures { IfOk result (λ found. found ≡ spec.two_differ entries.now) }
{
    let mut firsts = NameTable::new(alloc);
    let mut found = false;
    'each: for entry in entries {
        let here = differs(&firsts, entry);
        found = either(found, here);
        firsts.add(alloc, &entry.1, entry.0.copy(alloc)?)?;
    }
    Ok(found)
}

/// Whether the labels of some entries as a set aren't the blocks `sources`, or two entries of one
/// label differ.
fn entries_differ(
    alloc: Global,
    locals: &NameTable<Local>,
    sources: &[usize],
    entries: &[(Opd, Name)],
) -> Result<bool, OutOfMemory>
    ensures { let blocks = map (λ e. spec.block_number (defined locals.now e.1)) entries.now in
        IfOk result (λ found. found
        ≡ (not (spec.same_set blocks sources.now) || spec.two_differ entries.now)) }
{
    let blocks = entry_blocks(alloc, locals, entries)?;
    let same = same_set(alloc, blocks.as_slice(), sources)?;
    let differ = two_differ(alloc, entries)?;
    Ok(!same || differ)
}

/// Whether the item is a `phi` whose labels as a set aren't the blocks that branch to its block,
/// `sources`, or that has two entries of one label which differ. It takes time about linear in the
/// entries and `sources`.
pub fn phi_entries(
    alloc: Global,
    locals: &NameTable<Local>,
    sources: &[usize],
    item: &Item,
) -> Result<bool, OutOfMemory>
    ensures { IfOk result (λ broken.
        broken ≡ phi_differs locals.now sources.now item.now) }
{
    match item {
        Item::Instr(_, op) => match op.get() {
            Op::Phi(_, entries) => {
                let broken = entries_differ(alloc, locals, sources, entries.as_slice())?;
                Ok(broken)
            }
            _ => Ok(false),
        },
        _ => Ok(false),
    }
}
