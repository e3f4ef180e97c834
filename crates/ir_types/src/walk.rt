//! Whether a definition leads to itself, by a walk along what definitions name.
ghost use Rattle.std.specs.Prelude.{◌≡◌, ℕ, Bool, true, false, List, length, ◌+◌, IfOk, OnOk};
ghost use Rattle.ir_types.specs.Graph as spec;
ghost use Rattle.ir_types.specs.Graph.{next_of, reaches, AreGrounded};
ghost use Rattle.ir_types.specs.Walks.{Enters, Visits, IsWalk};

use crate::flags::{held, set_flag};
use am_base::OutOfMemory;
use am_lists::Items;
use std::alloc::Global;

/// A walk along the definitions.
#[derive(Drop)]
pub struct Walk {
    /// For each definition whether the walk has come to it, or it was done before.
    pub marks: Items<bool>,
    /// The definitions that the walk has come to.
    pub queue: Items<usize>,
}

/// Returns the definitions that a definition names.
pub fn named_by(edges: &[Items<usize>], number: usize) -> &[usize]
    ensures { result.now ≡ next_of edges.now number }
{
    match edges.get(number) {
        Some(list) => list.as_slice(),
        None => &[],
    }
}

/// Comes to a definition.
fn enter(walk: &mut Walk, number: usize) -> Result<(), OutOfMemory>
    ensures { OnOk result (Enters walk.old number walk.new) }
{
    if !held(walk.marks.as_slice(), number) {
        walk.queue.push(number)?;
    }
    set_flag(&mut walk.marks, number);
    Ok(())
}

/// Comes to each of some definitions.
fn visit(walk: &mut Walk, list: &[usize]) -> Result<(), OutOfMemory>
    ensures { OnOk result (Visits walk.old list.now list.now walk.new) }
{
    'each: for number in list {
        enter(walk, *number)?;
    }
    Ok(())
}

/// Goes on from the definition with this place in the queue, if there is one.
fn step(walk: &mut Walk, edges: &[Items<usize>], at: usize) -> Result<(), OutOfMemory>
    ensures walk { OnOk result ((flags : List Bool) (d : ℕ)
        → IsWalk edges.now flags d at walk.old → IsWalk edges.now flags d (at + 1) walk.new) }
    ensures grows { OnOk result ((c : ℕ)
        → spec.held walk.old.marks c ≡ true → spec.held walk.new.marks c ≡ true) }
{
    if let Some(number) = walk.queue.get(at) {
        let number = *number;
        visit(walk, named_by(edges, number))?;
    }
    Ok(())
}

/// Whether a definition leads to itself. The walk doesn't go along those that are grounded.
pub fn reaches_itself(
    alloc: Global,
    edges: &[Items<usize>],
    grounded: &Items<bool>,
    d: usize,
) -> Result<bool, OutOfMemory>
    requires grounded { AreGrounded edges.now grounded.now }
    requires other { spec.held grounded.now d ≡ false }
    ensures { IfOk result (λ b. b ≡ reaches edges.now (length edges.now) d d) }
{
    let mut walk = Walk {
        marks: grounded.copy(alloc)?,
        queue: Items::new(alloc),
    };
    visit(&mut walk, named_by(edges, d))?;
    'each: for at in 0..edges.len() {
        step(&mut walk, edges, at)?;
    }
    Ok(held(walk.marks.as_slice(), d))
}
