//! An order of the definitions: those that a definition names come before it where it can be.
ghost use Rattle.std.specs.Prelude.{ℕ, ◌<◌, length, IfOk};
ghost use Rattle.ir_types.specs.Named.{Stands};

use crate::flags::filled;
use am_base::OutOfMemory;
use am_lists::Items;
use std::alloc::Global;

/// A walk along the definitions, first into depth.
#[derive(Drop)]
struct Search {
    /// Whether the walk has come to a definition.
    seen: Items<bool>,
    /// The definitions that the walk is in, each with how many that it names were walked along.
    path: Items<(usize, usize)>,
    /// The definitions that the walk has left.
    order: Items<usize>,
}

impl Search {
    /// Comes to a definition.
    fn enter(&mut self, d: usize) -> Result<(), OutOfMemory> {
        if self.seen.get(d) == Some(&false) {
            self.seen.set(d, true);
            self.path.push((d, 0))?;
        }
        Ok(())
    }

    /// Goes on by one; `false` if there is nothing to go on from.
    fn step(&mut self, edges: &[Items<usize>]) -> Result<bool, OutOfMemory> {
        let Some((d, at)) = self.path.pop() else {
            return Ok(false);
        };
        match edges.get(d).and_then(|list| list.get(at)) {
            Some(named) => {
                self.path.push((d, at.saturating_add(1)))?;
                self.enter(*named)?;
            }
            None => self.order.push(d)?,
        }
        Ok(true)
    }

    /// Walks along a definition and what it leads to, in at most so many steps.
    fn along(&mut self, edges: &[Items<usize>], d: usize, steps: usize) -> Result<(), OutOfMemory> {
        self.enter(d)?;
        'each: for _step in 0..steps {
            if !self.step(edges)? {
                return Ok(());
            }
        }
        Ok(())
    }
}

/// How many steps a walk has at most: two for each definition, and one for each that it names.
fn steps_of(edges: &[Items<usize>]) -> usize {
    let mut steps = edges.len().saturating_add(edges.len());
    'each: for list in edges {
        steps = steps.saturating_add(list.len());
    }
    steps
}

/// Returns the definitions in an order in which each comes behind those that it names, unless they
/// lead back to it, which no clause says, and then once more in text order. O(n) in the definitions
/// and what they name.
pub fn order_of(alloc: Global, edges: &[Items<usize>]) -> Result<Items<usize>, OutOfMemory>
    ensures { IfOk result (λ order. (d : ℕ) → d < length edges.now → Stands order d) }
{
    let steps = steps_of(edges);
    let mut search = Search {
        seen: filled(alloc, edges.len(), false)?,
        path: Items::new(alloc),
        order: Items::new(alloc),
    };
    'each: for d in 0..edges.len() {
        search.along(edges, d, steps)?;
    }
    with_all(search.order, edges.len())
}

/// Appends so many definitions to an order.
fn with_all(order: Items<usize>, count: usize) -> Result<Items<usize>, OutOfMemory>
    ensures { IfOk result (λ order. (d : ℕ) → d < count → Stands order d) }
{
    let mut order = order;
    'each: for d in 0..count {
        order.push(d)?;
    }
    Ok(order)
}
