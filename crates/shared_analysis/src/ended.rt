//! What an analysis of a case gives.
ghost use Rattle.std.specs.Prelude.{◌≡◌, map, IfOk};
ghost use Rattle.std.specs.List.{All};
ghost use Rattle.machine_form.specs.Machine.{outcome_at};

use am_base::{OutOfMemory, Outcome};
use am_lists::Items;
use exec_core::{Class, Machine, Split, Work};
use machine_parts::Ports;
use shared_machine::{SharedOver, SharedState};
use std::alloc::Global;

/// Mutants whose whole traces are equal, what each shows by itself, and the length of the traces.
#[derive(Debug, Drop)]
pub struct Ended {
    pub outcome: Outcome,
    pub members: Items<u32>,
    pub length: u64,
}

/// What an analysis of a case gives: the classes in order of least member, the splits in order of
/// step, then of first part, the work, and the most pages that were used at once.
#[derive(Debug, Drop)]
pub struct Together {
    pub classes: Items<Ended>,
    pub splits: Items<Split>,
    pub work: Work,
    pub peak: u64,
}

/// What an analysis of a test gives, and for each mutant, from mutant 0 on, the index of its class.
#[derive(Debug, Drop)]
pub struct TestResult {
    pub classes: Items<Ended>,
    pub class_of: Items<u32>,
    pub splits: Items<Split>,
    pub work: Work,
    pub peak: u64,
}

/// What the mutants of a class show, and their numbers.
fn ended_class<'a, P: Ports>(
    alloc: Global,
    machine: &SharedOver<'a, P>,
    class: &Class<SharedState>,
) -> Result<Ended, OutOfMemory>
    requires { ⟦<SharedOver<'a, P> as Machine>⟧.view.is_out machine.now class.now.state }
    ensures { IfOk result (λ e. e ≡ record {
      outcome = outcome_at (⟦<SharedOver<'a, P> as Machine>⟧.view.stands machine.now class.now.state);
      members = class.now.members;
      length = class.now.length;
    }) }
{
    Ok(Ended {
        outcome: machine.outcome(alloc, &class.state)?,
        members: class.members.list(alloc)?,
        length: class.length,
    })
}

/// What the mutants of each class show, and their numbers.
pub fn ended_classes<'a, P: Ports>(
    alloc: Global,
    machine: &SharedOver<'a, P>,
    classes: &[Class<SharedState>],
) -> Result<Items<Ended>, OutOfMemory>
    requires { All (λ c. ⟦<SharedOver<'a, P> as Machine>⟧.view.is_out machine.now c.state) classes.now }
    ensures { IfOk result (λ ended. ended ≡ map (λ c. record {
      outcome = outcome_at (⟦<SharedOver<'a, P> as Machine>⟧.view.stands machine.now c.state);
      members = c.members;
      length = c.length;
    }) classes.now) }
{
    let mut ended = Items::new(alloc);
    for class in classes {
        ended.push(ended_class(alloc, machine, class)?)?;
    }
    Ok(ended)
}
