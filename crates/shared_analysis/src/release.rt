//! The states of the classes taken back.
ghost use Rattle.std.specs.Prelude.{◌≡◌, ◌++◌, map, nat_eq, IfOk};
ghost use Rattle.std.specs.List.{All, IsDistinct};
ghost use Rattle.std.specs.List.Sorted.{IsPermutation};
ghost use Rattle.traces.specs.Counts.{SameCounts};
ghost use Rattle.traces.specs.View.{Keeps};
ghost use Rattle.exec_core.specs.Analysed.{class_numbers};
ghost use Rattle.machine_form.specs.Machine.{outcome_at};

use crate::ended::{Ended, ended_classes};
use am_base::OutOfMemory;
use am_lists::Items;
use exec_core::{Class, Machine};
use machine_parts::Ports;
use shared_machine::{SharedOver, SharedState};
use std::alloc::Global;

/// Returns the state of a class.
fn into_state<S>(class: Class<S>) -> S
    ensures { result ≡ class.state }
{
    let Class {
        state,
        members: _,
        length: _,
    } = class;
    state
}

/// Releases the states of the classes.
pub fn release_all<M: Machine>(machine: &mut M, classes: Items<Class<M::State>>)
    requires out { All (λ c. M.view.is_out machine.old c.state) classes }
    requires distinct { IsDistinct nat_eq (class_numbers M.view classes) }
    ensures out_numbers { IsPermutation (M.view.out_numbers machine.old)
        (class_numbers M.view classes ++ M.view.out_numbers machine.new) }
    ensures counts { SameCounts (M.view.counts machine.old) (M.view.counts machine.new) }
    ensures keeps { Keeps M.view machine.old machine.new (class_numbers M.view classes) }
{
    let mut rest = classes.into_vec();
    while let Some(class) = rest.pop() {
        machine.release(into_state(class));
    }
    rest.destroy_empty();
}

/// What the mutants of each class show, and their numbers. The states of the classes are released,
/// whatever it answers.
pub fn give_out<'a, P: Ports>(
    alloc: Global,
    machine: &mut SharedOver<'a, P>,
    classes: Items<Class<SharedState>>,
) -> Result<Items<Ended>, OutOfMemory>
    requires out { All (λ c. ⟦<SharedOver<'a, P> as Machine>⟧.view.is_out machine.old c.state) classes }
    requires distinct { IsDistinct nat_eq (class_numbers ⟦<SharedOver<'a, P> as Machine>⟧.view classes) }
    ensures ended { IfOk result (λ ended. ended ≡ map (λ c. record {
      outcome = outcome_at (⟦<SharedOver<'a, P> as Machine>⟧.view.stands machine.old c.state);
      members = c.members;
      length = c.length;
    }) classes) }
    ensures out_numbers { IsPermutation (⟦<SharedOver<'a, P> as Machine>⟧.view.out_numbers machine.old)
        (class_numbers ⟦<SharedOver<'a, P> as Machine>⟧.view classes ++ ⟦<SharedOver<'a, P> as Machine>⟧.view.out_numbers machine.new) }
    ensures counts { SameCounts (⟦<SharedOver<'a, P> as Machine>⟧.view.counts machine.old) (⟦<SharedOver<'a, P> as Machine>⟧.view.counts machine.new) }
    ensures keeps { Keeps ⟦<SharedOver<'a, P> as Machine>⟧.view machine.old machine.new
        (class_numbers ⟦<SharedOver<'a, P> as Machine>⟧.view classes) }
{
    match ended_classes(alloc, machine, classes.as_slice()) {
        Ok(ended) => {
            release_all(machine, classes);
            Ok(ended)
        }
        Err(error) => {
            release_all(machine, classes);
            Err(error)
        }
    }
}
