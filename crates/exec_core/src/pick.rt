//! The order of turns: a picker chooses the live execution that takes the next one.

ghost use Rattle.std.specs.Prelude.{◌≡◌, ℕ, ◌+◌, ◌*◌, ◌^◌, ◌<◌, ◌≤◌, ◌++◌, ◌∷◌, [], List, length, map, IfOk, OnOk, OnErr, slice_index, vec_len};
ghost use Rattle.std.specs.List.{remove, swap_remove};
ghost use Rattle.std.specs.List.Sorted.{IsPermutation, IsNonDecreasingBy};
ghost use Rattle.traces.specs.Counts.{AreAtMost};
ghost use Rattle.traces.specs.View.{Keeps};
ghost use Rattle.exec_core.specs.Engines.{IsIdle};
ghost use Rattle.exec_core.specs.Executions.{state_numbers};
ghost use Rattle.exec_core.specs.Picked.{offer_of, IsArranged, IsReplaced, Took, AreOffered, HasRefused};
ghost use Rattle.exec_core.specs.Plans.{KnowsTable};
ghost use Rattle.code_form.specs.Trial.{trial_of};
ghost use Rattle.exec_core.specs.Turned.{IsHeld, AreHeld};
ghost use Rattle.exec_core.specs.declared.execution.Execution.{Execution};
ghost use Rattle.exec_core.specs.declared.in_place.Taken.TheVariants.{GoesOn};

use crate::engine::Engine;
use crate::execution::{Execution, put};
use crate::in_place::Taken;
use crate::meter::Meter;
use crate::turn::turn;
use am_base::{MAX_BUDGET, OutOfMemory};
use code_form::Variants;
use exec_machine::Machine;
use picker::{Offer, Picker};
use std::alloc::Global;

/// Returns what a picker sees of an execution.
fn offer<S>(l: &Execution<S>) -> Offer
    ensures { result ≡ offer_of l.now }
{
    Offer {
        step: l.step,
        least: l.members.least(),
        members: l.members.len(),
    }
}

/// Writes down what a picker sees of these executions, in their order.
fn offer_all<S>(lives: &[Execution<S>], offers: &mut Vec<Offer>) -> Result<(), OutOfMemory>
    ensures { OnOk result (offers.new.items ≡ map offer_of lives.now) }
{
    offers.clear();
    for l in lives {
        offers.push(offer(l))?;
    }
    Ok(())
}

/// Puts executions in order of least member.
fn sort_executions<S>(lives: &mut Vec<Execution<S>>)
    ensures moved { IsPermutation lives.old.items lives.new.items }
    ensures rising { IsNonDecreasingBy (λ l. slice_index l.members 0) lives.new.items }
{
    lives.sort_unstable_by_key(|l| l.members.least());
}

/// Puts the live executions in order of least member, and writes down what a picker sees of them.
pub fn arrange<S, C>(engine: &mut Engine<S, C>, offers: &mut Vec<Offer>) -> Result<(), OutOfMemory>
    ensures arranged { IsArranged engine.old engine.new }
    ensures offered { OnOk result (AreOffered engine.new.lives.items offers.new.items) }
{
    sort_executions(&mut engine.lives);
    offer_all(&engine.lives, offers)
}

/// Moves the execution at an index, which was the last one before another one left that place,
/// back behind the others.
fn move_behind<S>(lives: &mut Vec<Execution<S>>, at: usize)
    ensures moved { IsPermutation lives.old.items lives.new.items }
    ensures order { (before : List (Execution S)) (taken : Execution S) → at < length before
        → lives.old.items ≡ swap_remove before at taken → lives.new.items ≡ remove before at }
{
    if at >= lives.len() {
        return;
    }
    let last = lives.remove(at);
    put(lives, last);
}

/// Puts the live executions back in order of least member after a turn of the one at an index that
/// came to this, and changes what a picker sees of them where the turn changed it: `offers` is what
/// it saw before. Where the execution goes on or has ended, no other is looked at.
pub fn rearrange<S, C>(
    engine: &mut Engine<S, C>,
    offers: &mut Vec<Offer>,
    at: usize,
    taken: Taken,
) -> Result<(), OutOfMemory>
    requires at { at < vec_len offers.old }
    requires there { taken ≡ GoesOn → at < vec_len engine.old.lives }
    ensures arranged { IsArranged engine.old engine.new }
    ensures offered { OnOk result ((before : List (Execution S)) → AreOffered before offers.old.items
        → IsReplaced taken at before engine.old.lives.items → AreOffered engine.new.lives.items offers.new.items) }
{
    match taken {
        Taken::GoesOn => offers[at] = offer(&engine.lives[at]),
        Taken::Ended => {
            move_behind(&mut engine.lives, at);
            let _gone = offers.remove(at);
        }
        Taken::Parted => arrange(engine, offers)?,
    }
    Ok(())
}

/// Asks the picker.
fn ask(picker: &mut Box<dyn Picker>, offers: &[Offer]) -> usize
    requires { 0 < length offers.now }
    ensures within { result < length offers.now }
    ensures picked { picks picker.old offers.now result }
{
    picker.pick(offers)
}

/// Asks the picker once, with what it sees of all live executions in order of least member, and
/// gives the execution that it chose its turn. Returns the index that it chose, and what the turn
/// came to.
pub fn take_turn<M: Machine>(
    alloc: Global,
    machine: &mut M,
    table: &Variants,
    budget: u64,
    picker: &mut Box<dyn Picker>,
    offers: &[Offer],
    engine: &mut Engine<M::State, M::Change>,
    meter: &mut Meter,
) -> Result<(usize, Taken), OutOfMemory>
    requires held { AreHeld M.view machine.old budget engine.old.lives.items engine.old.ended.items }
    requires some { 0 < vec_len engine.old.lives }
    requires offered { AreOffered engine.old.lives.items offers.now }
    requires idle { IsIdle engine.old }
    requires budget { budget ≤ MAX_BUDGET }
    requires known { KnowsTable (M.view.meanings machine.old) table.now }
    requires room { AreAtMost (7 * 2 ^ 60) (M.view.counts machine.old) }
    requires room_to_count { meter.old ≤ 7 * 2 ^ 60 }
    requires tries { engine.old.tries ≤ 7 * 2 ^ 60 }
    requires alone { engine.old.alone ≤ 7 * 2 ^ 60 }
    ensures took { OnOk result ((start : M.Meaning) → Took M.view (trial_of (M.view.meanings machine.old) table.now start budget)
        (picks picker.old) machine.old machine.new engine.old engine.new meter.old meter.new) }
    ensures at { IfOk result (λ took. took.0 < length offers.now) }
    ensures replaced { IfOk result (λ took. IsReplaced took.1 took.0 engine.old.lives.items engine.new.lives.items) }
    ensures refused { OnErr result ((start : M.Meaning) → HasRefused M.view (trial_of (M.view.meanings machine.old) table.now start budget)
        machine.old machine.new engine.old engine.new meter.old meter.new) }
    ensures held { (others : List ℕ) → IsHeld M.view machine.old budget others engine.old.lives.items engine.old.ended.items
        → IsHeld M.view machine.new budget others engine.new.lives.items engine.new.ended.items }
    ensures idle { IsIdle engine.new }
    ensures keeps { Keeps M.view machine.old machine.new (state_numbers M.view (engine.old.lives.items ++ engine.old.ended.items)) }
{
    let at = ask(picker, offers);
    match turn(alloc, machine, table, budget, at, engine, meter) {
        Ok(taken) => Ok((at, taken)),
        Err(error) => Err(error),
    }
}
