//! The turn of an execution whose members make one change: it makes it in its place.

ghost use Rattle.std.specs.Prelude.{◌≡◌, ◌*◌, ◌^◌, ◌<◌, ◌≤◌, ◌∷◌, [], IfOk, OnOk, OnErr, Some, slice_get, vec_len, vec_capacity};
ghost use Rattle.std.specs.List.{swap_remove};
ghost use Rattle.exec_core.specs.Engines.{IsIdle};
ghost use Rattle.exec_core.specs.Executions.{IsExecutionBack, IsPutBack};
ghost use Rattle.exec_core.specs.declared.execution.Execution.{Execution};
ghost use Rattle.exec_core.specs.Picked.{IsReplaced};
ghost use Rattle.exec_core.specs.Turned.{CanAdvance, Advanced, Counted, NotCounted, HasStepped, IsSettledThere};

use crate::engine::Engine;
use crate::execution::{Execution, can_go_on, put};
use crate::meter::Meter;
use am_base::{MAX_MUTANTS, OutOfMemory};
use exec_machine::Machine;
use std::alloc::Global;

/// What the turn of an execution came to: it goes on in its place, has ended, or was divided.
#[derive(Clone, Copy, Debug)]
pub enum Taken {
    GoesOn,
    Ended,
    Parted,
}

/// Readies the state of an execution for a change, and applies it. The meter counts it. After a
/// refusal the execution is as it was.
fn make_change<M: Machine>(
    alloc: Global,
    machine: &mut M,
    e: &mut Execution<M::State>,
    change: M::Change,
    meter: &mut Meter,
) -> Result<(), OutOfMemory>
    requires ready { CanAdvance M.view machine.old e.old ((e.old.members, change) ∷ []) }
    requires room_to_ready { (M.view.counts machine.old).readied ≤ 7 * 2 ^ 60 }
    requires room_to_apply { (M.view.counts machine.old).applied ≤ 7 * 2 ^ 60 }
    requires room_to_weigh { (M.view.counts machine.old).weighed ≤ 7 * 2 ^ 60 }
    requires room_to_count { meter.old ≤ 7 * 2 ^ 60 }
    ensures stepped { OnOk result (HasStepped M.view machine.old machine.new e.old change e.new meter.old meter.new) }
    ensures err { OnErr result (IsExecutionBack M.view machine.old machine.new e.old e.new) }
    ensures err_counted { OnErr result (NotCounted M.view machine.old machine.new ((e.old.members, change) ∷ []) meter.old meter.new) }
{
    machine.ready(alloc, &mut e.state, &change)?;
    machine.apply(&mut e.state, change);
    meter.raise();
    e.step += 1;
    Ok(())
}

/// Leaves an execution in its place where it goes on, and puts it among those that have ended where
/// it doesn't. Then the last one takes its place.
fn settle_there<M: Machine>(
    machine: &M,
    budget: u64,
    at: usize,
    lives: &mut Vec<Execution<M::State>>,
    ended: &mut Vec<Execution<M::State>>,
) -> Taken
    requires at { at < vec_len lives.old }
    requires out { (e : Execution M.State) → slice_get lives.old.items at ≡ Some e → M.view.is_out machine.now e.state }
    requires room { vec_len ended.old < vec_capacity ended.old }
    ensures { (e : Execution M.State) → slice_get lives.old.items at ≡ Some e
        → IsSettledThere M.view machine.now budget at e result lives.old.items lives.new.items ended.old.items ended.new.items }
{
    if can_go_on(machine, budget, &lives[at]) {
        return Taken::GoesOn;
    }
    let e = lives.swap_remove(at);
    put(ended, e);
    Taken::Ended
}

/// Gives the execution at an index its turn where its members make one change, the first of the
/// engine's changes. It makes it in its place, and no list is made. After a refusal it is as it was.
pub fn go_on<M: Machine>(
    alloc: Global,
    machine: &mut M,
    budget: u64,
    at: usize,
    engine: &mut Engine<M::State, M::Change>,
    meter: &mut Meter,
) -> Result<Taken, OutOfMemory>
    requires at { at < vec_len engine.old.lives }
    requires some { 0 < vec_len engine.old.changes }
    requires ready { (e : Execution M.State) (c : M.Change) → slice_get engine.old.lives.items at ≡ Some e → slice_get engine.old.changes.items 0 ≡ Some c
        → CanAdvance M.view machine.old e ((e.members, c) ∷ []) }
    requires idle { IsIdle engine.old }
    requires room_to_ready { (M.view.counts machine.old).readied ≤ 7 * 2 ^ 60 }
    requires room_to_apply { (M.view.counts machine.old).applied ≤ 7 * 2 ^ 60 }
    requires room_to_weigh { (M.view.counts machine.old).weighed ≤ 7 * 2 ^ 60 }
    requires room_to_count { meter.old ≤ 7 * 2 ^ 60 }
    requires few { vec_len engine.old.variants ≤ MAX_MUTANTS }
    requires tries { engine.old.tries ≤ 7 * 2 ^ 60 }
    requires alone { engine.old.alone ≤ 7 * 2 ^ 60 }
    ensures advanced { OnOk result ((e : Execution M.State) (c : M.Change) → slice_get engine.old.lives.items at ≡ Some e
        → slice_get engine.old.changes.items 0 ≡ Some c → Advanced M.view machine.old machine.new budget e ((e.members, c) ∷ [])
        (swap_remove engine.old.lives.items at e) engine.new.lives.items engine.old.ended.items engine.new.ended.items) }
    ensures counted { OnOk result ((e : Execution M.State) (c : M.Change) → slice_get engine.old.lives.items at ≡ Some e
        → slice_get engine.old.changes.items 0 ≡ Some c
        → Counted M.view machine.old machine.new e ((e.members, c) ∷ []) engine.old engine.new meter.old meter.new) }
    ensures replaced { IfOk result (λ taken. IsReplaced taken at engine.old.lives.items engine.new.lives.items) }
    ensures err { OnErr result ((e : Execution M.State) → slice_get engine.old.lives.items at ≡ Some e
        → IsPutBack M.view machine.old machine.new e (swap_remove engine.old.lives.items at e) engine.new.lives.items) }
    ensures err_ended { OnErr result (engine.new.ended.items ≡ engine.old.ended.items) }
    ensures err_counted { OnErr result ((e : Execution M.State) (c : M.Change) → slice_get engine.old.lives.items at ≡ Some e
        → slice_get engine.old.changes.items 0 ≡ Some c
        → NotCounted M.view machine.old machine.new ((e.members, c) ∷ []) meter.old meter.new) }
    ensures idle { IsIdle engine.new }
{
    engine.ended.reserve(1)?;
    let change = engine.changes.swap_remove(0);
    make_change(alloc, machine, &mut engine.lives[at], change, meter)?;
    engine.tries += engine.variants.len() as u64;
    engine.alone += u64::from(engine.lives[at].members.len());
    Ok(settle_there(machine, budget, at, &mut engine.lives, &mut engine.ended))
}
