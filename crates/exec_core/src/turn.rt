//! One turn of an execution.

ghost use Rattle.std.specs.Prelude.{◌≡◌, ℕ, ◌*◌, ◌^◌, ◌<◌, ◌≤◌, ◌++◌, [], List, IfOk, OnOk, OnErr, Some, slice_get, vec_len};
ghost use Rattle.std.specs.List.{swap_remove};
ghost use Rattle.traces.specs.View.{Keeps};
ghost use Rattle.traces.specs.Counts.{AreAtMost};
ghost use Rattle.exec_core.specs.Engines.{IsIdle};
ghost use Rattle.exec_core.specs.Executions.{state_numbers, IsPutBack};
ghost use Rattle.exec_core.specs.Picked.{IsReplaced};
ghost use Rattle.exec_core.specs.Plans.{plans_of, KnowsTable};
ghost use Rattle.code_form.specs.Trial.{trial_of};
ghost use Rattle.exec_core.specs.Turned.{IsHeld, AreHeld, CanAdvance, Advanced, Counted, NotCounted, Turned, Refused};
ghost use Rattle.exec_core.specs.declared.execution.Execution.{Execution};

use crate::divide::divide;
use crate::engine::{Engine, make_room};
use crate::execution::{put, settle_all};
use crate::in_place::{Taken, go_on};
use crate::meter::Meter;
use crate::plan::{Plan, make_plans, note_split};
use am_base::{MAX_BUDGET, MAX_MUTANTS, OutOfMemory};
use code_form::Variants;
use exec_machine::Machine;
use std::alloc::Global;

/// Divides the execution at an index by its plans, and puts what it becomes among the executions. All
/// memory is taken before the first change is applied. After a refusal it stands there as it was.
fn part<M: Machine>(
    alloc: Global,
    machine: &mut M,
    budget: u64,
    at: usize,
    plans: &mut Vec<Plan<M::Change>>,
    engine: &mut Engine<M::State, M::Change>,
    meter: &mut Meter,
) -> Result<(), OutOfMemory>
    requires at { at < vec_len engine.old.lives }
    requires some { 0 < vec_len plans.old }
    requires ready { (e : Execution M.State) → slice_get engine.old.lives.items at ≡ Some e
        → CanAdvance M.view machine.old e (plans_of plans.old.items) }
    requires idle { IsIdle engine.old }
    requires room_to_ready { (M.view.counts machine.old).readied ≤ 7 * 2 ^ 60 }
    requires room_to_apply { (M.view.counts machine.old).applied ≤ 7 * 2 ^ 60 }
    requires room_to_weigh { (M.view.counts machine.old).weighed ≤ 7 * 2 ^ 60 }
    requires room_to_count { meter.old ≤ 7 * 2 ^ 60 }
    requires few { vec_len engine.old.variants ≤ MAX_MUTANTS }
    requires tries { engine.old.tries ≤ 7 * 2 ^ 60 }
    requires alone { engine.old.alone ≤ 7 * 2 ^ 60 }
    ensures advanced { OnOk result ((e : Execution M.State) → slice_get engine.old.lives.items at ≡ Some e
        → Advanced M.view machine.old machine.new budget e (plans_of plans.old.items)
        (swap_remove engine.old.lives.items at e) engine.new.lives.items engine.old.ended.items engine.new.ended.items) }
    ensures counted { OnOk result ((e : Execution M.State) → slice_get engine.old.lives.items at ≡ Some e
        → Counted M.view machine.old machine.new e (plans_of plans.old.items) engine.old engine.new meter.old meter.new) }
    ensures err { OnErr result ((e : Execution M.State) → slice_get engine.old.lives.items at ≡ Some e
        → IsPutBack M.view machine.old machine.new e (swap_remove engine.old.lives.items at e) engine.new.lives.items) }
    ensures err_ended { OnErr result (engine.new.ended.items ≡ engine.old.ended.items) }
    ensures err_counted { OnErr result (NotCounted M.view machine.old machine.new (plans_of plans.old.items) meter.old meter.new) }
    ensures idle { IsIdle engine.new }
{
    let tried = engine.variants.len() as u64;
    note_split(alloc, engine.lives[at].step, plans, &mut engine.splits)?;
    make_room(engine, plans.len())?;
    engine.tries += tried;
    engine.alone += u64::from(engine.lives[at].members.len());
    let e = engine.lives.swap_remove(at);
    match divide(
        alloc,
        machine,
        e,
        plans,
        &mut engine.children,
        &mut engine.readied,
        &mut engine.made,
        meter,
    ) {
        Ok(()) => {
            settle_all(
                machine,
                budget,
                &mut engine.made,
                &mut engine.lives,
                &mut engine.ended,
            );
            Ok(())
        }
        Err(back) => {
            put(&mut engine.lives, back);
            Err(OutOfMemory)
        }
    }
}

/// Gives the execution at an index among those that go on its turn: it makes its next changes, and
/// is divided where they differ. All memory is taken before the first change is applied, so after a
/// refusal the executions are as they were, though in another order. Where they don't differ it stays
/// in its place, and no other execution is looked at.
pub fn turn<M: Machine>(
    alloc: Global,
    machine: &mut M,
    table: &Variants,
    budget: u64,
    at: usize,
    engine: &mut Engine<M::State, M::Change>,
    meter: &mut Meter,
) -> Result<Taken, OutOfMemory>
    requires held { AreHeld M.view machine.old budget engine.old.lives.items engine.old.ended.items }
    requires at { at < vec_len engine.old.lives }
    requires idle { IsIdle engine.old }
    requires budget { budget ≤ MAX_BUDGET }
    requires known { KnowsTable (M.view.meanings machine.old) table.now }
    requires room { AreAtMost (7 * 2 ^ 60) (M.view.counts machine.old) }
    requires room_to_count { meter.old ≤ 7 * 2 ^ 60 }
    requires tries { engine.old.tries ≤ 7 * 2 ^ 60 }
    requires alone { engine.old.alone ≤ 7 * 2 ^ 60 }
    ensures turned { OnOk result ((start : M.Meaning) → Turned M.view (trial_of (M.view.meanings machine.old) table.now start budget)
        machine.old machine.new at engine.old engine.new meter.old meter.new) }
    ensures replaced { IfOk result (λ taken. IsReplaced taken at engine.old.lives.items engine.new.lives.items) }
    ensures refused { OnErr result ((start : M.Meaning) → Refused M.view (trial_of (M.view.meanings machine.old) table.now start budget)
        machine.old machine.new at engine.old engine.new meter.old meter.new) }
    ensures held { (others : List ℕ) → IsHeld M.view machine.old budget others engine.old.lives.items engine.old.ended.items
        → IsHeld M.view machine.new budget others engine.new.lives.items engine.new.ended.items }
    ensures idle { IsIdle engine.new }
    ensures keeps { Keeps M.view machine.old machine.new (state_numbers M.view (engine.old.lives.items ++ engine.old.ended.items)) }
{
    let mut plans = make_plans(
        alloc,
        machine,
        table,
        &engine.lives[at],
        &mut engine.classes,
        &mut engine.variants,
        &mut engine.changes,
    )?;
    if plans.is_empty() {
        return go_on(alloc, machine, budget, at, engine, meter);
    }
    part(alloc, machine, budget, at, &mut plans, engine, meter)?;
    Ok(Taken::Parted)
}
