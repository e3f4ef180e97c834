//! The turns of an analysis, from the start until no execution goes on.

ghost use Rattle.std.specs.Prelude.{◌≡◌, ◌*◌, ◌^◌, ◌<◌, ◌≤◌, [], IfOk, OnOk, OnErr};
ghost use Rattle.code_form.specs.Variant.{mutants_of};
ghost use Rattle.traces.specs.Counts.{SameCounts, AreAtMost};
ghost use Rattle.traces.specs.Together.{below};
ghost use Rattle.exec_core.specs.Analysed.{IsGoing, IsStopped};
ghost use Rattle.exec_core.specs.Engines.{IsIdle, KeepsExecutions, HasRoomFor};
ghost use Rattle.exec_core.specs.Held.{IsReleased};
ghost use Rattle.exec_core.specs.Plans.{KnowsTable};
ghost use Rattle.code_form.specs.Trial.{trial_of};

use crate::engine::{Engine, make_room};
use crate::execution::{Execution, settle};
use crate::meter::Meter;
use crate::pick::{arrange, rearrange, take_turn};
use am_base::{MAX_BUDGET, MAX_MUTANTS, OutOfMemory};
use code_form::Variants;
use exec_machine::Machine;
use member_sets::Members;
use picker::Picker;
use std::alloc::Global;

/// The set of all mutants, and room for the first execution.
fn first_members<S, C>(
    alloc: Global,
    table: &Variants,
    engine: &mut Engine<S, C>,
) -> Result<Members, OutOfMemory>
    ensures members { IfOk result (λ members. members ≡ below (mutants_of table.now)) }
    ensures some { 0 < mutants_of table.now }
    ensures few { mutants_of table.now ≤ MAX_MUTANTS }
    ensures room { OnOk result (HasRoomFor 1 engine.new) }
    ensures kept { KeepsExecutions engine.old engine.new }
    ensures splits { engine.new.splits.items ≡ engine.old.splits.items }
    ensures tries { engine.new.tries ≡ engine.old.tries }
    ensures alone { engine.new.alone ≡ engine.old.alone }
{
    let mutants = table.mutants();
    make_room(engine, 1)?;
    Members::all(alloc, mutants)
}

/// Puts all mutants at the start, as one execution. After a refusal the start is released.
fn open<M: Machine>(
    alloc: Global,
    machine: &mut M,
    table: &Variants,
    start: M::State,
    budget: u64,
    engine: &mut Engine<M::State, M::Change>,
    meter: &Meter,
) -> Result<(), OutOfMemory>
    requires out { M.view.is_out machine.old start }
    requires lives { engine.old.lives.items ≡ [] }
    requires ended { engine.old.ended.items ≡ [] }
    requires splits { engine.old.splits.items ≡ [] }
    requires tries { engine.old.tries ≡ 0 }
    requires alone { engine.old.alone ≡ 0 }
    requires idle { IsIdle engine.old }
    ensures some { 0 < mutants_of table.now }
    ensures few { mutants_of table.now ≤ MAX_MUTANTS }
    ensures going { OnOk result (IsGoing M.view (trial_of (M.view.meanings machine.old) table.now (M.view.stands machine.old start) budget)
        machine.old machine.new (M.view.number start) engine.new meter.now meter.now) }
    ensures idle { IsIdle engine.new }
    ensures err { OnErr result (IsReleased M.view machine.old machine.new (M.view.number start)) }
    ensures err_lives { OnErr result (engine.new.lives.items ≡ []) }
    ensures err_ended { OnErr result (engine.new.ended.items ≡ []) }
    ensures counts { SameCounts (M.view.counts machine.old) (M.view.counts machine.new) }
{
    match first_members(alloc, table, engine) {
        Ok(members) => {
            settle(
                machine,
                budget,
                Execution {
                    step: 0,
                    members,
                    state: start,
                },
                &mut engine.lives,
                &mut engine.ended,
            );
            Ok(())
        }
        Err(error) => {
            machine.release(start);
            Err(error)
        }
    }
}

/// Runs all mutants from the start on until no execution goes on. The picker chooses the
/// execution that takes each turn.
pub fn run_all<M: Machine>(
    alloc: Global,
    machine: &mut M,
    table: &Variants,
    start: M::State,
    budget: u64,
    picker: &mut Box<dyn Picker>,
    engine: &mut Engine<M::State, M::Change>,
    meter: &mut Meter,
) -> Result<(), OutOfMemory>
    requires out { M.view.is_out machine.old start }
    requires lives { engine.old.lives.items ≡ [] }
    requires ended { engine.old.ended.items ≡ [] }
    requires splits { engine.old.splits.items ≡ [] }
    requires tries { engine.old.tries ≡ 0 }
    requires alone { engine.old.alone ≡ 0 }
    requires idle { IsIdle engine.old }
    requires budget { budget ≤ MAX_BUDGET }
    requires known { KnowsTable (M.view.meanings machine.old) table.now }
    requires room { AreAtMost (3 * 2 ^ 61) (M.view.counts machine.old) }
    requires room_to_count { meter.old ≤ 3 * 2 ^ 61 }
    ensures some { 0 < mutants_of table.now }
    ensures going { OnOk result (IsGoing M.view (trial_of (M.view.meanings machine.old) table.now (M.view.stands machine.old start) budget)
        machine.old machine.new (M.view.number start) engine.new meter.old meter.new) }
    ensures over { OnOk result (engine.new.lives.items ≡ []) }
    ensures stopped { OnErr result (IsStopped M.view (trial_of (M.view.meanings machine.old) table.now (M.view.stands machine.old start) budget)
        machine.old machine.new (M.view.number start) engine.new meter.old meter.new) }
    ensures idle { IsIdle engine.new }
{
    open(alloc, machine, table, start, budget, engine, meter)?;
    let mut offers = Vec::new(alloc);
    arrange(engine, &mut offers)?;
    'turns: while !engine.lives.is_empty() {
        let (at, taken) = take_turn(
            alloc, machine, table, budget, picker, &offers, engine, meter,
        )?;
        rearrange(engine, &mut offers, at, taken)?;
    }
    Ok(())
}
