//! The call that runs all mutants of a test together.

ghost use Rattle.std.specs.Prelude.{◌≡◌, ◌+◌, ◌*◌, ◌^◌, ◌≤◌, ◌++◌, ◌∷◌, [], map, IfOk, OnOk, OnErr, vec_len, vec_capacity};
ghost use Rattle.std.specs.List.Sorted.{IsPermutation};
ghost use Rattle.traces.specs.View.{Keeps};
ghost use Rattle.traces.specs.Work.{steps, alone, tries, executions, splits};
ghost use Rattle.exec_core.specs.Analysed.{IsGoing, IsStopped, AreClasses, class_numbers};
ghost use Rattle.traces.specs.Counts.{RoseBy, RoseWithin, IsBetween, AreAtMost};
ghost use Rattle.exec_core.specs.Counted.{totals};
ghost use Rattle.exec_core.specs.Engines.{IsIdle, split_seen};
ghost use Rattle.exec_core.specs.Plans.{KnowsTable};
ghost use Rattle.code_form.specs.Trial.{trial_of};

use crate::engine::{Engine, idle};
use crate::finish::{analysis_of, release_engine};
use crate::meter::Meter;
use crate::result::{Analysis, Class};
use crate::run::run_all;
use am_base::{MAX_BUDGET, OutOfMemory};
use code_form::Variants;
use exec_machine::Machine;
use picker::Picker;
use std::alloc::Global;

/// Runs all mutants to their ends, and makes room for their classes.
fn run_to_end<M: Machine>(
    alloc: Global,
    machine: &mut M,
    table: &Variants,
    start: M::State,
    budget: u64,
    picker: &mut Box<dyn Picker>,
    engine: &mut Engine<M::State, M::Change>,
    meter: &mut Meter,
) -> Result<Vec<Class<M::State>>, OutOfMemory>
    requires out { M.view.is_out machine.old start }
    requires lives { engine.old.lives.items ≡ [] }
    requires ended { engine.old.ended.items ≡ [] }
    requires splits { engine.old.splits.items ≡ [] }
    requires tries { engine.old.tries ≡ 0 }
    requires alone { engine.old.alone ≡ 0 }
    requires idle { IsIdle engine.old }
    requires budget { budget ≤ MAX_BUDGET }
    requires known { KnowsTable (M.view.meanings machine.old) table.now }
    requires room { AreAtMost (3 * 2 ^ 61) (M.view.counts machine.old) }
    requires room_to_count { meter.old ≤ 3 * 2 ^ 61 }
    ensures going { OnOk result (IsGoing M.view (trial_of (M.view.meanings machine.old) table.now (M.view.stands machine.old start) budget)
        machine.old machine.new (M.view.number start) engine.new meter.old meter.new) }
    ensures over { OnOk result (engine.new.lives.items ≡ []) }
    ensures empty { IfOk result (λ classes. classes.items ≡ []) }
    ensures room { IfOk result (λ classes. vec_len engine.new.ended ≤ vec_capacity classes) }
    ensures stopped { OnErr result (IsStopped M.view (trial_of (M.view.meanings machine.old) table.now (M.view.stands machine.old start) budget)
        machine.old machine.new (M.view.number start) engine.new meter.old meter.new) }
    ensures idle { IsIdle engine.new }
{
    run_all(alloc, machine, table, start, budget, picker, engine, meter)?;
    let classes = Vec::with_capacity(alloc, engine.ended.len())?;
    Ok(classes)
}

/// Runs all mutants of a table together from one start, each for at most `budget` changes, of which
/// there are at most `MAX_BUDGET`. An execution is divided only where the changes that its members
/// make differ ("Faster Mutation Analysis via Equivalence Modulo States", ISSTA 2017).
///
/// The machine knows every variant of the table, and each of its counts and the meter stands at 3 *
/// 2^61 at most. The start is used up.
///
/// The classes are the mutants with equal whole traces, each with the length of the trace and the
/// state after it, which is out. The work and the splits are those of the model in `traces`, and
/// the machine and the meter have counted exactly that work.
///
/// It is refused only for want of memory. Then every state that it had out is released, the start
/// included, and no count has risen by more than it would have. Whatever it answers, the meter has
/// risen by one beside each change that was applied, and the other states that were out are out and
/// stand for what they did.
pub fn analyse<M: Machine>(
    alloc: Global,
    machine: &mut M,
    variants: &Variants,
    start: M::State,
    budget: u64,
    picker: &mut Box<dyn Picker>,
    meter: &mut Meter,
) -> Result<Analysis<M::State>, OutOfMemory>
    requires budget { budget ≤ MAX_BUDGET }
    requires out { M.view.is_out machine.old start }
    requires known { KnowsTable (M.view.meanings machine.old) variants.now }
    requires room { AreAtMost (3 * 2 ^ 61) (M.view.counts machine.old) }
    requires room_to_count { meter.old ≤ 3 * 2 ^ 61 }

    // The classes, the work and the splits.
    ensures classes { IfOk result (λ analysis.
        AreClasses M.view (trial_of (M.view.meanings machine.old) variants.now (M.view.stands machine.old start) budget) machine.new analysis.classes) }
    ensures steps { IfOk result (λ analysis.
        analysis.work.steps ≡ steps (trial_of (M.view.meanings machine.old) variants.now (M.view.stands machine.old start) budget)) }
    ensures alone { IfOk result (λ analysis.
        analysis.work.alone ≡ alone (trial_of (M.view.meanings machine.old) variants.now (M.view.stands machine.old start) budget)) }
    ensures tries { IfOk result (λ analysis.
        analysis.work.tries ≡ tries (trial_of (M.view.meanings machine.old) variants.now (M.view.stands machine.old start) budget)) }
    ensures executions { IfOk result (λ analysis.
        analysis.work.executions ≡ executions (trial_of (M.view.meanings machine.old) variants.now (M.view.stands machine.old start) budget)) }
    ensures splits { IfOk result (λ analysis. map split_seen analysis.splits
        ≡ splits (trial_of (M.view.meanings machine.old) variants.now (M.view.stands machine.old start) budget)) }

    // What the machine and the meter have counted.
    ensures counts { OnOk result (RoseBy (M.view.counts machine.old) (M.view.counts machine.new)
        (totals (trial_of (M.view.meanings machine.old) variants.now (M.view.stands machine.old start) budget))) }
    ensures meter { OnOk result (meter.new
        ≡ meter.old + steps (trial_of (M.view.meanings machine.old) variants.now (M.view.stands machine.old start) budget)) }
    ensures counts_within { RoseWithin (M.view.counts machine.old) (M.view.counts machine.new)
        (totals (trial_of (M.view.meanings machine.old) variants.now (M.view.stands machine.old start) budget)) }
    ensures meter_within { IsBetween meter.old meter.new
        (meter.old + steps (trial_of (M.view.meanings machine.old) variants.now (M.view.stands machine.old start) budget)) }
    ensures meter_beside_applied { meter.new + (M.view.counts machine.old).applied ≡ meter.old + (M.view.counts machine.new).applied }

    // The states out: those from before without the start, and on Ok those of the classes besides.
    ensures out_numbers { IfOk result (λ analysis. IsPermutation (M.view.number start ∷ M.view.out_numbers machine.new)
        (class_numbers M.view analysis.classes ++ M.view.out_numbers machine.old)) }
    ensures err { OnErr result (IsPermutation (M.view.out_numbers machine.old) (M.view.number start ∷ M.view.out_numbers machine.new)) }
    ensures keeps { Keeps M.view machine.old machine.new (M.view.number start ∷ []) }
{
    let before = meter.steps();
    let mut engine = idle(alloc);
    match run_to_end(
        alloc,
        machine,
        variants,
        start,
        budget,
        picker,
        &mut engine,
        meter,
    ) {
        Ok(classes) => Ok(analysis_of(engine, classes, meter.steps() - before)),
        Err(error) => {
            release_engine(machine, engine);
            Err(error)
        }
    }
}
