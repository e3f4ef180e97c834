//! The analysis of a case.
ghost use Rattle.std.specs.Prelude.{◌≡◌, ◌+◌, ◌*◌, ◌^◌, ◌≤◌, [], map, IfOk, OnOk};
ghost use Rattle.code_form.specs.Fit.{FitsCase};
ghost use Rattle.code_form.specs.Trial.{trial_of};
ghost use Rattle.traces.specs.Work.{steps, alone, tries, executions, splits};
ghost use Rattle.traces.specs.Counts.{RoseBy, RoseWithin, IsBetween, AreAtMost};
ghost use Rattle.machine_form.specs.Start.{start_of};
ghost use Rattle.exec_core.specs.Counted.{totals};
ghost use Rattle.exec_core.specs.Engines.{split_seen};
ghost use Rattle.exec_core.specs.Plans.{KnowsTable};
ghost use Rattle.shared_pages.specs.Store.{used_pages};
ghost use Rattle.shared_analysis.specs.Ended.{AreEnded};
ghost use Rattle.shared_analysis.specs.Peak.{IsPeak};

use crate::ended::Together;
use crate::release::give_out;
use am_base::OutOfMemory;
use code_form::{Case, Variants};
use exec_core::{Analysis, Machine, Meter, analyse};
use machine_parts::Ports;
use picker::Picker;
use shared_machine::SharedOver;
use std::alloc::Global;

/// Runs all mutants of a table on a case over a machine with no state out and a store in which no
/// page was ever used, and leaves no state out.
///
/// The classes are the mutants with equal whole traces, each with the outcome that its mutants have
/// by themselves, and with the length of their traces. The work and the splits are those of the
/// model in `traces`, and the machine and the meter have counted exactly that work. The most pages that
/// were used at once are at least the opening ones, and at most these with the load of the work. It is
/// refused only for want of memory. Then no count has risen by more than that.
pub fn analyse_over<'a, P: Ports>(
    alloc: Global,
    machine: &mut SharedOver<'a, P>,
    variants: &Variants,
    case: &Case,
    picker: &mut Box<dyn Picker>,
    meter: &mut Meter,
) -> Result<Together, OutOfMemory>
    requires case { FitsCase machine.old.subject.code case.now }
    requires signs { (P.outside machine.old.ports).signs ≡ machine.old.subject.code.signs }
    requires known { KnowsTable (⟦<SharedOver<'a, P> as Machine>⟧.view.meanings machine.old) variants.now }
    requires none_out { ⟦<SharedOver<'a, P> as Machine>⟧.view.out_numbers machine.old ≡ [] }
    requires room { AreAtMost (3 * 2 ^ 61) (⟦<SharedOver<'a, P> as Machine>⟧.view.counts machine.old) }
    requires room_to_count { meter.old ≤ 3 * 2 ^ 61 }
    requires used { used_pages machine.old.store ≡ 1 }
    requires peak { machine.old.store.peak ≡ 1 }
    ensures classes { let V = ⟦<SharedOver<'a, P> as Machine>⟧.view in
        let T = trial_of (V.meanings machine.old) variants.now (start_of machine.old.subject.code case.now) case.now.budget in
        IfOk result (λ t. AreEnded T t.classes) }
    ensures steps { let V = ⟦<SharedOver<'a, P> as Machine>⟧.view in
        let T = trial_of (V.meanings machine.old) variants.now (start_of machine.old.subject.code case.now) case.now.budget in
        IfOk result (λ t. t.work.steps ≡ steps T) }
    ensures alone { let V = ⟦<SharedOver<'a, P> as Machine>⟧.view in
        let T = trial_of (V.meanings machine.old) variants.now (start_of machine.old.subject.code case.now) case.now.budget in
        IfOk result (λ t. t.work.alone ≡ alone T) }
    ensures tries { let V = ⟦<SharedOver<'a, P> as Machine>⟧.view in
        let T = trial_of (V.meanings machine.old) variants.now (start_of machine.old.subject.code case.now) case.now.budget in
        IfOk result (λ t. t.work.tries ≡ tries T) }
    ensures executions { let V = ⟦<SharedOver<'a, P> as Machine>⟧.view in
        let T = trial_of (V.meanings machine.old) variants.now (start_of machine.old.subject.code case.now) case.now.budget in
        IfOk result (λ t. t.work.executions ≡ executions T) }
    ensures splits { let V = ⟦<SharedOver<'a, P> as Machine>⟧.view in
        let T = trial_of (V.meanings machine.old) variants.now (start_of machine.old.subject.code case.now) case.now.budget in
        IfOk result (λ t. map split_seen t.splits ≡ splits T) }
    ensures counts { let V = ⟦<SharedOver<'a, P> as Machine>⟧.view in
        let T = trial_of (V.meanings machine.old) variants.now (start_of machine.old.subject.code case.now) case.now.budget in
        OnOk result (RoseBy (V.counts machine.old) (V.counts machine.new) (totals T)) }
    ensures counts_within { let V = ⟦<SharedOver<'a, P> as Machine>⟧.view in
        let T = trial_of (V.meanings machine.old) variants.now (start_of machine.old.subject.code case.now) case.now.budget in
        RoseWithin (V.counts machine.old) (V.counts machine.new) (totals T) }
    ensures meter { let V = ⟦<SharedOver<'a, P> as Machine>⟧.view in
        let T = trial_of (V.meanings machine.old) variants.now (start_of machine.old.subject.code case.now) case.now.budget in
        OnOk result (meter.new ≡ meter.old + steps T) }
    ensures meter_within { let V = ⟦<SharedOver<'a, P> as Machine>⟧.view in
        let T = trial_of (V.meanings machine.old) variants.now (start_of machine.old.subject.code case.now) case.now.budget in
        IsBetween meter.old meter.new (meter.old + steps T) }
    ensures none_out { ⟦<SharedOver<'a, P> as Machine>⟧.view.out_numbers machine.new ≡ [] }
    ensures signs { (P.outside machine.new.ports).signs ≡ (P.outside machine.old.ports).signs }
    ensures answers { (P.outside machine.new.ports).answers ≡ (P.outside machine.old.ports).answers }
    ensures peak { let V = ⟦<SharedOver<'a, P> as Machine>⟧.view in
        let T = trial_of (V.meanings machine.old) variants.now (start_of machine.old.subject.code case.now) case.now.budget in
        IfOk result (λ t. IsPeak machine.old.subject.code T t.peak) }
{
    let start = machine.start(alloc, case)?;
    let analysis = analyse(alloc, machine, variants, start, case.budget, picker, meter)?;
    let Analysis {
        classes,
        splits,
        work,
    } = analysis;
    let ended = give_out(alloc, machine, classes)?;
    Ok(Together {
        classes: ended,
        splits,
        work,
        peak: machine.store.peak(),
    })
}
