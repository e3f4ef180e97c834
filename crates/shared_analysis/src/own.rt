//! The analysis of a case over a machine of its own.
ghost use Rattle.std.specs.Prelude.{◌≡◌, ℕ, ◌+◌, ◌*◌, ◌^◌, ◌≤◌, [], IfOk, OnOk, None};
ghost use Rattle.am_base.specs.declared.limits.TheConstants.{MAX_MUTANTS, MAX_BUDGET};
ghost use Rattle.code_form.specs.Sound.{IsSound};
ghost use Rattle.code_form.specs.Fit.{FitsTable, FitsCase};
ghost use Rattle.traces.specs.Work.{steps, asks};
ghost use Rattle.traces.specs.Counts.{IsBetween, AreAtMost};
ghost use Rattle.machine_form.specs.Machine.{case_trial};
ghost use Rattle.ports.specs.Asks.{answers_in, asked_in, AskedBy, AskedAtMostBy};
ghost use Rattle.shared_pages.specs.Store.{memory, used_pages};
ghost use Rattle.shared_analysis.specs.Ended.{IsAnalysis, trial_run};
ghost use Rattle.shared_analysis.specs.Peak.{IsPeak};

use crate::case::analyse_over;
use crate::ended::TestResult;
use crate::numbers::numbered;
use am_base::OutOfMemory;
use code_form::{Case, Code, Variants};
use exec_core::{Machine, Meter};
use machine_parts::{Ports, Subject};
use picker::Picker;
use shared_machine::SharedOver;
use shared_pages::PageStore;
use std::alloc::Global;

/// Runs all mutants of a table on a case over a machine with no state out, and gives its ports back.
fn run_case<'a, P: Ports>(
    alloc: Global,
    machine: SharedOver<'a, P>,
    variants: &Variants,
    case: &Case,
    picker: &mut Box<dyn Picker>,
    meter: &mut Meter,
) -> (P, Result<TestResult, OutOfMemory>)
    requires case { FitsCase machine.subject.code case.now }
    requires signs { (P.outside machine.ports).signs ≡ machine.subject.code.signs }
    requires table { variants.now ≡ machine.subject.table }
    requires none_out { ⟦<SharedOver<'a, P> as Machine>⟧.view.out_numbers machine ≡ [] }
    requires room { AreAtMost (3 * 2 ^ 61) (⟦<SharedOver<'a, P> as Machine>⟧.view.counts machine) }
    requires room_to_count { meter.old ≤ 3 * 2 ^ 61 }
    requires used { used_pages machine.store ≡ 1 }
    requires peak { machine.store.peak ≡ 1 }
    ensures peak { let T = trial_run machine.entry.subject (answers_in (P.outside machine.entry.ports).answers) variants.now case.now in
        IfOk result.1 (λ a. IsPeak machine.entry.subject.code T a.peak) }
    ensures analysis { let T = trial_run machine.entry.subject (answers_in (P.outside machine.entry.ports).answers) variants.now case.now in
        IfOk result.1 (λ a. IsAnalysis T a) }
    ensures asks { let T = trial_run machine.entry.subject (answers_in (P.outside machine.entry.ports).answers) variants.now case.now in
        OnOk result.1 (AskedBy (P.outside machine.entry.ports).asked (P.outside result.0).asked (asks T)) }
    ensures meter { let T = trial_run machine.entry.subject (answers_in (P.outside machine.entry.ports).answers) variants.now case.now in
        OnOk result.1 (meter.new ≡ meter.old + steps T) }
    ensures signs { (P.outside result.0).signs ≡ (P.outside machine.entry.ports).signs }
    ensures answers { (P.outside result.0).answers ≡ (P.outside machine.entry.ports).answers }
    ensures asks_at_most { let T = trial_run machine.entry.subject (answers_in (P.outside machine.entry.ports).answers) variants.now case.now in
        AskedAtMostBy (P.outside machine.entry.ports).asked (P.outside result.0).asked (asks T) }
    ensures meter_within { let T = trial_run machine.entry.subject (answers_in (P.outside machine.entry.ports).answers) variants.now case.now in
        IsBetween meter.old meter.new (meter.old + steps T) }
{
    let mut machine = machine;
    let mutants = variants.mutants();
    match analyse_over(alloc, &mut machine, variants, case, picker, meter) {
        Err(error) => (machine.into_ports(), Err(error)),
        Ok(together) => {
            let analysis = numbered(alloc, together, mutants);
            (machine.into_ports(), analysis)
        }
    }
}

/// What a machine runs, and a store in which no page was ever used.
fn opened<'a>(
    alloc: Global,
    code: &'a Code,
    variants: &'a Variants,
) -> Result<(Subject<'a>, PageStore), OutOfMemory>
    requires sound { IsSound code.now }
    requires table { FitsTable code.now variants.now }
    ensures subject { IfOk result (λ r. r.0 ≡ record { code = code.now; table = variants.now }) }
    ensures empty { IfOk result (λ r. (k : ℕ) → memory r.1 k ≡ None) }
    ensures used { IfOk result (λ r. used_pages r.1 ≡ 1) }
    ensures peak { IfOk result (λ r. r.1.peak ≡ 1) }
{
    let subject = Subject::new(alloc, code, variants)?;
    let store = PageStore::new(alloc)?;
    Ok((subject, store))
}

/// Runs all mutants of a table on a case, over a machine that is made for it, and gives the ports
/// back, whatever it answers.
///
/// Each mutant has the outcome and the length of the run by itself, as `plain_machine::run_alone`
/// gives them. The work and the splits are those of the model in `traces`. Each port was asked as
/// often as the model asks it, and the meter rose by the steps. It is refused only for want of
/// memory; then neither rose by more than that.
pub fn run_over<'a, P: Ports>(
    alloc: Global,
    code: &'a Code,
    variants: &'a Variants,
    case: &Case,
    ports: P,
    picker: &mut Box<dyn Picker>,
    meter: &mut Meter,
) -> (P, Result<TestResult, OutOfMemory>)
    requires sound { IsSound code.now }
    requires table { FitsTable code.now variants.now }
    requires case { FitsCase code.now case.now }
    requires signs { (P.outside ports).signs ≡ code.now.signs }
    requires few { (p : ℕ) → asked_in (P.outside ports).asked p ≤ 3 * 2 ^ 61 }
    requires room_to_count { meter.old ≤ 3 * 2 ^ 61 }

    ensures analysis { let T = case_trial code.now variants.now (answers_in (P.outside ports).answers) case.now in
        IfOk result.1 (λ a. IsAnalysis T a) }
    ensures asks { let T = case_trial code.now variants.now (answers_in (P.outside ports).answers) case.now in
        OnOk result.1 (AskedBy (P.outside ports).asked (P.outside result.0).asked (asks T)) }
    ensures meter { let T = case_trial code.now variants.now (answers_in (P.outside ports).answers) case.now in
        OnOk result.1 (meter.new ≡ meter.old + steps T) }
    ensures peak { let T = case_trial code.now variants.now (answers_in (P.outside ports).answers) case.now in
        IfOk result.1 (λ a. IsPeak code.now T a.peak) }

    // Whatever it answers.
    ensures signs { (P.outside result.0).signs ≡ (P.outside ports).signs }
    ensures answers { (P.outside result.0).answers ≡ (P.outside ports).answers }
    ensures asks_at_most { let T = case_trial code.now variants.now (answers_in (P.outside ports).answers) case.now in
        AskedAtMostBy (P.outside ports).asked (P.outside result.0).asked (asks T) }
    ensures meter_within { let T = case_trial code.now variants.now (answers_in (P.outside ports).answers) case.now in
        IsBetween meter.old meter.new (meter.old + steps T) }

    // What one case costs at most.
    ensures few_asks { let T = case_trial code.now variants.now (answers_in (P.outside ports).answers) case.now in
        (p : ℕ) → asks T p ≤ MAX_MUTANTS * MAX_BUDGET }
    ensures few_steps { let T = case_trial code.now variants.now (answers_in (P.outside ports).answers) case.now in
        steps T ≤ MAX_MUTANTS * MAX_BUDGET }
{
    let _mutants = variants.mutants();
    match opened(alloc, code, variants) {
        Err(error) => (ports, Err(error)),
        Ok((subject, store)) => run_case(
            alloc,
            SharedOver::over(subject, ports, store),
            variants,
            case,
            picker,
            meter,
        ),
    }
}
