//! `groups`: which mutants have made the same changes up to a step of a test.

ghost use Rattle.std.specs.Prelude.{◌≡◌, ℕ, ◌+◌, ◌*◌, ◌≤◌, ◌<◌, ◌^◌, List, [], ◌∷◌, length, IfOk, OnOk};
ghost use Rattle.am_base.specs.Cause.{Rose};
ghost use Rattle.am_base.specs.Files.{Files};
ghost use Rattle.code_form.specs.Fit.{FitsTable, FitsCase};
ghost use Rattle.code_form.specs.Sound.{IsSound};
ghost use Rattle.traces.specs.Counts.{IsBetween};
ghost use Rattle.traces.specs.Trace.{within};
ghost use Rattle.traces.specs.Work.{steps, asks};
ghost use Rattle.machine_form.specs.Machine.{case_trial};
ghost use Rattle.ports.specs.Asks.{answers_in, asked_in, AskedBy, AskedAtMostBy};
ghost use Rattle.flat_analysis.specs.Ended.{AreEnded};
ghost use Rattle.mutant_records.specs.Tables.{IsListOf};
ghost use Rattle.mutant_records.specs.declared.list.Made.{Made};
ghost use Rattle.test_suite.specs.Suite.{FitsSuite};
ghost use Rattle.command_plan.specs.Answer.{Found};
ghost use Rattle.command_texts.specs.Groups.{IsGroupsText};
ghost use Rattle.commands.specs.Alone.{counts_of};
ghost use Rattle.commands.specs.Groups.{cut_at, cut_trial, unmoved_class};
ghost use Rattle.commands.specs.Plans.{groups_end, groups_plan};

use crate::load::{Subject, load_files};
use crate::wanted::{Point, test_at};
use am_base::{Ending, MAX_BUDGET, MAX_MUTANTS, OutOfMemory, Outcome, Shelf};
use am_lists::{Bytes, Items};
use code_form::{Case, Code, PortSign, Variants};
use command_plan::{Input, Stop};
use command_texts::groups_text;
use exec_core::Meter;
use flat_analysis::{Ended, analyse_case};
use flat_machine::Ports;
use member_sets::Members;
use picker::Picker;
use refused_lines::no_test_line;
use std::alloc::Global;
use test_suite::Test;

/// All mutants as one class, before any change.
fn unmoved(alloc: Global, mutants: u32) -> Result<Items<Ended>, OutOfMemory>
    requires some { 1 ≤ mutants }
    requires few { mutants ≤ MAX_MUTANTS }
    ensures { IfOk result (λ classes. classes ≡ unmoved_class mutants ∷ []) }
{
    let class = Ended {
        outcome: Outcome {
            ending: Ending::Budget,
            output: Bytes::new(alloc),
        },
        members: Members::all(alloc, mutants)?.list(alloc)?,
        length: 0,
    };
    let mut classes = Items::new(alloc);
    classes.push(class)?;
    Ok(classes)
}

/// The classes of the runs of a case that are cut off after so many changes.
fn classes_within<P: Ports>(
    alloc: Global,
    code: &Code,
    variants: &Variants,
    case: &Case,
    budget: u64,
    ports: P,
    picker: &mut Box<dyn Picker>,
    meter: &mut Meter,
) -> (P, Result<Items<Ended>, OutOfMemory>)
    requires sound { IsSound code.now }
    requires table { FitsTable code.now variants.now }
    requires case { FitsCase code.now case.now }
    requires within { budget ≤ case.now.budget }
    requires signs { (P.outside ports).signs ≡ code.now.signs }
    requires few { (p : ℕ) → asked_in (P.outside ports).asked p ≤ 3 * 2 ^ 61 }
    requires room { meter.old ≤ 3 * 2 ^ 61 }
    ensures classes { let T = within (case_trial code.now variants.now (answers_in (P.outside ports).answers) case.now) budget in
        IfOk result.1 (λ classes. AreEnded T classes) }
    ensures asks { let T = within (case_trial code.now variants.now (answers_in (P.outside ports).answers) case.now) budget in
        OnOk result.1 (AskedBy (P.outside ports).asked (P.outside result.0).asked (asks T)) }
    ensures meter { let T = within (case_trial code.now variants.now (answers_in (P.outside ports).answers) case.now) budget in
        OnOk result.1 (meter.new ≡ meter.old + steps T) }
    ensures signs { (P.outside result.0).signs ≡ (P.outside ports).signs }
    ensures answers { (P.outside result.0).answers ≡ (P.outside ports).answers }
    ensures asks_at_most { let T = within (case_trial code.now variants.now (answers_in (P.outside ports).answers) case.now) budget in
        AskedAtMostBy (P.outside ports).asked (P.outside result.0).asked (asks T) }
    ensures meter_within { let T = within (case_trial code.now variants.now (answers_in (P.outside ports).answers) case.now) budget in
        IsBetween meter.old meter.new (meter.old + steps T) }
{
    if budget == 0 {
        return (ports, unmoved(alloc, variants.mutants()));
    }
    let case = match case.with_budget(alloc, budget) {
        Ok(case) => case,
        Err(error) => return (ports, Err(error)),
    };
    let (ports, analysis) = analyse_case(alloc, code, variants, &case, ports, picker, meter);
    match analysis {
        Ok(analysis) => (ports, Ok(analysis.classes)),
        Err(error) => (ports, Err(error)),
    }
}

/// After how many changes the runs of a test are cut off, to show the groups at a step: at the step,
/// and before any change where the budget of the test ends them earlier.
fn cut_of(step: u64, budget: u64) -> u64
    ensures value { result ≡ cut_at step budget }
    ensures within { result ≤ budget }
{
    if step <= budget { step } else { 0 }
}

/// The text of the groups at a step of a test.
fn text_at<P: Ports>(
    alloc: Global,
    s: &Subject,
    test: &Test,
    step: u64,
    ports: P,
    picker: &mut Box<dyn Picker>,
    meter: &mut Meter,
) -> (P, Result<Bytes, OutOfMemory>)
    requires sound { IsSound s.now.m.code }
    requires table { FitsTable s.now.m.code s.now.list.variants }
    requires case { FitsCase s.now.m.code test.now.case }
    requires signs { (P.outside ports).signs ≡ s.now.m.code.signs }
    requires few { (p : ℕ) → asked_in (P.outside ports).asked p ≤ 3 * 2 ^ 61 }
    requires room { meter.old ≤ 3 * 2 ^ 61 }
    ensures text { IfOk result.1 (λ text. (classes : List Ended)
        × AreEnded (cut_trial s.now.m.code s.now.list.variants (answers_in (P.outside ports).answers) test.now step) classes
        × IsGroupsText step classes text) }
    ensures asks { OnOk result.1 (AskedBy (P.outside ports).asked (P.outside result.0).asked
        (asks (cut_trial s.now.m.code s.now.list.variants (answers_in (P.outside ports).answers) test.now step))) }
    ensures meter { OnOk result.1 (meter.new ≡ meter.old
        + steps (cut_trial s.now.m.code s.now.list.variants (answers_in (P.outside ports).answers) test.now step)) }
    ensures signs { (P.outside result.0).signs ≡ (P.outside ports).signs }
    ensures answers { (P.outside result.0).answers ≡ (P.outside ports).answers }
    ensures asks_at_most { AskedAtMostBy (P.outside ports).asked (P.outside result.0).asked
        (asks (cut_trial s.now.m.code s.now.list.variants (answers_in (P.outside ports).answers) test.now step)) }
    ensures meter_within { IsBetween meter.old meter.new (meter.old
        + steps (cut_trial s.now.m.code s.now.list.variants (answers_in (P.outside ports).answers) test.now step)) }
{
    let budget = cut_of(step, test.case.budget);
    let code = &s.m.code;
    let variants = &s.list.variants;
    let (ports, classes) = classes_within(
        alloc, code, variants, &test.case, budget, ports, picker, meter,
    );
    match classes {
        Ok(classes) => (ports, groups_text(alloc, step, classes.as_slice())),
        Err(error) => (ports, Err(error)),
    }
}

/// The text of `groups` where the files are accepted, or why there is none.
fn groups_wanted<P: Ports>(
    alloc: Global,
    s: &Subject,
    point: Point,
    ports: P,
    picker: &mut Box<dyn Picker>,
    meter: &mut Meter,
) -> (P, Result<Bytes, Stop>)
    requires sound { IsSound s.now.m.code }
    requires table { FitsTable s.now.m.code s.now.list.variants }
    requires suite { FitsSuite s.now.m.code s.now.suite }
    requires signs { (P.outside ports).signs ≡ s.now.m.code.signs }
    requires few { (p : ℕ) → asked_in (P.outside ports).asked p ≤ 3 * 2 ^ 61 }
    requires room { meter.old ≤ 3 * 2 ^ 61 }
    ensures found { (files : Files) (all : List Made) → IsListOf s.now.m.code all s.now.list →
        Found files (λ name. ⊥) (groups_end (answers_in (P.outside ports).answers) point s.now.m all s.now.suite)
        (counts_of meter.old (asked_in (P.outside ports).asked)) (counts_of meter.new (asked_in (P.outside result.0).asked)) result.1 }
    ensures signs { (P.outside result.0).signs ≡ (P.outside ports).signs }
    ensures answers { (P.outside result.0).answers ≡ (P.outside ports).answers }
{
    match test_at(&s.suite, point.test) {
        None => {
            let line = no_test_line(alloc, point.test);
            (ports, Err(Stop::refusal(Input::Tests, line)))
        }
        Some(t) => {
            let (ports, text) = text_at(alloc, s, t, point.step, ports, picker, meter);
            match text {
                Ok(text) => (ports, Ok(text)),
                Err(OutOfMemory) => (ports, Err(Stop::OutOfMemory)),
            }
        }
    }
}

/// The groups at a step of a test over the three files of these names, or why there are none. Each
/// file is judged whole before the next is read. A test that states no budget gets this one, from 1
/// to `MAX_BUDGET`. `signs` are those of the ports, which it gives back, whatever it answers. Where
/// the step is 0 or above the budget of the test nothing is run.
pub fn groups_found<F: Shelf, P: Ports>(
    alloc: Global,
    shelf: &mut F,
    module_name: &str,
    mutants: &str,
    tests: &str,
    budget: u64,
    point: Point,
    signs: &[PortSign],
    ports: P,
    picker: &mut Box<dyn Picker>,
    meter: &mut Meter,
) -> (P, Result<Bytes, Stop>)
    requires some { 1 ≤ budget }
    requires few_steps { budget ≤ MAX_BUDGET }
    requires few_signs { length signs.now < 2 ^ 32 }
    requires signs { (P.outside ports).signs ≡ signs.now }
    requires few { (p : ℕ) → asked_in (P.outside ports).asked p ≤ 2 ^ 62 }
    requires room { meter.old ≤ 2 ^ 62 }
    ensures found { Found (F.files shelf.old) (λ name. Rose (F.faults shelf.old name) (F.faults shelf.new name))
        (groups_plan signs.now (answers_in (P.outside ports).answers) budget module_name.now mutants.now tests.now point)
        (counts_of meter.old (asked_in (P.outside ports).asked)) (counts_of meter.new (asked_in (P.outside result.0).asked)) result.1 }
    ensures signs { (P.outside result.0).signs ≡ (P.outside ports).signs }
    ensures answers { (P.outside result.0).answers ≡ (P.outside ports).answers }
    ensures kept { F.files shelf.new ≡ F.files shelf.old }
    ensures counts { (other : List ℕ) → F.faults shelf.old other ≤ F.faults shelf.new other }
{
    match load_files(alloc, shelf, module_name, mutants, tests, budget, signs) {
        Err(stop) => (ports, Err(stop)),
        Ok(subject) => groups_wanted(alloc, &subject, point, ports, picker, meter),
    }
}
