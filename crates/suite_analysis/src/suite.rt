//! All tests of a suite, one after another, and the report of them.

ghost use Rattle.std.specs.Prelude.{◌≡◌, ℕ, ◌+◌, ◌*◌, ◌^◌, ◌-◌, ◌<◌, ◌≤◌, if◌then◌else◌, List, [], ◌∷◌, ◌++◌, length, IfOk, OnOk, Some, None};
ghost use Rattle.std.specs.List.{All};
ghost use Rattle.std.specs.Option.{option_copied};
ghost use Rattle.am_base.specs.declared.limits.TheConstants.{MAX_MUTANTS, MAX_BUDGET};
ghost use Rattle.code_form.specs.Sound.{IsSound};
ghost use Rattle.code_form.specs.Fit.{FitsTable, FitsCase};
ghost use Rattle.code_form.specs.Variant.{mutants_of};
ghost use Rattle.traces.specs.Work.{steps, asks};
ghost use Rattle.traces.specs.Counts.{IsBetween};
ghost use Rattle.ports.specs.Asks.{answers_in, asked_in, AskedBy, AskedAtMostBy};
ghost use Rattle.test_suite.specs.Suite.{FitsSuite};
ghost use Rattle.work_report.specs.Report.{FitsWords, total_of};
ghost use Rattle.suite_analysis.specs.Parts.{AreDone};
ghost use Rattle.suite_analysis.specs.Shown.{IsShown};
ghost use Rattle.suite_analysis.specs.Runs.{trial_on, suite_steps, suite_asks, IsReport};

use crate::done::{Done, add, no_tests};
use crate::show::{Show, shown};
use am_base::OutOfMemory;
use am_lists::Items;
use code_form::{Code, Variants};
use exec_core::{Meter, Split};
use flat_analysis::analyse_case;
use flat_machine::Ports;
use picker::Picker;
use std::alloc::Global;
use test_suite::{Suite, Test};

/// Analyses one more test, and gives the ports back, whatever it answers.
fn run_test<'a, P: Ports>(
    alloc: Global,
    code: &'a Code,
    variants: &'a Variants,
    test: &Test,
    ports: P,
    picker: &mut Box<dyn Picker>,
    meter: &mut Meter,
    done: &mut Done,
) -> (P, Result<(), OutOfMemory>)
    requires sound { IsSound code.now }
    requires table { FitsTable code.now variants.now }
    requires case { FitsCase code.now test.now.case }
    requires signs { (P.outside ports).signs ≡ code.now.signs }
    requires few { (p : ℕ) → asked_in (P.outside ports).asked p ≤ 3 * 2 ^ 61 }
    requires room { meter.old ≤ 3 * 2 ^ 61 }
    requires mutants { done.old.matrix.mutants ≡ mutants_of variants.now }
    requires few_tests { length done.old.matrix.tests < 2 ^ 32 - 1 }
    ensures done { OnOk result.1 ((tests : List Test) → AreDone code.now variants.now (answers_in (P.outside ports).answers) tests done.old
        → AreDone code.now variants.now (answers_in (P.outside ports).answers) (tests ++ test.now ∷ []) done.new) }
    ensures asks { OnOk result.1 (AskedBy (P.outside ports).asked (P.outside result.0).asked
        (asks (trial_on code.now variants.now (answers_in (P.outside ports).answers) test.now))) }
    ensures meter { OnOk result.1 (meter.new ≡ meter.old
        + steps (trial_on code.now variants.now (answers_in (P.outside ports).answers) test.now)) }
    ensures signs { (P.outside result.0).signs ≡ (P.outside ports).signs }
    ensures answers { (P.outside result.0).answers ≡ (P.outside ports).answers }
    ensures asks_at_most { AskedAtMostBy (P.outside ports).asked (P.outside result.0).asked
        (asks (trial_on code.now variants.now (answers_in (P.outside ports).answers) test.now)) }
    ensures meter_within { IsBetween meter.old meter.new (meter.old
        + steps (trial_on code.now variants.now (answers_in (P.outside ports).answers) test.now)) }
    ensures few_asks { (p : ℕ) → asks (trial_on code.now variants.now (answers_in (P.outside ports).answers) test.now) p
        ≤ MAX_MUTANTS * MAX_BUDGET }
    ensures few_steps { steps (trial_on code.now variants.now (answers_in (P.outside ports).answers) test.now)
        ≤ MAX_MUTANTS * MAX_BUDGET }
{
    let (ports, analysis) = analyse_case(alloc, code, variants, &test.case, ports, picker, meter);
    match analysis {
        Ok(analysis) => (ports, add(alloc, code, variants, done, test, analysis)),
        Err(error) => (ports, Err(error)),
    }
}

/// Analyses tests, one after another, and gives the ports back, whatever it answers.
fn run_tests<'a, P: Ports>(
    alloc: Global,
    code: &'a Code,
    variants: &'a Variants,
    tests: &[Test],
    ports: P,
    picker: &mut Box<dyn Picker>,
    meter: &mut Meter,
) -> (P, Result<Done, OutOfMemory>)
    requires sound { IsSound code.now }
    requires table { FitsTable code.now variants.now }
    requires few_tests { length tests.now ≤ 1024 }
    requires cases { All (λ (test : Test). FitsCase code.now test.case) tests.now }
    requires signs { (P.outside ports).signs ≡ code.now.signs }
    requires few { (p : ℕ) → asked_in (P.outside ports).asked p ≤ 2 ^ 62 }
    requires room { meter.old ≤ 2 ^ 62 }
    ensures done { IfOk result.1 (λ done. AreDone code.now variants.now (answers_in (P.outside ports).answers) tests.now done) }
    ensures asks { OnOk result.1 (AskedBy (P.outside ports).asked (P.outside result.0).asked
        (suite_asks code.now variants.now (answers_in (P.outside ports).answers) tests.now)) }
    ensures meter { OnOk result.1 (meter.new ≡ meter.old
        + suite_steps code.now variants.now (answers_in (P.outside ports).answers) tests.now) }
    ensures signs { (P.outside result.0).signs ≡ (P.outside ports).signs }
    ensures answers { (P.outside result.0).answers ≡ (P.outside ports).answers }
    ensures asks_at_most { AskedAtMostBy (P.outside ports).asked (P.outside result.0).asked
        (suite_asks code.now variants.now (answers_in (P.outside ports).answers) tests.now) }
    ensures meter_within { IsBetween meter.old meter.new (meter.old
        + suite_steps code.now variants.now (answers_in (P.outside ports).answers) tests.now) }
{
    let mut held = ports;
    let mut done = match no_tests(alloc, code, variants) {
        Ok(done) => done,
        Err(error) => return (held, Err(error)),
    };
    for test in tests {
        let (back, answer) = run_test(alloc, code, variants, test, held, picker, meter, &mut done);
        held = back;
        match answer {
            Ok(()) => {}
            Err(error) => return (held, Err(error)),
        }
    }
    (held, Ok(done))
}

/// Runs all mutants of a table on each test of a suite, and returns what was found: the verdict on
/// each mutant's run alone on each test, the work and the splits. It gives the ports back, whatever
/// it answers.
///
/// Each port was asked as often as the model of all tests asks it, and the meter rose by the steps.
/// It is refused only for want of memory; then neither rose by more than that.
pub fn analyse_suite<'a, P: Ports>(
    alloc: Global,
    code: &'a Code,
    variants: &'a Variants,
    suite: &Suite,
    ports: P,
    picker: &mut Box<dyn Picker>,
    meter: &mut Meter,
) -> (P, Result<Done, OutOfMemory>)
    requires sound { IsSound code.now }
    requires table { FitsTable code.now variants.now }
    requires suite { FitsSuite code.now suite.now }
    requires signs { (P.outside ports).signs ≡ code.now.signs }
    requires few { (p : ℕ) → asked_in (P.outside ports).asked p ≤ 2 ^ 62 }
    requires room { meter.old ≤ 2 ^ 62 }

    ensures done { IfOk result.1 (λ done. AreDone code.now variants.now (answers_in (P.outside ports).answers) suite.now.tests done) }
    ensures tests { IfOk result.1 (λ done. length done.matrix.tests ≡ length suite.now.tests) }
    ensures sums { IfOk result.1 (λ done. FitsWords (total_of done.works.items)) }
    ensures asks { OnOk result.1 (AskedBy (P.outside ports).asked (P.outside result.0).asked
        (suite_asks code.now variants.now (answers_in (P.outside ports).answers) suite.now.tests)) }
    ensures meter { OnOk result.1 (meter.new ≡ meter.old
        + suite_steps code.now variants.now (answers_in (P.outside ports).answers) suite.now.tests) }

    // Whatever it answers.
    ensures signs { (P.outside result.0).signs ≡ (P.outside ports).signs }
    ensures answers { (P.outside result.0).answers ≡ (P.outside ports).answers }
    ensures asks_at_most { AskedAtMostBy (P.outside ports).asked (P.outside result.0).asked
        (suite_asks code.now variants.now (answers_in (P.outside ports).answers) suite.now.tests) }
    ensures meter_within { IsBetween meter.old meter.new (meter.old
        + suite_steps code.now variants.now (answers_in (P.outside ports).answers) suite.now.tests) }
{
    let _mutants = variants.mutants();
    let tests = suite.tests.as_slice();
    run_tests(alloc, code, variants, tests, ports, picker, meter)
}

/// The text of what was found.
fn text_of(alloc: Global, suite: &Suite, done: &Done, show: Show) -> Result<Vec<u8>, OutOfMemory>
    requires tests { length done.now.matrix.tests ≡ length suite.now.tests }
    requires works { length done.now.works.items ≡ length suite.now.tests }
    requires splits { length done.now.splits.items ≡ length suite.now.tests }
    requires sums { FitsWords (total_of done.now.works.items) }
    ensures { IfOk result (λ text. IsShown show suite.now done.now.matrix done.now.works.items done.now.splits.items text.items) }
{
    let works = done.works.as_slice();
    shown(
        alloc,
        show,
        suite,
        &done.matrix,
        works,
        done.splits.as_slice(),
    )
}

/// Runs all mutants of a table on each test of a suite, and returns what is to be shown of the
/// report: the verdict on each mutant's run alone on each test, the score, the work and the splits.
/// It gives the ports back, whatever it answers.
///
/// Each port was asked as often as the model of all tests asks it, and the meter rose by the steps.
/// It is refused only for want of memory; then neither rose by more than that.
pub fn report_of<'a, P: Ports>(
    alloc: Global,
    code: &'a Code,
    variants: &'a Variants,
    suite: &Suite,
    show: Show,
    ports: P,
    picker: &mut Box<dyn Picker>,
    meter: &mut Meter,
) -> (P, Result<Vec<u8>, OutOfMemory>)
    requires sound { IsSound code.now }
    requires table { FitsTable code.now variants.now }
    requires suite { FitsSuite code.now suite.now }
    requires signs { (P.outside ports).signs ≡ code.now.signs }
    requires few { (p : ℕ) → asked_in (P.outside ports).asked p ≤ 2 ^ 62 }
    requires room { meter.old ≤ 2 ^ 62 }

    ensures text { IfOk result.1 (λ text. IsReport code.now variants.now (answers_in (P.outside ports).answers) show suite.now text.items) }
    ensures asks { OnOk result.1 (AskedBy (P.outside ports).asked (P.outside result.0).asked
        (suite_asks code.now variants.now (answers_in (P.outside ports).answers) suite.now.tests)) }
    ensures meter { OnOk result.1 (meter.new ≡ meter.old
        + suite_steps code.now variants.now (answers_in (P.outside ports).answers) suite.now.tests) }

    // Whatever it answers.
    ensures signs { (P.outside result.0).signs ≡ (P.outside ports).signs }
    ensures answers { (P.outside result.0).answers ≡ (P.outside ports).answers }
    ensures asks_at_most { AskedAtMostBy (P.outside ports).asked (P.outside result.0).asked
        (suite_asks code.now variants.now (answers_in (P.outside ports).answers) suite.now.tests) }
    ensures meter_within { IsBetween meter.old meter.new (meter.old
        + suite_steps code.now variants.now (answers_in (P.outside ports).answers) suite.now.tests) }
{
    let (ports, done) = analyse_suite(alloc, code, variants, suite, ports, picker, meter);
    match done {
        Ok(done) => (ports, text_of(alloc, suite, &done, show)),
        Err(error) => (ports, Err(error)),
    }
}
