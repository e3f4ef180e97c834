//! `run`: all mutants of a list on all tests of a suite.

ghost use Rattle.std.specs.Prelude.{◌≡◌, ℕ, ◌≤◌, ◌<◌, ◌^◌, List, length};
ghost use Rattle.am_base.specs.Cause.{Rose};
ghost use Rattle.am_base.specs.Files.{Files};
ghost use Rattle.code_form.specs.Fit.{FitsTable};
ghost use Rattle.code_form.specs.Sound.{IsSound};
ghost use Rattle.ports.specs.Asks.{answers_in, asked_in};
ghost use Rattle.mutant_records.specs.Tables.{IsListOf};
ghost use Rattle.mutant_records.specs.declared.list.Made.{Made};
ghost use Rattle.test_suite.specs.Suite.{FitsSuite};
ghost use Rattle.command_plan.specs.Answer.{Found};
ghost use Rattle.commands.specs.Alone.{counts_of};
ghost use Rattle.commands.specs.Plans.{run_end, run_plan};

use crate::load::{Subject, load_files};
use am_base::{MAX_BUDGET, OutOfMemory, Shelf};
use am_lists::{Bytes, Items};
use code_form::PortSign;
use command_plan::Stop;
use exec_core::Meter;
use flat_machine::Ports;
use picker::Picker;
use std::alloc::Global;
use suite_analysis::{Show, report_of};

/// What is shown of the report, where the files are accepted, or why there is none.
fn run_wanted<P: Ports>(
    alloc: Global,
    s: &Subject,
    show: Show,
    ports: P,
    picker: &mut Box<dyn Picker>,
    meter: &mut Meter,
) -> (P, Result<Bytes, Stop>)
    requires sound { IsSound s.now.m.code }
    requires table { FitsTable s.now.m.code s.now.list.variants }
    requires suite { FitsSuite s.now.m.code s.now.suite }
    requires signs { (P.outside ports).signs ≡ s.now.m.code.signs }
    requires few { (p : ℕ) → asked_in (P.outside ports).asked p ≤ 2 ^ 62 }
    requires room { meter.old ≤ 2 ^ 62 }
    ensures found { (files : Files) (all : List Made) → IsListOf s.now.m.code all s.now.list →
        Found files (λ name. ⊥) (run_end (answers_in (P.outside ports).answers) show s.now.m all s.now.suite)
        (counts_of meter.old (asked_in (P.outside ports).asked)) (counts_of meter.new (asked_in (P.outside result.0).asked)) result.1 }
    ensures signs { (P.outside result.0).signs ≡ (P.outside ports).signs }
    ensures answers { (P.outside result.0).answers ≡ (P.outside ports).answers }
{
    let code = &s.m.code;
    let variants = &s.list.variants;
    let (ports, text) = report_of(alloc, code, variants, &s.suite, show, ports, picker, meter);
    match text {
        Ok(text) => (ports, Ok(Items::from_vec(text))),
        Err(OutOfMemory) => (ports, Err(Stop::OutOfMemory)),
    }
}

/// What is shown of the report over the three files of these names, or why there is none. Each file
/// is judged whole before the next is read. A test that states no budget gets this one, from 1 to
/// `MAX_BUDGET`. `signs` are those of the ports, which it gives back, whatever it answers.
pub fn run_found<F: Shelf, P: Ports>(
    alloc: Global,
    shelf: &mut F,
    module_name: &str,
    mutants: &str,
    tests: &str,
    budget: u64,
    show: Show,
    signs: &[PortSign],
    ports: P,
    picker: &mut Box<dyn Picker>,
    meter: &mut Meter,
) -> (P, Result<Bytes, Stop>)
    requires some { 1 ≤ budget }
    requires few_steps { budget ≤ MAX_BUDGET }
    requires few_signs { length signs.now < 2 ^ 32 }
    requires signs { (P.outside ports).signs ≡ signs.now }
    requires few { (p : ℕ) → asked_in (P.outside ports).asked p ≤ 2 ^ 62 }
    requires room { meter.old ≤ 2 ^ 62 }
    ensures found { Found (F.files shelf.old) (λ name. Rose (F.faults shelf.old name) (F.faults shelf.new name))
        (run_plan signs.now (answers_in (P.outside ports).answers) budget module_name.now mutants.now tests.now show)
        (counts_of meter.old (asked_in (P.outside ports).asked)) (counts_of meter.new (asked_in (P.outside result.0).asked)) result.1 }
    ensures signs { (P.outside result.0).signs ≡ (P.outside ports).signs }
    ensures answers { (P.outside result.0).answers ≡ (P.outside ports).answers }
    ensures kept { F.files shelf.new ≡ F.files shelf.old }
    ensures counts { (other : List ℕ) → F.faults shelf.old other ≤ F.faults shelf.new other }
{
    match load_files(alloc, shelf, module_name, mutants, tests, budget, signs) {
        Err(stop) => (ports, Err(stop)),
        Ok(subject) => run_wanted(alloc, &subject, show, ports, picker, meter),
    }
}
