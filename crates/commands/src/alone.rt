//! `alone`: the run of one mutant by itself on one test.

ghost use Rattle.std.specs.Prelude.{◌≡◌, ℕ, ◌+◌, ◌*◌, ◌≤◌, ◌<◌, ◌^◌, List, length, IfOk, IfErr, OnOk};
ghost use Rattle.am_base.specs.Cause.{Rose};
ghost use Rattle.am_base.specs.Files.{Files};
ghost use Rattle.code_form.specs.Fit.{FitsTable, FitsCase};
ghost use Rattle.code_form.specs.Sound.{IsSound};
ghost use Rattle.code_form.specs.Variant.{mutants_of};
ghost use Rattle.ports.specs.Asks.{answers_in, asked_in, AskedBy, AskedAtMostBy};
ghost use Rattle.plain_machine.specs.Tolls.{tolls_of};
ghost use Rattle.mutant_records.specs.Tables.{IsListOf};
ghost use Rattle.mutant_records.specs.declared.list.Made.{Made};
ghost use Rattle.test_suite.specs.Suite.{FitsSuite};
ghost use Rattle.command_plan.specs.Answer.{Found};
ghost use Rattle.commands.specs.Alone as spec;
ghost use Rattle.commands.specs.Alone.{counts_of, trial_on, run_text};
ghost use Rattle.commands.specs.Plans.{alone_end, alone_plan};

use crate::load::{Subject, load_files};
use crate::wanted::{Wanted, test_at};
use am_base::{MAX_BUDGET, OutOfMemory, Shelf};
use am_lists::Bytes;
use code_form::{Code, PortSign, TyScalar};
use command_plan::{Input, Stop};
use command_texts::alone_text;
use flat_machine::Ports;
use mutant_list::MutantList;
use refused_lines::{no_mutant_line, no_test_line};
use std::alloc::Global;
use test_suite::Test;

/// The type of the result of a test's function.
fn result_type(code: &Code, test: &Test) -> Option<TyScalar>
    requires { test.now.case.function < length code.now.funcs }
    ensures { result ≡ spec.result_type code.now test.now }
{
    match code.funcs.get(test.case.function as usize) {
        Some(f) => f.result,
        None => unreachable!(),
    }
}

/// The text of a mutant's run by itself on a test.
fn text_of<P: Ports>(
    alloc: Global,
    code: &Code,
    list: &MutantList,
    mutant: u32,
    test: &Test,
    ports: &mut P,
) -> Result<Bytes, OutOfMemory>
    requires sound { IsSound code.now }
    requires table { FitsTable code.now list.now.variants }
    requires case { FitsCase code.now test.now.case }
    requires mutant { mutant < mutants_of list.now.variants }
    requires signs { (P.outside ports.old).signs ≡ code.now.signs }
    requires few { (p : ℕ) → asked_in (P.outside ports.old).asked p ≤ 3 * 2 ^ 61 }
    ensures text { IfOk result (λ text. text ≡ run_text code.now list.now.variants (answers_in (P.outside ports.old).answers) mutant test.now) }
    ensures signs { (P.outside ports.new).signs ≡ (P.outside ports.old).signs }
    ensures answers { (P.outside ports.new).answers ≡ (P.outside ports.old).answers }
    ensures asks { let T = trial_on code.now list.now.variants (answers_in (P.outside ports.old).answers) test.now in
        OnOk result (AskedBy (P.outside ports.old).asked (P.outside ports.new).asked (tolls_of T mutant)) }
    ensures asks_at_most { let T = trial_on code.now list.now.variants (answers_in (P.outside ports.old).answers) test.now in
        AskedAtMostBy (P.outside ports.old).asked (P.outside ports.new).asked (tolls_of T mutant) }
{
    let ty = result_type(code, test);
    let alone = ports.alone(alloc, code, &list.variants, mutant, &test.case)?;
    alone_text(
        alloc,
        u64::from(mutant),
        test.name.as_slice(),
        ty,
        &alone.outcome,
        alone.length,
    )
}

/// The text of `alone` where the files are accepted, or why there is none.
fn run_wanted<P: Ports>(
    alloc: Global,
    s: &Subject,
    wanted: Wanted,
    ports: &mut P,
) -> Result<Bytes, Stop>
    requires sound { IsSound s.now.m.code }
    requires table { FitsTable s.now.m.code s.now.list.variants }
    requires suite { FitsSuite s.now.m.code s.now.suite }
    requires signs { (P.outside ports.old).signs ≡ s.now.m.code.signs }
    requires few { (p : ℕ) → asked_in (P.outside ports.old).asked p ≤ 3 * 2 ^ 61 }
    ensures found { (files : Files) (all : List Made) (steps : ℕ) → IsListOf s.now.m.code all s.now.list →
        Found files (λ name. ⊥) (alone_end (answers_in (P.outside ports.old).answers) wanted s.now.m all s.now.suite)
        (counts_of steps (asked_in (P.outside ports.old).asked)) (counts_of steps (asked_in (P.outside ports.new).asked)) result }
    ensures signs { (P.outside ports.new).signs ≡ (P.outside ports.old).signs }
    ensures answers { (P.outside ports.new).answers ≡ (P.outside ports.old).answers }
{
    if wanted.mutant >= u64::from(s.list.variants.mutants()) {
        let line = no_mutant_line(alloc, wanted.mutant);
        return Err(Stop::refusal(Input::Mutants, line));
    }
    match test_at(&s.suite, wanted.test) {
        None => {
            let line = no_test_line(alloc, wanted.test);
            Err(Stop::refusal(Input::Tests, line))
        }
        Some(t) => match text_of(alloc, &s.m.code, &s.list, wanted.mutant as u32, t, ports) {
            Ok(text) => Ok(text),
            Err(OutOfMemory) => Err(Stop::OutOfMemory),
        },
    }
}

/// The text of `alone` over the three files of these names, or why there is none. Each file is
/// judged whole before the next is read. A test that states no budget gets this one, from 1 to
/// `MAX_BUDGET`. `signs` are those of the ports.
pub fn alone_found<F: Shelf, P: Ports>(
    alloc: Global,
    shelf: &mut F,
    module_name: &str,
    mutants: &str,
    tests: &str,
    budget: u64,
    wanted: Wanted,
    signs: &[PortSign],
    ports: &mut P,
) -> Result<Bytes, Stop>
    requires some { 1 ≤ budget }
    requires few_steps { budget ≤ MAX_BUDGET }
    requires few_signs { length signs.now < 2 ^ 32 }
    requires signs { (P.outside ports.old).signs ≡ signs.now }
    requires few { (p : ℕ) → asked_in (P.outside ports.old).asked p ≤ 3 * 2 ^ 61 }
    ensures found { (steps : ℕ) →
        Found (F.files shelf.old) (λ name. Rose (F.faults shelf.old name) (F.faults shelf.new name))
        (alone_plan signs.now (answers_in (P.outside ports.old).answers) budget module_name.now mutants.now tests.now wanted)
        (counts_of steps (asked_in (P.outside ports.old).asked)) (counts_of steps (asked_in (P.outside ports.new).asked)) result }
    ensures signs { (P.outside ports.new).signs ≡ (P.outside ports.old).signs }
    ensures answers { (P.outside ports.new).answers ≡ (P.outside ports.old).answers }
    ensures kept { F.files shelf.new ≡ F.files shelf.old }
    ensures counts { (other : List ℕ) → F.faults shelf.old other ≤ F.faults shelf.new other }
{
    match load_files(alloc, shelf, module_name, mutants, tests, budget, signs) {
        Err(stop) => Err(stop),
        Ok(subject) => run_wanted(alloc, &subject, wanted, ports),
    }
}
