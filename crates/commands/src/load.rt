//! The three files of a command, in their order.

ghost use Rattle.std.specs.Prelude.{◌≡◌, ℕ, ◌≤◌, ◌<◌, ◌^◌, List, length, Err, IfOk, IfErr};
ghost use Rattle.am_base.specs.Cause.{Rose};
ghost use Rattle.code_form.specs.Fit.{FitsTable};
ghost use Rattle.code_form.specs.Sound.{IsSound};
ghost use Rattle.test_suite.specs.Suite.{FitsSuite};
ghost use Rattle.command_plan.specs.Answer.{Found};
ghost use Rattle.command_plan.specs.Plan.{Counts};
ghost use Rattle.commands.specs.Files.{AreRead};
ghost use Rattle.commands.specs.Plans.{unread_plan};

use crate::check::zeros;
use am_base::{MAX_BUDGET, MAX_FILE_BYTES, Shelf};
use code_form::PortSign;
use command_files::{Loaded, load_module, load_mutants, load_tests};
use command_plan::Stop;
use mutant_list::MutantList;
use std::alloc::Global;
use test_suite::Suite;

/// A module, a list of its mutants and a suite of tests, each of which was accepted.
#[derive(Drop)]
pub struct Subject {
    pub m: Loaded,
    pub list: MutantList,
    pub suite: Suite,
}

/// Reads the files of these names, each of which is judged whole before the next is read. A test
/// that states no budget gets this one, from 1 to `MAX_BUDGET`. `signs` are those of the ports. It
/// takes a buffer of `MAX_FILE_BYTES + 1` bytes.
pub(crate) fn load_files<F: Shelf>(
    alloc: Global,
    shelf: &mut F,
    module_name: &str,
    mutants: &str,
    tests: &str,
    budget: u64,
    signs: &[PortSign],
) -> Result<Subject, Stop>
    requires some { 1 ≤ budget }
    requires few_steps { budget ≤ MAX_BUDGET }
    requires few_signs { length signs.now < 2 ^ 32 }
    ensures read { IfOk result (λ s. AreRead (F.files shelf.old) signs.now budget module_name.now mutants.now tests.now s.m s.list s.suite) }
    ensures sound { IfOk result (λ s. IsSound s.m.code) }
    ensures signs { IfOk result (λ s. s.m.code.signs ≡ signs.now) }
    ensures table { IfOk result (λ s. FitsTable s.m.code s.list.variants) }
    ensures suite { IfOk result (λ s. FitsSuite s.m.code s.suite) }
    ensures err { IfErr result (λ stop. (counts : Counts) →
        Found (F.files shelf.old) (λ name. Rose (F.faults shelf.old name) (F.faults shelf.new name))
        (unread_plan signs.now budget module_name.now mutants.now tests.now) counts counts (Err stop)) }
    ensures kept { F.files shelf.new ≡ F.files shelf.old }
    ensures counts { (other : List ℕ) → F.faults shelf.old other ≤ F.faults shelf.new other }
{
    let Ok(mut buffer) = zeros(alloc, MAX_FILE_BYTES + 1) else {
        return Err(Stop::OutOfMemory);
    };
    let m = match load_module(alloc, shelf, module_name, &mut buffer, signs) {
        Ok(m) => m,
        Err(stop) => return Err(stop),
    };
    let list = match load_mutants(alloc, shelf, mutants, &mut buffer, &m, signs) {
        Ok(list) => list,
        Err(stop) => return Err(stop),
    };
    match load_tests(alloc, shelf, tests, &mut buffer, &m.code, budget) {
        Ok(suite) => Ok(Subject { m, list, suite }),
        Err(stop) => Err(stop),
    }
}
