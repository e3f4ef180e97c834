//! The test suite of a command.

ghost use Rattle.std.specs.Prelude.{◌≡◌, ℕ, ◌+◌, ◌≤◌, List, length, IfOk, IfErr};
ghost use Rattle.am_base.specs.Cause.{Rose};
ghost use Rattle.code_form.specs.Sound.{IsSound};
ghost use Rattle.test_suite.specs.Suite.{FitsSuite};
ghost use Rattle.command_plan.specs.declared.status.Input.TheVariants as input;
ghost use Rattle.command_plan.specs.Answer.{Fails, Says};
ghost use Rattle.command_plan.specs.Plan.{Reads};
ghost use Rattle.command_files.specs.Tests.{AreTests, AreRefused};

use am_base::{MAX_BUDGET, MAX_FILE_BYTES, Shelf};
use code_form::Code;
use command_plan::{Input, Stop, read_file};
use refused_lines::refused_tests_line;
use std::alloc::Global;
use test_suite::{Suite, read_tests};

/// The tests that a text is, or its refusal.
fn tests_of(alloc: Global, text: &[u8], code: &Code, budget: u64) -> Result<Suite, Stop>
    requires sound { IsSound code.now }
    requires some { 1 ≤ budget }
    requires few { budget ≤ MAX_BUDGET }
    ensures accepted { IfOk result (AreTests code.now budget text.now) }
    ensures fits { IfOk result (FitsSuite code.now) }
    ensures refused { IfErr result (Says input.Tests (AreRefused code.now budget text.now)) }
{
    match read_tests(alloc, text, code, budget) {
        Ok(suite) => Ok(suite),
        Err(error) => Err(Stop::refusal(Input::Tests, refused_tests_line(alloc, error))),
    }
}

/// Reads the test suite of a name by way of a buffer of `MAX_FILE_BYTES + 1` bytes. A test whose
/// record states no budget gets this one, from 1 to `MAX_BUDGET`.
pub fn load_tests<F: Shelf>(
    alloc: Global,
    shelf: &mut F,
    name: &str,
    buffer: &mut [u8],
    code: &Code,
    budget: u64,
) -> Result<Suite, Stop>
    requires buffer { length buffer.old ≡ MAX_FILE_BYTES + 1 }
    requires sound { IsSound code.now }
    requires some { 1 ≤ budget }
    requires few { budget ≤ MAX_BUDGET }
    ensures ok { IfOk result (λ suite. Reads (F.files shelf.old) name.now (λ file. AreTests code.now budget file suite)) }
    ensures fits { IfOk result (FitsSuite code.now) }
    ensures err { IfErr result (Fails (F.files shelf.old) name.now (Rose (F.faults shelf.old name.now) (F.faults shelf.new name.now))
        input.Tests (AreRefused code.now budget)) }
    ensures kept { F.files shelf.new ≡ F.files shelf.old }
    ensures counts { (other : List ℕ) → F.faults shelf.old other ≤ F.faults shelf.new other }
{
    let len = match read_file(shelf, name, buffer) {
        Ok(len) => len,
        Err(stop) => return Err(stop),
    };
    tests_of(alloc, &buffer[..len], code, budget)
}
