//! The commands, each carried out and written.

ghost use Rattle.std.specs.Prelude.{◌≡◌, ℕ, ◌+◌, ◌≤◌, ◌<◌, ◌^◌, List, length, Some};
ghost use Rattle.am_base.specs.Cause.{Rose};
ghost use Rattle.am_base.specs.Files.{Files as AllFiles};
ghost use Rattle.ports.specs.Asks.{answers_in, asked_in};
ghost use Rattle.command_words.specs.Words.{IsBudget};
ghost use Rattle.command_plan.specs.Answer.{IsAnswer};
ghost use Rattle.commands.specs.Alone.{counts_of};
ghost use Rattle.commands.specs.Plans.{alone_plan, check_plan, groups_plan, load_plan, make_plan, run_plan};
ghost use Rattle.accmut_app.specs.Commands.{steps_of};

use am_base::{DEFAULT_BUDGET, MAX_BUDGET, OutOfMemory, Shelf, Sink};
use command_plan::{Status, write_found};
use command_words::Files;
use commands::{
    Point, Wanted, alone_found, check_found, groups_found, load_found, make_found, run_found,
};
use exec_core::Meter;
use flat_machine::Ports;
use picker::Picker;
use std::alloc::Global;
use suite_analysis::Show;

/// The budget of tests that state none, in steps.
fn budget_or_default(budget: Option<u64>) -> u64
    requires { (n : ℕ) → budget ≡ Some n → IsBudget n }
    ensures value { result ≡ steps_of budget }
    ensures some { 1 ≤ result }
    ensures few { result ≤ MAX_BUDGET }
{
    match budget {
        Some(budget) => budget,
        None => DEFAULT_BUDGET,
    }
}

/// Carries out `check`.
pub(crate) fn check_written<F: Shelf, K: Sink, P: Ports>(
    alloc: Global,
    shelf: &mut F,
    sink: &mut K,
    name: &str,
    ports: &P,
) -> Status
    requires { length (P.outside ports.now).signs < 2 ^ 32 }
    ensures answer { (steps : ℕ) → let counts = counts_of steps (asked_in (P.outside ports.now).asked) in
        IsAnswer (F.files shelf.old) (λ name. Rose (F.faults shelf.old name) (F.faults shelf.new name)) (check_plan (P.outside ports.now).signs name.now)
        counts counts (K.written sink.old) (K.written sink.new) (Rose (K.faults sink.old) (K.faults sink.new)) result }
    ensures kept { F.files shelf.new ≡ F.files shelf.old }
    ensures counts { (other : List ℕ) → F.faults shelf.old other ≤ F.faults shelf.new other }
    ensures sink_counts { K.faults sink.old ≤ K.faults sink.new }
{
    match ports.signs(alloc) {
        Err(OutOfMemory) => Status::OutOfMemory,
        Ok(signs) => {
            let found = check_found(alloc, shelf, name, signs.as_slice());
            write_found(sink, found)
        }
    }
}

/// Carries out `make`.
pub(crate) fn make_written<F: Shelf, K: Sink, P: Ports>(
    alloc: Global,
    shelf: &mut F,
    sink: &mut K,
    name: &str,
    ports: &P,
) -> Status
    requires { length (P.outside ports.now).signs < 2 ^ 32 }
    ensures answer { (steps : ℕ) → let counts = counts_of steps (asked_in (P.outside ports.now).asked) in
        IsAnswer (F.files shelf.old) (λ name. Rose (F.faults shelf.old name) (F.faults shelf.new name)) (make_plan (P.outside ports.now).signs name.now)
        counts counts (K.written sink.old) (K.written sink.new) (Rose (K.faults sink.old) (K.faults sink.new)) result }
    ensures kept { F.files shelf.new ≡ F.files shelf.old }
    ensures counts { (other : List ℕ) → F.faults shelf.old other ≤ F.faults shelf.new other }
    ensures sink_counts { K.faults sink.old ≤ K.faults sink.new }
{
    match ports.signs(alloc) {
        Err(OutOfMemory) => Status::OutOfMemory,
        Ok(signs) => {
            let found = make_found(alloc, shelf, name, signs.as_slice());
            write_found(sink, found)
        }
    }
}

/// Carries out `alone`.
pub(crate) fn alone_written<F: Shelf, K: Sink, P: Ports>(
    alloc: Global,
    shelf: &mut F,
    sink: &mut K,
    files: Files<&str>,
    budget: Option<u64>,
    wanted: Wanted,
    ports: &mut P,
) -> Status
    requires budget { (n : ℕ) → budget ≡ Some n → IsBudget n }
    requires few_signs { length (P.outside ports.old).signs < 2 ^ 32 }
    requires few { (p : ℕ) → asked_in (P.outside ports.old).asked p ≤ 2 ^ 62 }
    ensures answer { (steps : ℕ) →
        IsAnswer (F.files shelf.old) (λ name. Rose (F.faults shelf.old name) (F.faults shelf.new name))
        (alone_plan (P.outside ports.old).signs (answers_in (P.outside ports.old).answers)
        (steps_of budget) files.entry.module.now files.entry.mutants.now
        files.entry.tests.now wanted)
        (counts_of steps (asked_in (P.outside ports.old).asked))
        (counts_of steps (asked_in (P.outside ports.new).asked))
        (K.written sink.old) (K.written sink.new) (Rose (K.faults sink.old) (K.faults sink.new)) result }
    ensures signs { (P.outside ports.new).signs ≡ (P.outside ports.old).signs }
    ensures answers { (P.outside ports.new).answers ≡ (P.outside ports.old).answers }
    ensures kept { F.files shelf.new ≡ F.files shelf.old }
    ensures counts { (other : List ℕ) → F.faults shelf.old other ≤ F.faults shelf.new other }
    ensures sink_counts { K.faults sink.old ≤ K.faults sink.new }
{
    match ports.signs(alloc) {
        Err(OutOfMemory) => Status::OutOfMemory,
        Ok(signs) => {
            let found = alone_found(
                alloc,
                shelf,
                files.module,
                files.mutants,
                files.tests,
                budget_or_default(budget),
                wanted,
                signs.as_slice(),
                ports,
            );
            write_found(sink, found)
        }
    }
}

/// Carries out `run` or `reduce`, and gives the ports back.
pub(crate) fn run_written<F: Shelf, K: Sink, P: Ports>(
    alloc: Global,
    shelf: &mut F,
    sink: &mut K,
    files: Files<&str>,
    budget: Option<u64>,
    show: Show,
    ports: P,
    picker: &mut Box<dyn Picker>,
    meter: &mut Meter,
) -> (P, Status)
    requires budget { (n : ℕ) → budget ≡ Some n → IsBudget n }
    requires few_signs { length (P.outside ports).signs < 2 ^ 32 }
    requires few { (p : ℕ) → asked_in (P.outside ports).asked p ≤ 2 ^ 62 }
    requires room { meter.old ≤ 2 ^ 62 }
    ensures answer { IsAnswer (F.files shelf.old) (λ name. Rose (F.faults shelf.old name) (F.faults shelf.new name))
        (run_plan (P.outside ports).signs (answers_in (P.outside ports).answers)
        (steps_of budget) files.entry.module.now files.entry.mutants.now
        files.entry.tests.now show)
        (counts_of meter.old (asked_in (P.outside ports).asked))
        (counts_of meter.new (asked_in (P.outside result.0).asked))
        (K.written sink.old) (K.written sink.new) (Rose (K.faults sink.old) (K.faults sink.new)) result.1 }
    ensures signs { (P.outside result.0).signs ≡ (P.outside ports).signs }
    ensures answers { (P.outside result.0).answers ≡ (P.outside ports).answers }
    ensures kept { F.files shelf.new ≡ F.files shelf.old }
    ensures counts { (other : List ℕ) → F.faults shelf.old other ≤ F.faults shelf.new other }
    ensures sink_counts { K.faults sink.old ≤ K.faults sink.new }
{
    match ports.signs(alloc) {
        Err(OutOfMemory) => (ports, Status::OutOfMemory),
        Ok(signs) => {
            let (ports, found) = run_found(
                alloc,
                shelf,
                files.module,
                files.mutants,
                files.tests,
                budget_or_default(budget),
                show,
                signs.as_slice(),
                ports,
                picker,
                meter,
            );
            (ports, write_found(sink, found))
        }
    }
}

/// Carries out `groups`, and gives the ports back.
pub(crate) fn groups_written<F: Shelf, K: Sink, P: Ports>(
    alloc: Global,
    shelf: &mut F,
    sink: &mut K,
    files: Files<&str>,
    budget: Option<u64>,
    point: Point,
    ports: P,
    picker: &mut Box<dyn Picker>,
    meter: &mut Meter,
) -> (P, Status)
    requires budget { (n : ℕ) → budget ≡ Some n → IsBudget n }
    requires few_signs { length (P.outside ports).signs < 2 ^ 32 }
    requires few { (p : ℕ) → asked_in (P.outside ports).asked p ≤ 2 ^ 62 }
    requires room { meter.old ≤ 2 ^ 62 }
    ensures answer { IsAnswer (F.files shelf.old) (λ name. Rose (F.faults shelf.old name) (F.faults shelf.new name))
        (groups_plan (P.outside ports).signs (answers_in (P.outside ports).answers)
        (steps_of budget) files.entry.module.now files.entry.mutants.now
        files.entry.tests.now point)
        (counts_of meter.old (asked_in (P.outside ports).asked))
        (counts_of meter.new (asked_in (P.outside result.0).asked))
        (K.written sink.old) (K.written sink.new) (Rose (K.faults sink.old) (K.faults sink.new)) result.1 }
    ensures signs { (P.outside result.0).signs ≡ (P.outside ports).signs }
    ensures answers { (P.outside result.0).answers ≡ (P.outside ports).answers }
    ensures kept { F.files shelf.new ≡ F.files shelf.old }
    ensures counts { (other : List ℕ) → F.faults shelf.old other ≤ F.faults shelf.new other }
    ensures sink_counts { K.faults sink.old ≤ K.faults sink.new }
{
    match ports.signs(alloc) {
        Err(OutOfMemory) => (ports, Status::OutOfMemory),
        Ok(signs) => {
            let (ports, found) = groups_found(
                alloc,
                shelf,
                files.module,
                files.mutants,
                files.tests,
                budget_or_default(budget),
                point,
                signs.as_slice(),
                ports,
                picker,
                meter,
            );
            (ports, write_found(sink, found))
        }
    }
}

/// Carries out `load`.
pub(crate) fn load_written<K: Sink>(
    alloc: Global,
    sink: &mut K,
    number: u64,
    picker: &mut Box<dyn Picker>,
    meter: &mut Meter,
) -> Status
    requires room { meter.old ≤ 2 ^ 62 }
    ensures answer { (files : AllFiles) (before after : List ℕ → ℕ) (asks : ℕ → ℕ) →
        IsAnswer files (λ name. Rose (before name) (after name)) (load_plan number) (counts_of meter.old asks) (counts_of meter.new asks)
        (K.written sink.old) (K.written sink.new) (Rose (K.faults sink.old) (K.faults sink.new)) result }
    ensures sink_counts { K.faults sink.old ≤ K.faults sink.new }
{
    let found = load_found(alloc, number, picker, meter);
    write_found(sink, found)
}
