//! What there is to look at, made and written.

ghost use Rattle.std.specs.Prelude.{◌≡◌, ℕ, ◌+◌, ◌≤◌, ◌<◌, ◌^◌, List, length};
ghost use Rattle.am_base.specs.Cause.{Rose};
ghost use Rattle.am_base.specs.declared.limits.TheConstants.{DEFAULT_BUDGET};
ghost use Rattle.ports.specs.Asks.{answers_in, asked_in};
ghost use Rattle.command_plan.specs.Answer.{IsAnswer};
ghost use Rattle.commands.specs.Alone.{counts_of};
ghost use Rattle.commands.specs.Number.{number_plan};
ghost use Rattle.commands.specs.Page.{page_plan};

use am_base::{DEFAULT_BUDGET, OutOfMemory, Shelf, Sink};
use command_plan::{Status, write_found};
use command_words::Files;
use commands::{number_found, page_found};
use exec_core::Meter;
use flat_machine::Ports;
use picker::Picker;
use std::alloc::Global;

/// Carries out `number`.
pub(crate) fn number_written<F: Shelf, K: Sink, P: Ports>(
    alloc: Global,
    shelf: &mut F,
    sink: &mut K,
    name: &str,
    ports: &P,
) -> Status
    requires { length (P.outside ports.now).signs < 2 ^ 32 }
    ensures answer { (steps : ℕ) → let counts = counts_of steps (asked_in (P.outside ports.now).asked) in
        IsAnswer (F.files shelf.old) (λ name. Rose (F.faults shelf.old name) (F.faults shelf.new name)) (number_plan (P.outside ports.now).signs name.now)
        counts counts (K.written sink.old) (K.written sink.new) (Rose (K.faults sink.old) (K.faults sink.new)) result }
    ensures kept { F.files shelf.new ≡ F.files shelf.old }
    ensures counts { (other : List ℕ) → F.faults shelf.old other ≤ F.faults shelf.new other }
    ensures sink_counts { K.faults sink.old ≤ K.faults sink.new }
{
    match ports.signs(alloc) {
        Err(OutOfMemory) => Status::OutOfMemory,
        Ok(signs) => {
            let found = number_found(alloc, shelf, name, signs.as_slice());
            write_found(sink, found)
        }
    }
}

/// Carries out `page`, and gives the ports back.
pub(crate) fn page_written<F: Shelf, K: Sink, P: Ports>(
    alloc: Global,
    shelf: &mut F,
    sink: &mut K,
    files: Files<&str>,
    ports: P,
    picker: &mut Box<dyn Picker>,
    meter: &mut Meter,
) -> (P, Status)
    requires few_signs { length (P.outside ports).signs < 2 ^ 32 }
    requires few { (p : ℕ) → asked_in (P.outside ports).asked p ≤ 2 ^ 62 }
    requires room { meter.old ≤ 2 ^ 62 }
    ensures answer { IsAnswer (F.files shelf.old) (λ name. Rose (F.faults shelf.old name) (F.faults shelf.new name))
        (page_plan (P.outside ports).signs (answers_in (P.outside ports).answers)
        DEFAULT_BUDGET files.entry.module.now files.entry.mutants.now files.entry.tests.now)
        (counts_of meter.old (asked_in (P.outside ports).asked))
        (counts_of meter.new (asked_in (P.outside result.0).asked))
        (K.written sink.old) (K.written sink.new) (Rose (K.faults sink.old) (K.faults sink.new)) result.1 }
    ensures signs { (P.outside result.0).signs ≡ (P.outside ports).signs }
    ensures answers { (P.outside result.0).answers ≡ (P.outside ports).answers }
    ensures kept { F.files shelf.new ≡ F.files shelf.old }
    ensures counts { (other : List ℕ) → F.faults shelf.old other ≤ F.faults shelf.new other }
    ensures sink_counts { K.faults sink.old ≤ K.faults sink.new }
{
    match ports.signs(alloc) {
        Err(OutOfMemory) => (ports, Status::OutOfMemory),
        Ok(signs) => {
            let (ports, found) = page_found(
                alloc,
                shelf,
                files.module,
                files.mutants,
                files.tests,
                DEFAULT_BUDGET,
                signs.as_slice(),
                ports,
                picker,
                meter,
            );
            (ports, write_found(sink, found))
        }
    }
}
