//! A command carried out: those that want no picker, and those that do.

ghost use Rattle.std.specs.Prelude.{◌≡◌, ℕ, ◌+◌, ◌≤◌, ◌<◌, ◌^◌, List, length, IsSome, None, Some};
ghost use Rattle.am_base.specs.Cause.{Rose};
ghost use Rattle.ports.specs.Asks.{asked_in};
ghost use Rattle.command_words.specs.Words as spec;
ghost use Rattle.command_words.specs.Words.{IsBudget, meant};
ghost use Rattle.command_words.specs.declared.command.Command.TheVariants.{Load};
ghost use Rattle.command_plan.specs.Answer.{IsAnswer};
ghost use Rattle.commands.specs.Alone.{counts_of};
ghost use Rattle.accmut_app.specs.Commands.{plan_of};

use crate::written::{
    alone_written, check_written, groups_written, load_written, make_written, run_written,
};
use am_base::{Shelf, Sink};
use command_plan::Status;
use command_words::Command;
use commands::{Point, Wanted};
use exec_core::Meter;
use flat_machine::Ports;
use picker::Picker;
use std::alloc::Global;
use suite_analysis::Show;

/// Carries out a command that wants no picker. It meters no step.
pub(crate) fn without_picker<F: Shelf, K: Sink, P: Ports>(
    alloc: Global,
    command: Command<&str>,
    shelf: &mut F,
    sink: &mut K,
    ports: &mut P,
) -> Status
    requires wants_none { spec.wanted (meant command) ≡ None }
    requires budget { (n : ℕ) → spec.budget_of (meant command) ≡ Some n → IsBudget n }
    requires few_signs { length (P.outside ports.old).signs < 2 ^ 32 }
    requires few { (p : ℕ) → asked_in (P.outside ports.old).asked p ≤ 2 ^ 62 }
    ensures answer { (steps : ℕ) →
        IsAnswer (F.files shelf.old) (λ name. Rose (F.faults shelf.old name) (F.faults shelf.new name))
        (plan_of (P.outside ports.old).signs (P.outside ports.old).answers (meant command.entry))
        (counts_of steps (asked_in (P.outside ports.old).asked))
        (counts_of steps (asked_in (P.outside ports.new).asked))
        (K.written sink.old) (K.written sink.new) (Rose (K.faults sink.old) (K.faults sink.new)) result }
    ensures signs { (P.outside ports.new).signs ≡ (P.outside ports.old).signs }
    ensures answers { (P.outside ports.new).answers ≡ (P.outside ports.old).answers }
    ensures kept { F.files shelf.new ≡ F.files shelf.old }
    ensures counts { (other : List ℕ) → F.faults shelf.old other ≤ F.faults shelf.new other }
    ensures sink_counts { K.faults sink.old ≤ K.faults sink.new }
{
    match command {
        Command::Check { module: name } => check_written(alloc, shelf, sink, name, ports),
        Command::Make { module: name } => make_written(alloc, shelf, sink, name, ports),
        Command::Alone {
            files,
            mutant,
            test,
            budget,
        } => {
            let wanted = Wanted { mutant, test };
            alone_written(alloc, shelf, sink, files, budget, wanted, ports)
        }
        Command::Run { .. }
        | Command::Groups { .. }
        | Command::Reduce { .. }
        | Command::Load { .. } => unreachable!(),
    }
}

/// Carries out a command that wants a picker, with this one, and gives the ports back.
pub(crate) fn with_picker<F: Shelf, K: Sink, P: Ports>(
    alloc: Global,
    command: Command<&str>,
    shelf: &mut F,
    sink: &mut K,
    ports: P,
    picker: &mut Box<dyn Picker>,
    meter: &mut Meter,
) -> (P, Status)
    requires wants_one { IsSome (spec.wanted (meant command)) }
    requires budget { (n : ℕ) → spec.budget_of (meant command) ≡ Some n → IsBudget n }
    requires few_signs { length (P.outside ports).signs < 2 ^ 32 }
    requires few { (p : ℕ) → asked_in (P.outside ports).asked p ≤ 2 ^ 62 }
    requires room { meter.old ≤ 2 ^ 62 }
    ensures answer { IsAnswer (F.files shelf.old) (λ name. Rose (F.faults shelf.old name) (F.faults shelf.new name))
        (plan_of (P.outside ports).signs (P.outside ports).answers (meant command.entry))
        (counts_of meter.old (asked_in (P.outside ports).asked))
        (counts_of meter.new (asked_in (P.outside result.0).asked))
        (K.written sink.old) (K.written sink.new) (Rose (K.faults sink.old) (K.faults sink.new)) result.1 }
    ensures unread { (number : ℕ) → meant command.entry ≡ Load number →
        shelf.new ≡ shelf.old }
    ensures untouched { (number : ℕ) → meant command.entry ≡ Load number →
        ((name : List ℕ) → F.faults shelf.new name ≡ F.faults shelf.old name)
        × ((p : ℕ) → asked_in (P.outside result.0).asked p ≡ asked_in (P.outside ports).asked p) }
    ensures signs { (P.outside result.0).signs ≡ (P.outside ports).signs }
    ensures answers { (P.outside result.0).answers ≡ (P.outside ports).answers }
    ensures kept { F.files shelf.new ≡ F.files shelf.old }
    ensures counts { (other : List ℕ) → F.faults shelf.old other ≤ F.faults shelf.new other }
    ensures sink_counts { K.faults sink.old ≤ K.faults sink.new }
{
    match command {
        Command::Run {
            files,
            budget,
            splits,
            ..
        } => {
            let show = Show::Report {
                with_splits: splits,
            };
            run_written(
                alloc, shelf, sink, files, budget, show, ports, picker, meter,
            )
        }
        Command::Reduce { files, budget, .. } => {
            let show = Show::Reduced;
            run_written(
                alloc, shelf, sink, files, budget, show, ports, picker, meter,
            )
        }
        Command::Groups {
            files,
            test,
            step,
            budget,
            ..
        } => {
            let point = Point { test, step };
            groups_written(
                alloc, shelf, sink, files, budget, point, ports, picker, meter,
            )
        }
        Command::Load { number } => (ports, load_written(alloc, sink, number, picker, meter)),
        Command::Check { .. } | Command::Make { .. } | Command::Alone { .. } => unreachable!(),
    }
}
