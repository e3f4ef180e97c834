//! `accmut_view`: the words, the answer and what is written.

ghost use Rattle.std.specs.Prelude.{◌≡◌, ℕ, ◌+◌, ◌≤◌, ◌<◌, ◌^◌, List, [], length, map};
ghost use Rattle.ports.specs.Asks.{asked_in};
ghost use Rattle.command_words.specs.Words.{texts_of};
ghost use Rattle.accmut_app.specs.Call.{Devices};
ghost use Rattle.accmut_app.specs.View.{IsViewCall, view_names_of};
ghost use Rattle.accmut_app.specs.ViewWords as spec;

use crate::own_ports::OwnPorts;
use crate::view_words::{ViewCommand, view_command_of};
use crate::view_written::{number_written, page_written};
use am_base::{Shelf, Sink};
use command_plan::Status;
use exec_core::Meter;
use flat_machine::Ports;
use picker::Picker;
use ports::Port;
use std::alloc::Global;
use std::mem;

/// `accmut_view` over any ports, which it gives back.
fn view_over<F: Shelf, K: Sink, P: Ports>(
    alloc: Global,
    words: &[String],
    shelf: &mut F,
    sink: &mut K,
    picker: &mut Box<dyn Picker>,
    ports: P,
    meter: &mut Meter,
) -> (P, Status)
    requires few_signs { length (P.outside ports).signs < 2 ^ 32 }
    requires few { (p : ℕ) → asked_in (P.outside ports).asked p ≤ 2 ^ 62 }
    requires room { meter.old ≤ 2 ^ 62 }
    ensures call { let before : Devices = record {
      files = F.files shelf.old;
      written = K.written sink.old;
      faults = F.faults shelf.old;
      sink_faults = K.faults sink.old;
      ports = P.outside ports;
      steps = meter.old;
    } in
        let after : Devices = record {
          files = F.files shelf.new;
          written = K.written sink.new;
          faults = F.faults shelf.new;
          sink_faults = K.faults sink.new;
          ports = P.outside result.0;
          steps = meter.new;
        } in
        IsViewCall (spec.view_command_of (texts_of words.now)) before after result.1 }
    ensures unread { view_names_of (spec.view_command_of (texts_of words.now)) ≡ [] → shelf.new ≡ shelf.old }
{
    let Some(command) = view_command_of(words) else {
        return (ports, Status::Usage);
    };
    match command {
        ViewCommand::Number { module: name } => {
            let status = number_written(alloc, shelf, sink, name, &ports);
            (ports, status)
        }
        ViewCommand::Page { files } => page_written(
            alloc, shelf, sink, files, ports, picker, meter,
        ),
    }
}

/// Carries out what the words after the program's name ask for: `number MODULE`, the instructions of
/// a module with their numbers in the form of a list of mutants, or `page MODULE MUTANTS TESTS`, the
/// report over three files as a page. `Usage` comes iff they are neither; then nothing is written
/// and no count rises.
///
/// The files that the words name are read, judged and refused as `accmut` does; `call` says so by
/// the same table of answers, over the plan of what is asked for. The picker chooses the order of
/// the turns, which no page depends on. The ports are given back in their order. `unread`: where no
/// file is named the shelf isn't called.
pub fn accmut_view<F: Shelf, K: Sink>(
    alloc: Global,
    words: &[String],
    shelf: &mut F,
    sink: &mut K,
    picker: &mut Box<dyn Picker>,
    ports: &mut Vec<Box<dyn Port>>,
    meter: &mut Meter,
) -> Status
    requires few_signs { length ports.old.items < 2 ^ 32 }
    requires few { (p : ℕ) → asked_in (map (λ q. asked q) ports.old.items) p ≤ 2 ^ 62 }
    requires room { meter.old ≤ 2 ^ 62 }
    ensures call { let before : Devices = record {
      files = F.files shelf.old;
      written = K.written sink.old;
      faults = F.faults shelf.old;
      sink_faults = K.faults sink.old;
      ports = record {
        signs = map (λ q. sign q) ports.old.items;
        answers = map (λ q. answers q) ports.old.items;
        asked = map (λ q. asked q) ports.old.items;
      };
      steps = meter.old;
    } in
        let after : Devices = record {
          files = F.files shelf.new;
          written = K.written sink.new;
          faults = F.faults shelf.new;
          sink_faults = K.faults sink.new;
          ports = record {
            signs = map (λ q. sign q) ports.new.items;
            answers = map (λ q. answers q) ports.new.items;
            asked = map (λ q. asked q) ports.new.items;
          };
          steps = meter.new;
        } in
        IsViewCall (spec.view_command_of (texts_of words.now)) before after result }
    ensures unread { view_names_of (spec.view_command_of (texts_of words.now)) ≡ [] → shelf.new ≡ shelf.old }
{
    let all = mem::replace(ports, Vec::new(alloc));
    let (own, status) = view_over(alloc, words, shelf, sink, picker, OwnPorts { all }, meter);
    let OwnPorts { all } = own;
    *ports = all;
    status
}
