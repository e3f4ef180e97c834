//! `accmut`: the words, the answer and what is written.

ghost use Rattle.std.specs.Prelude.{◌≡◌, ℕ, ◌+◌, ◌≤◌, ◌<◌, ◌^◌, List, [], length, map};
ghost use Rattle.ports.specs.Asks.{asked_in};
ghost use Rattle.command_words.specs.Words.{texts_of};
ghost use Rattle.accmut_app.specs.Call.{Devices, IsCall};
ghost use Rattle.accmut_app.specs.Commands.{asked_for, names_asked};

use crate::call::accmut_over;
use crate::own_ports::OwnPorts;
use am_base::{Shelf, Sink};
use command_plan::Status;
use exec_core::Meter;
use picker::Picker;
use ports::Port;
use std::alloc::Global;
use std::mem;

/// Carries out what the words after the program's name ask for: `run`, `check`, `make`, `alone`,
/// `groups`, `reduce` or `load`, as `command_words::command_of` reads them. `Usage` comes iff they are no
/// command, or the picker that the command wants isn't among `pickers`; then nothing is written and
/// no count rises.
///
/// The files that the words name are read from the shelf in the order module, mutants, tests, each
/// judged whole before the next is read; the first that can't be read (`ReadFault`), has more than
/// `MAX_FILE_BYTES` bytes (`TooLong`) or isn't accepted decides, then a mutant or a test that is
/// wanted and isn't there, then, for `make`, more than `MAX_LISTED_MUTANTS` mutants (`TooMany`). The
/// text of the command, or the line of a refusal, is built whole before the first write; where the
/// sink fails (`WriteFault`) a proper prefix of it was written. `OutOfMemory` may be returned at any
/// time, and nothing is written then. `load` runs over files of its own, and without the ports.
///
/// The first picker of the wanted name is used, and all of them are dropped. Of two ports with one
/// name the first counts; the ports are given back in their order. `call` says all of this of what
/// is seen before the call and after it (`specs/Call.antt`): in it `answer` is the table of what
/// each status says of the plan of the command. `unread`: where no file is named the shelf isn't
/// called.
pub fn accmut<F: Shelf, K: Sink>(
    alloc: Global,
    words: &[String],
    shelf: &mut F,
    sink: &mut K,
    pickers: Vec<Box<dyn Picker>>,
    ports: &mut Vec<Box<dyn Port>>,
    meter: &mut Meter,
) -> Status
    requires few_signs { length ports.old.items < 2 ^ 32 }
    requires few { (p : ℕ) → asked_in (map (λ q. asked q) ports.old.items) p ≤ 2 ^ 62 }
    requires room { meter.old ≤ 2 ^ 62 }
    ensures call { let before : Devices = record {
      files = F.files shelf.old;
      written = K.written sink.old;
      faults = F.faults shelf.old;
      sink_faults = K.faults sink.old;
      ports = record {
        signs = map (λ q. sign q) ports.old.items;
        answers = map (λ q. answers q) ports.old.items;
        asked = map (λ q. asked q) ports.old.items;
      };
      steps = meter.old;
    } in
        let after : Devices = record {
          files = F.files shelf.new;
          written = K.written sink.new;
          faults = F.faults shelf.new;
          sink_faults = K.faults sink.new;
          ports = record {
            signs = map (λ q. sign q) ports.new.items;
            answers = map (λ q. answers q) ports.new.items;
            asked = map (λ q. asked q) ports.new.items;
          };
          steps = meter.new;
        } in
        IsCall (asked_for (map (λ q. named q) pickers.items) (texts_of words.now)) before after result }
    ensures unread { names_asked (asked_for (map (λ q. named q) pickers.items) (texts_of words.now)) ≡ [] → shelf.new ≡ shelf.old }
{
    let all = mem::replace(ports, Vec::new(alloc));
    let (own, status) = accmut_over(alloc, words, shelf, sink, pickers, OwnPorts { all }, meter);
    let OwnPorts { all } = own;
    *ports = all;
    status
}
