//! The top call over any ports.

ghost use Rattle.std.specs.Prelude.{◌≡◌, ℕ, ◌+◌, ◌≤◌, ◌<◌, ◌^◌, List, [], length, map};
ghost use Rattle.ports.specs.Asks.{asked_in};
ghost use Rattle.command_words.specs.Words.{texts_of};
ghost use Rattle.accmut_app.specs.Call.{Devices, IsCall};
ghost use Rattle.accmut_app.specs.Commands.{asked_for, names_asked};

use crate::carried::{with_picker, without_picker};
use crate::picking::first_named;
use am_base::{Shelf, Sink};
use command_plan::Status;
use command_words::{command_of, wanted};
use exec_core::Meter;
use flat_machine::Ports;
use picker::Picker;
use std::alloc::Global;

/// `accmut` over any ports, which it gives back.
pub(crate) fn accmut_over<F: Shelf, K: Sink, P: Ports>(
    alloc: Global,
    words: &[String],
    shelf: &mut F,
    sink: &mut K,
    pickers: Vec<Box<dyn Picker>>,
    ports: P,
    meter: &mut Meter,
) -> (P, Status)
    requires few_signs { length (P.outside ports).signs < 2 ^ 32 }
    requires few { (p : ℕ) → asked_in (P.outside ports).asked p ≤ 2 ^ 62 }
    requires room { meter.old ≤ 2 ^ 62 }
    ensures call { let before : Devices = record {
      files = F.files shelf.old;
      written = K.written sink.old;
      faults = F.faults shelf.old;
      sink_faults = K.faults sink.old;
      ports = P.outside ports;
      steps = meter.old;
    } in
        let after : Devices = record {
          files = F.files shelf.new;
          written = K.written sink.new;
          faults = F.faults shelf.new;
          sink_faults = K.faults sink.new;
          ports = P.outside result.0;
          steps = meter.new;
        } in
        IsCall (asked_for (map (λ q. named q) pickers.items) (texts_of words.now)) before after result.1 }
    ensures unread { names_asked (asked_for (map (λ q. named q) pickers.items) (texts_of words.now)) ≡ [] → shelf.new ≡ shelf.old }
{
    let Some(command) = command_of(words) else {
        return (ports, Status::Usage);
    };
    match wanted(&command) {
        None => {
            let mut held = ports;
            let status = without_picker(alloc, command, shelf, sink, &mut held);
            (held, status)
        }
        Some(name) => match first_named(pickers, name) {
            None => (ports, Status::Usage),
            Some(mut picker) => {
                with_picker(alloc, command, shelf, sink, ports, &mut picker, meter)
            }
        },
    }
}
