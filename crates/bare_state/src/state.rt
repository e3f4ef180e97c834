//! The state without its memory, and what is read off it.
ghost use Rattle.std.specs.Prelude.{◌≡◌, ◌<◌, ◌^◌, [], length, slice_get, is_some, None, IfOk};
ghost use Rattle.machine_form.specs.State.{registers_in_use};
ghost use Rattle.machine_form.specs.Straight.{value_of};
ghost use Rattle.machine_form.specs.Start.{opening_of};
ghost use Rattle.machine_form.specs.Machine.{outcome_at};

use crate::mark::Mark;
use am_base::{Ending, OutOfMemory, Outcome};
use am_lists::Items;
use code_form::Operand;
use std::alloc::Global;
use std::marker::Model;

/// A state of a run but for its memory, with one vector for the registers of all frames. Contracts
/// see it as a state with no bytes, and its room.
#[derive(Drop)]
pub struct Bare {
    pub(crate) running: Mark,
    /// The newest last.
    pub(crate) callers: Vec<Mark>,
    /// Those of the running frame last.
    pub(crate) registers: Vec<Option<u64>>,
    pub(crate) top: u32,
    pub(crate) output: Vec<u8>,
    pub(crate) input: Vec<u8>,
    pub(crate) position: u32,
    pub(crate) ending: Option<Ending>,
}

impl Model for Bare {
    ghost use Rattle.std.specs.Prelude.{◌≤◌, ◌-◌, [], length, reverse, drop, take, vec_capacity};
    ghost use Rattle.bare_state.specs.Room.{Shown};
    ghost use Rattle.bare_state.specs.Frames.{frame_at, callers_in, AreNested};

    ghost Value = { Shown };

    ghost view = { λ s. record {
      state = record {
        running = frame_at s.running (drop s.running.base s.registers.items);
        callers = callers_in (reverse s.callers.items) (take s.running.base s.registers.items);
        bytes = [];
        top = s.top;
        output = s.output.items;
        input = s.input.items;
        position = s.position;
        ending = s.ending;
      };
      room = record {
        output = vec_capacity s.output - length s.output.items;
        frames = vec_capacity s.callers - length s.callers.items;
        registers = vec_capacity s.registers - length s.registers.items;
      };
    } };

    ghost invariant = { λ s. (s.running.base ≤ length s.registers.items) × AreNested (reverse s.callers.items) s.running.base };
}

impl Bare {
    /// A state with one frame, in which nothing was done yet: its registers and its place, the stack
    /// top, and the input.
    pub fn opening(
        alloc: Global,
        place: u32,
        registers: Vec<Option<u64>>,
        top: u32,
        input: Vec<u8>,
    ) -> Bare
        ensures { result.state ≡ opening_of (record { place = place; registers = registers.items; result = None; restores = top }) [] top input.items }
    {
        Bare {
            running: Mark {
                place,
                base: 0,
                result: None,
                restores: top,
            },
            callers: Vec::new(alloc),
            registers,
            top,
            output: Vec::new(alloc),
            input,
            position: 0,
            ending: None,
        }
    }

    /// The place where the running frame stands.
    pub fn place(&self) -> u32
        ensures { result ≡ self.now.state.running.place }
    {
        self.running.place
    }

    /// Whether the run is over.
    pub fn has_ended(&self) -> bool
        ensures { result ≡ is_some self.now.state.ending }
    {
        self.ending.is_some()
    }

    /// The stack top, a byte address.
    pub fn top(&self) -> u32
        ensures { result ≡ self.now.state.top }
    {
        self.top
    }

    /// How many frames the running one has below it.
    pub fn callers(&self) -> usize
        ensures { result ≡ length self.now.state.callers }
    {
        self.callers.len()
    }

    /// How many registers all frames have.
    pub fn words(&self) -> u64
        ensures value { result ≡ registers_in_use self.now.state }
        ensures few { result < 2 ^ 63 }
    {
        self.registers.len() as u64
    }

    /// The register of the caller that gets the word that the running frame returns.
    pub fn result(&self) -> Option<u32>
        ensures { result ≡ self.now.state.running.result }
    {
        self.running.result
    }

    /// The stack top that a return from the running frame restores, a byte address.
    pub fn restores(&self) -> u32
        ensures { result ≡ self.now.state.running.restores }
    {
        self.running.restores
    }

    /// The word that an operand has, where it is set.
    pub fn value(&self, a: Operand) -> Option<u64>
        ensures { result ≡ value_of self.now.state a }
    {
        match a {
            Operand::Reg(r) => {
                let registers = &self.registers.as_slice()[self.running.base..];
                let r = r as usize;
                if r < registers.len() {
                    registers[r]
                } else {
                    None
                }
            }
            Operand::Word(word) => Some(word),
        }
    }

    /// How many bytes were put out.
    pub fn output_len(&self) -> usize
        ensures { result ≡ length self.now.state.output }
    {
        self.output.len()
    }

    /// The next byte of the input, if there is one.
    pub fn next_input(&self) -> Option<u8>
        ensures { result ≡ slice_get self.now.state.input self.now.state.position }
    {
        self.input.get(self.position as usize).copied()
    }

    /// What a run shows that stopped in this state. It is refused only for want of memory.
    pub fn outcome(&self, alloc: Global) -> Result<Outcome, OutOfMemory>
        ensures { IfOk result (λ o. o ≡ outcome_at self.now.state) }
    {
        Ok(Outcome {
            ending: self.ending.unwrap_or(Ending::Budget),
            output: Items::from_slice(alloc, self.output.as_slice())?,
        })
    }

    /// Another state that stands for the same. Its room is what it happens to have. It is refused
    /// only for want of memory.
    pub fn copy(&self, alloc: Global) -> Result<Bare, OutOfMemory>
        ensures { IfOk result (λ t. t.state ≡ self.now.state) }
    {
        Ok(Bare {
            running: self.running,
            callers: Vec::from_slice(alloc, self.callers.as_slice())?,
            registers: Vec::from_slice(alloc, self.registers.as_slice())?,
            top: self.top,
            output: Vec::from_slice(alloc, self.output.as_slice())?,
            input: Vec::from_slice(alloc, self.input.as_slice())?,
            position: self.position,
            ending: self.ending,
        })
    }
}
