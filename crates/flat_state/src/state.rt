//! The state, and what is read off it.
ghost use Rattle.std.specs.Prelude.{◌≡◌, ◌<◌, ◌≤◌, ◌-◌, ◌^◌, ◌++◌, length, slice_get, is_some, None, IfOk};
ghost use Rattle.machine_form.specs.State.{registers_in_use};
ghost use Rattle.machine_form.specs.Straight.{value_of};
ghost use Rattle.machine_form.specs.Start.{zeros, opening_of};
ghost use Rattle.machine_form.specs.Machine.{outcome_at};

use crate::mark::Mark;
use am_base::{Ending, MEMORY_BYTES, OutOfMemory, Outcome};
use am_lists::Items;
use code_form::Operand;
use std::alloc::Global;
use std::marker::Model;

/// A state with one vector for the registers of all frames. Contracts see what it stands for, and
/// its room.
#[derive(Drop)]
pub struct Flat {
    pub(crate) running: Mark,
    /// The newest last.
    pub(crate) callers: Vec<Mark>,
    /// Those of the running frame last.
    pub(crate) registers: Vec<Option<u64>>,
    /// The bytes of memory below some address; all above are 0.
    pub(crate) bytes: Vec<u8>,
    pub(crate) top: u32,
    pub(crate) output: Vec<u8>,
    pub(crate) input: Vec<u8>,
    pub(crate) position: u32,
    pub(crate) ending: Option<Ending>,
}

impl Model for Flat {
    ghost use Rattle.std.specs.Prelude.{◌≤◌, ◌-◌, ◌++◌, length, reverse, drop, take, vec_capacity};
    ghost use Rattle.am_base.specs.declared.limits.TheConstants.{MEMORY_BYTES};
    ghost use Rattle.machine_form.specs.Start.{zeros};
    ghost use Rattle.flat_state.specs.Room.{Shown};
    ghost use Rattle.flat_state.specs.Frames.{frame_at, callers_in, AreNested};

    ghost Value = { Shown };

    ghost view = { λ s. record {
      state = record {
        running = frame_at s.running (drop s.running.base s.registers.items);
        callers = callers_in (reverse s.callers.items) (take s.running.base s.registers.items);
        bytes = s.bytes.items ++ zeros (MEMORY_BYTES - length s.bytes.items);
        top = s.top;
        output = s.output.items;
        input = s.input.items;
        position = s.position;
        ending = s.ending;
      };
      room = record {
        output = vec_capacity s.output - length s.output.items;
        frames = vec_capacity s.callers - length s.callers.items;
        registers = vec_capacity s.registers - length s.registers.items;
        memory = length s.bytes.items;
      };
    } };

    ghost invariant = { λ s. (s.running.base ≤ length s.registers.items) × (s.top ≤ length s.bytes.items) × (length s.bytes.items ≤ MEMORY_BYTES)
        × AreNested (reverse s.callers.items) s.running.base };
}

impl Flat {
    /// A state with one frame, in which nothing was done yet: its registers and its place, the bytes
    /// of memory below the stack top, and the input.
    pub fn opening(
        alloc: Global,
        place: u32,
        registers: Vec<Option<u64>>,
        bytes: Vec<u8>,
        top: u32,
        input: Vec<u8>,
    ) -> Flat
        requires top { top ≤ length bytes.items }
        requires memory { length bytes.items ≤ MEMORY_BYTES }
        ensures { result.state ≡ opening_of (record { place = place; registers = registers.items; result = None; restores = top }) (bytes.items ++ zeros (MEMORY_BYTES - length bytes.items)) top input.items }
    {
        Flat {
            running: Mark {
                place,
                base: 0,
                result: None,
                restores: top,
            },
            callers: Vec::new(alloc),
            registers,
            bytes,
            top,
            output: Vec::new(alloc),
            input,
            position: 0,
            ending: None,
        }
    }

    /// The place where the running frame stands.
    pub fn place(&self) -> u32
        ensures { result ≡ self.now.state.running.place }
    {
        self.running.place
    }

    /// Whether the run is over.
    pub fn has_ended(&self) -> bool
        ensures { result ≡ is_some self.now.state.ending }
    {
        self.ending.is_some()
    }

    /// The stack top, a byte address.
    pub fn top(&self) -> u32
        ensures { result ≡ self.now.state.top }
    {
        self.top
    }

    /// How many frames the running one has below it.
    pub fn callers(&self) -> usize
        ensures { result ≡ length self.now.state.callers }
    {
        self.callers.len()
    }

    /// How many registers all frames have.
    pub fn words(&self) -> u64
        ensures value { result ≡ registers_in_use self.now.state }
        ensures few { result < 2 ^ 63 }
    {
        self.registers.len() as u64
    }

    /// The bytes of memory that are kept, from address 0 to the stack top or above. All bytes above
    /// them are 0.
    pub fn kept(&self) -> &[u8]
        ensures memory { self.now.state.bytes ≡ result.now ++ zeros (MEMORY_BYTES - length result.now) }
        ensures top { self.now.state.top ≤ length result.now }
        ensures few { length result.now ≤ MEMORY_BYTES }
    {
        self.bytes.as_slice()
    }

    /// The register of the caller that gets the word that the running frame returns.
    pub fn result(&self) -> Option<u32>
        ensures { result ≡ self.now.state.running.result }
    {
        self.running.result
    }

    /// The stack top that a return from the running frame restores, a byte address.
    pub fn restores(&self) -> u32
        ensures { result ≡ self.now.state.running.restores }
    {
        self.running.restores
    }

    /// The word that an operand has, where it is set.
    pub fn value(&self, a: Operand) -> Option<u64>
        ensures { result ≡ value_of self.now.state a }
    {
        match a {
            Operand::Reg(r) => {
                let registers = &self.registers.as_slice()[self.running.base..];
                let r = r as usize;
                if r < registers.len() {
                    registers[r]
                } else {
                    None
                }
            }
            Operand::Word(word) => Some(word),
        }
    }

    /// How many bytes were put out.
    pub fn output_len(&self) -> usize
        ensures { result ≡ length self.now.state.output }
    {
        self.output.len()
    }

    /// The next byte of the input, if there is one.
    pub fn next_input(&self) -> Option<u8>
        ensures { result ≡ slice_get self.now.state.input self.now.state.position }
    {
        self.input.get(self.position as usize).copied()
    }

    /// What a run shows that stopped in this state. It is refused only for want of memory.
    pub fn outcome(&self, alloc: Global) -> Result<Outcome, OutOfMemory>
        ensures { IfOk result (λ o. o ≡ outcome_at self.now.state) }
    {
        Ok(Outcome {
            ending: self.ending.unwrap_or(Ending::Budget),
            output: Items::from_slice(alloc, self.output.as_slice())?,
        })
    }

    /// What a run shows that stopped in this state. It takes no memory.
    pub fn into_outcome(self) -> Outcome
        ensures { result ≡ outcome_at self.state }
    {
        let Flat {
            running: _,
            callers: _,
            registers: _,
            bytes: _,
            top: _,
            output,
            input: _,
            position: _,
            ending,
        } = self;
        Outcome {
            ending: ending.unwrap_or(Ending::Budget),
            output: Items::from_vec(output),
        }
    }

    /// Another state that stands for the same. Its room is what it happens to have. It is refused
    /// only for want of memory.
    pub fn copy(&self, alloc: Global) -> Result<Flat, OutOfMemory>
        ensures { IfOk result (λ t. t.state ≡ self.now.state) }
    {
        Ok(Flat {
            running: self.running,
            callers: Vec::from_slice(alloc, self.callers.as_slice())?,
            registers: Vec::from_slice(alloc, self.registers.as_slice())?,
            bytes: Vec::from_slice(alloc, self.bytes.as_slice())?,
            top: self.top,
            output: Vec::from_slice(alloc, self.output.as_slice())?,
            input: Vec::from_slice(alloc, self.input.as_slice())?,
            position: self.position,
            ending: self.ending,
        })
    }
}
