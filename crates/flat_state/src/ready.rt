//! Room for a change.
ghost use Rattle.std.specs.Prelude.{◌≡◌, ◌≤◌, OnOk};
ghost use Rattle.code_form.specs.Places.{function_at};
ghost use Rattle.flat_state.specs.Room.{HasRoom, HasRoomToPut, HasRoomToGo};

use crate::state::Flat;
use crate::write::grow;
use am_base::{MEMORY_BYTES, OutOfMemory};
use change_set::{Change, Control};
use code_form::Code;

impl Flat {
    /// Takes the room for a byte of output.
    fn ready_to_put(&mut self, put: Option<u8>) -> Result<(), OutOfMemory>
        ensures room { OnOk result (HasRoomToPut self.new.room put) }
        ensures frames { self.new.room.frames ≡ self.old.room.frames }
        ensures registers { self.new.room.registers ≡ self.old.room.registers }
        ensures memory { self.new.room.memory ≡ self.old.room.memory }
        ensures state { self.new.state ≡ self.old.state }
    {
        if put.is_some() {
            self.output.reserve(1)?;
        }
        Ok(())
    }

    /// Keeps the memory below a stack top: zeros in place of zeros that weren't kept.
    fn ready_to_grow(&mut self, top: u32) -> Result<(), OutOfMemory>
        requires { top ≤ MEMORY_BYTES }
        ensures memory { OnOk result (top ≤ self.new.room.memory) }
        ensures output { self.new.room.output ≡ self.old.room.output }
        ensures frames { self.new.room.frames ≡ self.old.room.frames }
        ensures registers { self.new.room.registers ≡ self.old.room.registers }
        ensures state { self.new.state ≡ self.old.state }
    {
        if self.bytes.len() < top as usize {
            grow(&mut self.bytes, top as usize)?;
        }
        Ok(())
    }

    /// Takes the room for a frame with that many registers.
    fn ready_to_enter(&mut self, registers: u32) -> Result<(), OutOfMemory>
        ensures frames { OnOk result (1 ≤ self.new.room.frames) }
        ensures registers { OnOk result (registers ≤ self.new.room.registers) }
        ensures output { self.new.room.output ≡ self.old.room.output }
        ensures memory { self.new.room.memory ≡ self.old.room.memory }
        ensures state { self.new.state ≡ self.old.state }
    {
        self.callers.reserve(1)?;
        self.registers.reserve(registers as usize)?;
        Ok(())
    }

    /// Takes the room for where a change goes.
    fn ready_to_go(&mut self, code: &Code, control: Control) -> Result<(), OutOfMemory>
        ensures room { OnOk result (HasRoomToGo code.now self.new.room control) }
        ensures output { self.new.room.output ≡ self.old.room.output }
        ensures memory { self.new.room.memory ≡ self.old.room.memory }
        ensures state { self.new.state ≡ self.old.state }
    {
        match control {
            Control::Enter(f) => match code.funcs.get(f as usize) {
                Some(function) => self.ready_to_enter(function.registers),
                None => self.ready_to_enter(0),
            },
            _ => Ok(()),
        }
    }

    /// Takes the room for a change. What the state stands for stays, also after a refusal, which
    /// comes only for want of memory.
    pub fn ready(&mut self, code: &Code, c: &Change) -> Result<(), OutOfMemory>
        requires { c.now.top ≤ MEMORY_BYTES }
        ensures room { OnOk result (HasRoom code.now self.new.room c.now) }
        ensures state { self.new.state ≡ self.old.state }
    {
        self.ready_to_grow(c.top)?;
        self.ready_to_go(code, c.control)?;
        self.ready_to_put(c.put)
    }
}
