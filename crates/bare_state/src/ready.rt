//! Room for a change.
ghost use Rattle.std.specs.Prelude.{◌≡◌, ◌≤◌, OnOk};
ghost use Rattle.code_form.specs.Places.{function_at};
ghost use Rattle.bare_state.specs.Room.{HasRoom, HasRoomToPut, HasRoomToGo};

use crate::state::Bare;
use am_base::OutOfMemory;
use change_set::{Change, Control};
use code_form::Code;

impl Bare {
    /// Takes the room for a byte of output.
    fn ready_to_put(&mut self, put: Option<u8>) -> Result<(), OutOfMemory>
        ensures room { OnOk result (HasRoomToPut self.new.room put) }
        ensures frames { self.new.room.frames ≡ self.old.room.frames }
        ensures registers { self.new.room.registers ≡ self.old.room.registers }
        ensures state { self.new.state ≡ self.old.state }
    {
        if put.is_some() {
            self.output.reserve(1)?;
        }
        Ok(())
    }

    /// Takes the room for a frame with that many registers.
    fn ready_to_enter(&mut self, registers: u32) -> Result<(), OutOfMemory>
        ensures frames { OnOk result (1 ≤ self.new.room.frames) }
        ensures registers { OnOk result (registers ≤ self.new.room.registers) }
        ensures output { self.new.room.output ≡ self.old.room.output }
        ensures state { self.new.state ≡ self.old.state }
    {
        self.callers.reserve(1)?;
        self.registers.reserve(registers as usize)?;
        Ok(())
    }

    /// Takes the room for where a change goes.
    fn ready_to_go(&mut self, code: &Code, control: Control) -> Result<(), OutOfMemory>
        ensures room { OnOk result (HasRoomToGo code.now self.new.room control) }
        ensures output { self.new.room.output ≡ self.old.room.output }
        ensures state { self.new.state ≡ self.old.state }
    {
        match control {
            Control::Enter(f) => match code.funcs.get(f as usize) {
                Some(function) => self.ready_to_enter(function.registers),
                None => self.ready_to_enter(0),
            },
            _ => Ok(()),
        }
    }

    /// Takes the room for a change but for its bytes. What the state stands for stays, also after a refusal, which
    /// comes only for want of memory.
    pub fn ready(&mut self, code: &Code, c: &Change) -> Result<(), OutOfMemory>
        ensures room { OnOk result (HasRoom code.now self.new.room c.now) }
        ensures state { self.new.state ≡ self.old.state }
    {
        self.ready_to_go(code, c.control)?;
        self.ready_to_put(c.put)
    }
}
