//! The application of a change but for its bytes, in the room that there is.
ghost use Rattle.std.specs.Prelude.{◌≡◌, ◌<◌, ◌≤◌, ◌+◌, ◌^◌, [], length, None, false, All};
ghost use Rattle.code_form.specs.Places.{function_at, begins_at, result_at};
ghost use Rattle.machine_form.specs.After.{after_change, entry_place};
ghost use Rattle.bare_state.specs.Room.{bare, HasRoomToPut};

use crate::mark::Mark;
use crate::state::Bare;
use crate::write::{go_back, push_unset, write_registers};
use am_base::Ending;
use change_set::{Change, Control};
use code_form::Code;

impl Bare {
    /// Makes a change that goes on at the next place.
    pub fn go_on(&mut self, code: &Code, c: &Change)
        requires control { c.now.control ≡ Control.Next }
        requires room { HasRoomToPut self.old.room c.now.put }
        requires place { self.old.state.running.place + 1 < 2 ^ 32 }
        requires position { self.old.state.position + 1 < 2 ^ 32 }
        ensures { self.new.state ≡ bare (after_change code.now self.old.state c.now) }
    {
        if let Some(byte) = c.put {
            self.output.push_reserved(byte);
        }
        if c.took {
            self.position += 1;
        }
        self.top = c.top;
        let base = self.running.base;
        write_registers(&mut self.registers[base..], c.writes.as_slice());
        self.running.place += 1;
    }

    /// Makes a change that goes to a block, whose first place after its `phi` is given.
    pub fn go_to(&mut self, code: &Code, c: &Change, b: u32, place: u32)
        requires control { c.now.control ≡ Control.Jump b }
        requires put { c.now.put ≡ None }
        requires took { c.now.took ≡ false }
        requires place { place ≡ entry_place code.now self.old.state.running.place b }
        ensures { self.new.state ≡ bare (after_change code.now self.old.state c.now) }
    {
        self.top = c.top;
        let base = self.running.base;
        write_registers(&mut self.registers[base..], c.writes.as_slice());
        self.running.place = place;
    }

    /// Makes a change that enters a function, whose first place and number of registers are given
    /// with the register that gets its word.
    pub fn enter(
        &mut self,
        code: &Code,
        c: &Change,
        f: u32,
        first: u32,
        registers: u32,
        back: Option<u32>,
    )
        requires control { c.now.control ≡ Control.Enter f }
        requires frames { 1 ≤ self.old.room.frames }
        requires registers { registers ≤ self.old.room.registers }
        requires put { c.now.put ≡ None }
        requires took { c.now.took ≡ false }
        requires place { self.old.state.running.place + 1 < 2 ^ 32 }
        requires first { first ≡ begins_at code.now f }
        requires count { registers ≡ (function_at code.now f).registers }
        requires back { back ≡ result_at code.now self.old.state.running.place }
        ensures { self.new.state ≡ bare (after_change code.now self.old.state c.now) }
    {
        let base = self.registers.len();
        push_unset(&mut self.registers, registers);
        write_registers(&mut self.registers[base..], c.writes.as_slice());
        let caller = Mark {
            place: self.running.place + 1,
            base: self.running.base,
            result: self.running.result,
            restores: self.running.restores,
        };
        self.callers.push_reserved(caller);
        self.running = Mark {
            place: first,
            base,
            result: back,
            restores: self.top,
        };
        self.top = c.top;
    }

    /// Makes a change that returns to the caller.
    pub fn leave(&mut self, code: &Code, c: &Change)
        requires control { c.now.control ≡ Control.Leave }
        requires put { c.now.put ≡ None }
        requires took { c.now.took ≡ false }
        requires called { 0 < length self.old.state.callers }
        ensures { self.new.state ≡ bare (after_change code.now self.old.state c.now) }
    {
        let end = self.running.base;
        if let Some(caller) = self.callers.pop() {
            self.running = caller;
            go_back(&mut self.registers, end, caller.base, c.writes.as_slice());
        }
        self.top = c.top;
    }

    /// Makes a change that ends the run.
    pub fn end(&mut self, code: &Code, c: &Change, ending: Ending)
        requires control { c.now.control ≡ Control.End ending }
        requires put { c.now.put ≡ None }
        requires took { c.now.took ≡ false }
        ensures { self.new.state ≡ bare (after_change code.now self.old.state c.now) }
    {
        self.top = c.top;
        self.ending = Some(ending);
    }
}
