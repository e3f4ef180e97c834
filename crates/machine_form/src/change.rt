//! The change that one instruction makes, as a value.

ghost use Rattle.std.specs.Prelude.{◌≡◌, [], None, false};
ghost use Rattle.machine_form.specs.State.{State};
ghost use Rattle.machine_form.specs.Straight.{word_change, end_change, trap_change};

use crate::writes::{ByteWrites, RegisterWrites};
use am_base::{Ending, Trap};
use std::alloc::Global;

/// Where a run goes on.
#[derive(Clone, Copy, Debug, PartialEq, Eq)]
pub enum Control {
    /// At the next place.
    Next,
    /// In this block of the function, an index from 0, after the block's `phi`.
    Jump(u32),
    /// In this function of the code, an index from 0, with a frame of its own.
    Enter(u32),
    /// In the frame of the caller.
    Leave,
    /// Nowhere: the run is over.
    End(Ending),
}

/// What one instruction does to a state (this project's own form of a step). In an `End` nothing is
/// written, put or used and the stack top stays. `End(Budget)` is the change of no instruction: a
/// run that is cut off has no ending of its own.
#[derive(Debug, Drop)]
pub struct Change {
    /// The registers that are written: for `Enter` in the new frame, for `Leave` in the caller's,
    /// else in the running one.
    pub writes: RegisterWrites,
    /// The bytes of memory that really differ.
    pub bytes: ByteWrites,
    /// The stack top afterwards, a byte address.
    pub top: u32,
    /// The byte that is appended to the output.
    pub put: Option<u8>,
    /// Whether a byte of the input was used.
    pub took: bool,
    /// Where the run goes on.
    pub control: Control,
}

impl Change {
    /// A change to be filled in: it writes nothing, and goes on at the next place. It takes no
    /// memory.
    pub fn new(alloc: Global) -> Change
        ensures { (s : State) → s.top ≡ 0 → result ≡ word_change s None 0 }
    {
        Change {
            writes: RegisterWrites::new(alloc),
            bytes: ByteWrites::new(alloc),
            top: 0,
            put: None,
            took: false,
            control: Control::Next,
        }
    }

    /// Makes this the change of an instruction that has a word, in a state with this stack top: the
    /// word is written where the instruction has a register, and the run goes on at the next place.
    /// It takes no memory.
    pub fn set_word(&mut self, top: u32, register: Option<u32>, word: u64)
        ensures { (s : State) → s.top ≡ top → self.new ≡ word_change s register word }
    {
        match register {
            Some(register) => self.writes.set_one(register, word),
            None => self.writes.clear(),
        }
        self.set_quiet(top, Control::Next);
    }

    /// Makes this the change that ends the run, in a state with this stack top. It takes no memory.
    pub fn set_ending(&mut self, top: u32, ending: Ending)
        ensures { (s : State) → s.top ≡ top → self.new ≡ end_change s ending }
    {
        self.writes.clear();
        self.set_quiet(top, Control::End(ending));
    }

    /// Makes this the change of a trap, in a state with this stack top. It takes no memory.
    pub fn set_trap(&mut self, top: u32, trap: Trap)
        ensures { (s : State) → s.top ≡ top → self.new ≡ trap_change s trap }
    {
        self.set_ending(top, Ending::Trap(trap));
    }

    /// Sets all but the register writes: no byte is written, put or used.
    fn set_quiet(&mut self, top: u32, control: Control)
        ensures writes { self.new.writes ≡ self.old.writes }
        ensures bytes { self.new.bytes ≡ [] }
        ensures top { self.new.top ≡ top }
        ensures put { self.new.put ≡ None }
        ensures took { self.new.took ≡ false }
        ensures control { self.new.control ≡ control }
    {
        self.bytes.clear();
        self.top = top;
        self.put = None;
        self.took = false;
        self.control = control;
    }
}
