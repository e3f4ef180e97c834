//! The port `abs`, which counts how often it is asked, and may answer nothing.

use code_form::PortSign;
use ports::{Abs, Port};
use std::cell::Cell;
use std::rc::Rc;

/// `abs` that also counts in a cell. Where it is silent it answers nothing.
#[derive(Drop)]
pub struct Counted {
    pub abs: Abs,
    pub is_silent: bool,
    pub asked: Rc<Cell<u64>>,
}

impl Port for Counted {
    ghost use Rattle.std.specs.Prelude.{None, Some, codes, if◌then◌else◌};
    ghost use Rattle.am_base.specs.Word.{first_of};
    ghost use Rattle.am_base.specs.declared.word.Width.TheVariants.{W32};
    ghost use Rattle.ports.specs.Known.{absolute, sign_of_word};

    ghost sign = { λ p. sign_of_word (codes "abs") W32 };

    ghost answers = { λ p args. if p.is_silent then None else Some (absolute W32 (first_of args)) };

    ghost asked = { λ p. p.abs };

    fn sign(&self) -> &PortSign {
        self.abs.sign()
    }

    fn ask(&mut self, args: &[u64]) -> Option<u64> {
        self.asked.set(self.asked.get().wrapping_add(1));
        let answer = self.abs.ask(args);
        if self.is_silent { None } else { answer }
    }
}
