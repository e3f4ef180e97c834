//! The trait of a port.
ghost use Rattle.std.specs.Prelude.{◌≡◌, ℕ, ◌+◌, ◌<◌, ◌^◌, List, Option};
ghost use Rattle.code_form.specs.declared.sign.PortSign.{PortSign};
ghost use Rattle.ports.specs.Words.{AreWords};

use code_form::PortSign;

/// A pure function that the code may call, handed in from outside. It counts how often it was asked.
pub trait Port: Drop {
    /// The name, the parameters and the result.
    ghost sign: { Self → PortSign };

    /// What it answers to each list of arguments, or nothing.
    ghost answers: { Self → List ℕ → Option ℕ };

    /// How often it was asked.
    ghost asked: { Self → ℕ };

    /// The name, the parameters and the result.
    fn sign(&self) -> &PortSign
        ensures { result.now ≡ sign self.now };

    /// Answers to one word for each parameter, each of its parameter's width. `None` iff the function has no answer to them.
    fn ask(&mut self, args: &[u64]) -> Option<u64>
        requires words { AreWords (sign self.old).params args.now }
        requires few { asked self.old < 2 ^ 63 }
        ensures answer { result ≡ answers self.old args.now }
        ensures answers { answers self.new ≡ answers self.old }
        ensures sign { sign self.new ≡ sign self.old }
        ensures asked { asked self.new ≡ asked self.old + 1 };
}
