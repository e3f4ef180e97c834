//! A pure function as a port.
ghost use Rattle.std.specs.Prelude.{◌≡◌, IfOk};

use crate::answers::answer;
use crate::function::PureFunction;
use crate::signs::sign_of;
use am_base::OutOfMemory;
use code_form::PortSign;
use ports::Port;
use std::alloc::Global;
use std::marker::Model;

/// A port that answers by a pure function. Contracts see the function and how often it was asked.
#[derive(Drop)]
pub struct PurePort {
    function: PureFunction,
    sign: PortSign,
    asked: u64,
}

impl Model for PurePort {
    ghost use Rattle.std.specs.Prelude.{◌≡◌};
    ghost use Rattle.clang_ports.specs.Signs.{sign_of};
    ghost use Rattle.clang_ports.specs.Shown.{Shown};

    ghost Value = { Shown };

    ghost view = { λ p. record { function = p.function; asks = p.asked } };

    ghost invariant = { λ p. p.sign ≡ sign_of p.function };
}

impl PurePort {
    /// A port that was never asked. It is refused only for want of memory.
    pub fn new(alloc: Global, function: PureFunction) -> Result<PurePort, OutOfMemory>
        ensures { IfOk result (λ p. p ≡ record { function = function; asks = 0 }) }
    {
        Ok(PurePort {
            function,
            sign: sign_of(alloc, function)?,
            asked: 0,
        })
    }

    /// How often it was asked.
    pub fn asked(&self) -> u64
        ensures { result ≡ self.now.asks }
    {
        self.asked
    }
}

impl Port for PurePort {
    ghost use Rattle.std.specs.Prelude.{Some};
    ghost use Rattle.clang_ports.specs.Signs.{sign_of};
    ghost use Rattle.clang_ports.specs.Answers.{answer_of};

    ghost sign = { λ p. sign_of p.function };

    ghost answers = { λ p args. Some (answer_of p.function args) };

    ghost asked = { λ p. p.asks };

    fn sign(&self) -> &PortSign {
        &self.sign
    }

    fn ask(&mut self, args: &[u64]) -> Option<u64> {
        self.asked += 1;
        Some(answer(self.function, args))
    }
}
