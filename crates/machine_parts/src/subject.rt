//! What a machine runs.
ghost use Rattle.std.specs.Prelude.{◌≡◌, IfOk};
ghost use Rattle.code_form.specs.Sound.{IsSound};
ghost use Rattle.code_form.specs.Fit.{FitsTable};

use am_base::OutOfMemory;
use code_form::{Code, Variants};
use lane_eval::Program;
use std::alloc::Global;
use std::marker::Model;

/// A sound code and a table of variants that fits it. Contracts see the two.
#[derive(Drop)]
pub struct Subject<'a> {
    program: Program<'a>,
    variants: &'a Variants,
}

impl<'a> Model for Subject<'a> {
    ghost use Rattle.code_form.specs.Sound.{IsSound};
    ghost use Rattle.code_form.specs.Fit.{FitsTable};
    ghost use Rattle.machine_parts.specs.Shown.{Run};

    ghost Value = { Run };

    ghost view = { λ s. record { code = s.program; table = s.variants.now } };

    ghost invariant = { λ s. IsSound s.program × FitsTable s.program s.variants.now };
}

impl<'a> Subject<'a> {
    /// Prepares a code, which costs its length. It is refused only for want of memory.
    pub fn new(
        alloc: Global,
        code: &'a Code,
        variants: &'a Variants,
    ) -> Result<Subject<'a>, OutOfMemory>
        requires sound { IsSound code.now }
        requires table { FitsTable code.now variants.now }
        ensures { IfOk result (λ s. s ≡ record { code = code.now; table = variants.now }) }
    {
        Ok(Subject {
            program: Program::new(alloc, code)?,
            variants,
        })
    }

    /// The code.
    pub fn program(&self) -> &Program<'a>
        ensures code { result.now ≡ self.now.code }
        ensures sound { IsSound self.now.code }
        ensures fits { FitsTable self.now.code self.now.table }
    {
        &self.program
    }

    /// The table.
    pub fn variants(&self) -> &'a Variants
        ensures table { result.now ≡ self.now.table }
        ensures fits { FitsTable self.now.code self.now.table }
    {
        self.variants
    }
}
