//! The state in which the run of a case begins, but for its memory.
ghost use Rattle.std.specs.Prelude.{◌≡◌, ◌<◌, ◌≤◌, ◌^◌, length, All, IfOk, replicate, None};
ghost use Rattle.code_form.specs.Sound.{IsSound};
ghost use Rattle.code_form.specs.Fit.{FitsCase};
ghost use Rattle.code_form.specs.Places.{function_at};
ghost use Rattle.machine_form.specs.State.{with_writes};
ghost use Rattle.machine_form.specs.Calls.{numbered};
ghost use Rattle.machine_form.specs.Start.{start_of};
ghost use Rattle.bare_state.specs.Room.{bare};

use crate::state::Bare;
use am_base::OutOfMemory;
use code_form::{Case, Code};
use flat_state::{first_place, function};
use std::alloc::Global;

/// What a list of bytes holds are bytes. It does nothing.
pub fn hold_bytes(bytes: &[u8])
    ensures { All (λ b. b < 256) bytes.now }
{}

/// That many registers, of which the first hold the arguments.
fn opening_registers(
    alloc: Global,
    registers: u32,
    args: &[u64],
) -> Result<Vec<Option<u64>>, OutOfMemory>
    requires { length args.now ≤ registers }
    ensures { IfOk result (λ r. r.items ≡ with_writes (replicate registers None) (numbered 0 args.now)) }
{
    let mut all = vec![in alloc; None; registers as usize]?;
    for (i, word) in args.iter().enumerate() {
        all[i] = Some(*word);
    }
    Ok(all)
}

/// The registers of the frame in which the run of a case begins.
fn first_registers(alloc: Global, code: &Code, case: &Case) -> Result<Vec<Option<u64>>, OutOfMemory>
    requires sound { IsSound code.now }
    requires case { FitsCase code.now case.now }
    ensures { IfOk result (λ r. r.items ≡ with_writes (replicate (function_at code.now case.now.function).registers None) (numbered 0 case.now.args)) }
{
    opening_registers(
        alloc,
        function(code, case.function).registers,
        case.args.as_slice(),
    )
}

impl Bare {
    /// The state in which the run of a case begins, but for its memory. It is refused only for want
    /// of memory.
    pub fn start(alloc: Global, code: &Code, case: &Case) -> Result<Bare, OutOfMemory>
        requires sound { IsSound code.now }
        requires case { FitsCase code.now case.now }
        ensures state { IfOk result (λ s. s.state ≡ bare (start_of code.now case.now)) }
        ensures input { IfOk result (λ s. All (λ b. b < 256) s.state.input) }
    {
        hold_bytes(case.input.as_slice());
        let registers = first_registers(alloc, code, case)?;
        let input = Vec::from_slice(alloc, case.input.as_slice())?;
        Ok(Bare::opening(
            alloc,
            first_place(function(code, case.function)),
            registers,
            code.stack_base,
            input,
        ))
    }
}
