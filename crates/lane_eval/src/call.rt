//! Calls of the code's functions, and returns.
ghost use Rattle.std.specs.Prelude.{◌≡◌, ◌<◌, ◌^◌, [], length, IfOk, OnOk};
ghost use Rattle.std.specs.Option.{option_map};
ghost use Rattle.machine_form.specs.Straight.{values_of, with_value};
ghost use Rattle.machine_form.specs.Calls as spec;
ghost use Rattle.machine_form.specs.Calls.{numbered, enter_change, return_change};
ghost use Rattle.machine_form.specs.Next.{ret_change};
ghost use Rattle.lane_eval.specs.Filled.{if_all};

use crate::step::{ends, quiet, traps};
use crate::view::View;
use am_base::{Ending, MAX_FRAMES, MAX_LIVE_REGISTERS, OutOfMemory, Trap};
use change_set::{Change, Control, RegisterWrites};
use code_form::{Code, Operand};
use flat_state::function;

/// Puts the words of the arguments, each for the register with its number, into `writes`, whatever
/// stood there. It answers whether all of them are set.
fn argument_writes<V: View>(
    s: &V,
    args: &[Operand],
    writes: &mut RegisterWrites,
) -> Result<bool, OutOfMemory>
    requires { length args.now < 2 ^ 32 }
    ensures { IfOk result (λ all. if_all all writes.new ≡ option_map (numbered 0) (values_of (V.state s.now) args.now)) }
{
    writes.clear();
    for (i, a) in args.iter().enumerate() {
        let Some(word) = s.value(*a) else {
            return Ok(false);
        };
        writes.push(i as u32, word)?;
    }
    Ok(true)
}

/// A call of a function of the code. It costs its arguments.
pub fn enter<V: View>(
    code: &Code,
    s: &V,
    f: u32,
    args: &[Operand],
    out: &mut Change,
) -> Result<(), OutOfMemory>
    requires defined { f < length code.now.funcs }
    requires few { length args.now < 2 ^ 32 }
    ensures { OnOk result (out.new ≡ with_value (V.state s.now) (values_of (V.state s.now) args.now) (λ xs. enter_change code.now (V.state s.now) f xs)) }
{
    if !argument_writes(s, args, &mut out.writes)? {
        traps(s, Trap::UnsetRegister, out);
        return Ok(());
    }
    // the running frame is one more
    if s.callers() >= MAX_FRAMES as usize - 1 {
        traps(s, Trap::DepthFull, out);
        return Ok(());
    }
    let registers = function(code, f).registers;
    if s.words() + u64::from(registers) > u64::from(MAX_LIVE_REGISTERS) {
        traps(s, Trap::RegistersFull, out);
        return Ok(());
    }
    quiet(s.top(), Control::Enter(f), out);
    Ok(())
}

/// The write of a returned word, where there is one and the call has a register for it.
fn write_back(r: Option<u32>, word: Option<u64>, writes: &mut RegisterWrites)
    ensures { writes.new ≡ spec.write_back r word }
{
    match (r, word) {
        (Some(r), Some(word)) => writes.set_one(r, word),
        _ => writes.clear(),
    }
}

/// A return with a word or none.
fn returns<V: View>(s: &V, word: Option<u64>, out: &mut Change)
    ensures { out.new ≡ return_change (V.state s.now) (V.state s.now).callers word }
{
    if s.callers() == 0 {
        return ends(s, Ending::Return(word), out);
    }
    write_back(s.result(), word, &mut out.writes);
    quiet(s.restores(), Control::Leave, out);
}

/// `ret`: the value, where the function has one.
pub fn ret<V: View>(s: &V, a: Option<Operand>, out: &mut Change)
    ensures { out.new ≡ ret_change (V.state s.now) a }
{
    let Some(a) = a else {
        return returns(s, None, out);
    };
    let Some(x) = s.value(a) else {
        return traps(s, Trap::UnsetRegister, out);
    };
    returns(s, Some(x), out);
}
