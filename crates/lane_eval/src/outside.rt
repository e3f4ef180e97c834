//! Calls, and the four outside functions that every machine knows.
ghost use Rattle.std.specs.Prelude.{◌≡◌, ◌<◌, ◌≤◌, [], ◌∷◌, length, OnOk};
ghost use Rattle.machine_form.specs.Straight.{value_of, values_of, with_value, end_change};
ghost use Rattle.am_base.specs.Word.{first_of};
ghost use Rattle.machine_form.specs.Calls.{Answers, put_change, take_change, call_change};
ghost use Rattle.machine_form.specs.Next.{next_of};
ghost use Rattle.lane_eval.specs.Operands.{CanCall};
ghost use Rattle.am_base.specs.declared.outcome.Ending.TheVariants.{Exit as Exited};
ghost use Rattle.std.specs.Prelude.{slice_get};

use crate::call::enter;
use crate::step::{ends, gives, traps};
use crate::view::View;
use am_base::{Ending, MAX_OUTPUT_BYTES, OutOfMemory, Trap};
use change_set::Change;
use code_form::{Callee, Code, Operand};

/// `putchar`: the lowest byte of its argument is put out, and is its word.
fn put_char<V: View>(s: &V, r: Option<u32>, a: Operand, out: &mut Change)
    ensures { out.new ≡ with_value (V.state s.now) (values_of (V.state s.now) (a ∷ [])) (λ xs. put_change (V.state s.now) r (first_of xs)) }
{
    let Some(x) = s.value(a) else {
        return traps(s, Trap::UnsetRegister, out);
    };
    if s.output_len() >= MAX_OUTPUT_BYTES as usize {
        return traps(s, Trap::OutputFull, out);
    }
    let word = x % 256;
    gives(s, r, word, out);
    out.put = Some(word as u8);
}

/// `getchar`: the next byte of the input, or -1 at its end.
fn get_char<V: View>(s: &V, r: Option<u32>, out: &mut Change)
    ensures { out.new ≡ take_change (V.state s.now) r (slice_get (V.state s.now).input (V.state s.now).position) }
{
    let Some(byte) = s.next_input() else {
        return gives(s, r, 0xffff_ffff, out);
    };
    gives(s, r, u64::from(byte), out);
    out.took = true;
}

/// `exit`: the run ends with its argument.
fn exit<V: View>(s: &V, a: Operand, out: &mut Change)
    ensures { out.new ≡ with_value (V.state s.now) (values_of (V.state s.now) (a ∷ [])) (λ xs. end_change (V.state s.now) (Exited (first_of xs))) }
{
    let Some(x) = s.value(a) else {
        return traps(s, Trap::UnsetRegister, out);
    };
    ends(s, Ending::Exit(x), out);
}

/// A call of a function of the code or of an outside function that isn't a port.
pub fn call<V: View>(
    code: &Code,
    s: &V,
    r: Option<u32>,
    callee: Callee,
    args: &[Operand],
    out: &mut Change,
) -> Result<(), OutOfMemory>
    requires { CanCall code.now callee args.now }
    ensures { (answers : Answers) → OnOk result (out.new ≡ with_value (V.state s.now) (values_of (V.state s.now) args.now) (λ xs. call_change code.now answers (V.state s.now) r callee xs)) }
{
    match (callee, args) {
        (Callee::Func(f), _) => return enter(code, s, f, args, out),
        (Callee::PutChar, [a]) => put_char(s, r, *a, out),
        (Callee::Exit, [a]) => exit(s, *a, out),
        (Callee::GetChar, []) => get_char(s, r, out),
        (Callee::Abort, []) => traps(s, Trap::Abort, out),
        _ => unreachable!(),
    }
    Ok(())
}
