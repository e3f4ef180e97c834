//! Calls of ports, and the change of any instruction.
ghost use Rattle.std.specs.Prelude.{◌≡◌, ◌<◌, ◌^◌, ℕ, false, length, map, slice_get, IfOk, OnOk, MatchOption};
ghost use Rattle.code_form.specs.declared.instr.Callee.TheVariants.{Port as AtPort};
ghost use Rattle.code_form.specs.declared.instr.Instr.TheVariants.{Call as CallOf};
ghost use Rattle.machine_form.specs.Straight.{values_of, with_value};
ghost use Rattle.machine_form.specs.Calls.{answer_change, width_of_sign, call_change};
ghost use Rattle.machine_form.specs.Next.{next_of};
ghost use Rattle.machine_form.specs.Machine.{toll_of};
ghost use Rattle.ports.specs.Asks.{answers_in, asked_in, AskedBy, AskedAtMostBy};
ghost use Rattle.lane_eval.specs.Operands.{CanAsk, CanChange, is_port_call};

use crate::program::Program;
use crate::step::{gives, step, traps};
use crate::view::View;
use am_base::{Cast, OutOfMemory, Trap, Width, convert};
use am_lists::Items;
use change_set::Change;
use code_form::{Callee, Code, Instr, Operand};
use ports::{Port, ask_port};
use std::alloc::Global;

/// The words of some operands, or nothing where one of them isn't set.
fn argument_words<V: View>(
    alloc: Global,
    s: &V,
    args: &[Operand],
) -> Result<Option<Items<u64>>, OutOfMemory>
    ensures { IfOk result (λ words. words ≡ values_of (V.state s.now) args.now) }
{
    let mut words = Items::new(alloc);
    for a in args {
        let Some(word) = s.value(*a) else {
            return Ok(None);
        };
        words.push(word)?;
    }
    Ok(Some(words))
}

/// The width of what a port answers, if it has a result.
fn port_width(code: &Code, p: u32) -> Option<Width>
    ensures { result ≡ width_of_sign (slice_get code.now.signs p) }
{
    match code.signs.get(p as usize) {
        Some(sign) => sign.result,
        None => None,
    }
}

/// The change by what a port answered, whose result has this width.
fn answered<V: View>(s: &V, r: Option<u32>, w: Option<Width>, answer: Option<u64>, out: &mut Change)
    ensures { out.new ≡ answer_change (V.state s.now) r w answer }
{
    let Some(word) = answer else {
        return traps(s, Trap::PortRefused, out);
    };
    match w {
        None => gives(s, None, 0, out),
        Some(w) => gives(s, r, convert(Cast::Trunc, Width::W64, w, word), out),
    }
}

/// A call of a port. It is asked once where all arguments are set, and not at all where one isn't.
fn ask<V: View>(
    alloc: Global,
    code: &Code,
    s: &V,
    r: Option<u32>,
    p: u32,
    args: &[Operand],
    ports: &mut [Box<dyn Port>],
    out: &mut Change,
) -> Result<(), OutOfMemory>
    requires can { CanAsk code.now (V.state s.now) p args.now }
    requires signs { map (λ q. sign q) ports.old ≡ code.now.signs }
    requires few { asked_in (map (λ q. asked q) ports.old) p < 2 ^ 63 }
    ensures change { let answers = answers_in (map (λ q. answers q) ports.old) in
        OnOk result (out.new ≡ with_value (V.state s.now) (values_of (V.state s.now) args.now) (λ xs. call_change code.now answers (V.state s.now) r (AtPort p) xs)) }
    ensures signs { map (λ q. sign q) ports.new ≡ map (λ q. sign q) ports.old }
    ensures answers { map (λ q. answers q) ports.new ≡ map (λ q. answers q) ports.old }
    ensures asks { OnOk result (AskedBy (map (λ q. asked q) ports.old) (map (λ q. asked q) ports.new) (λ q. toll_of q (V.state s.now) (CallOf (AtPort p) args.now))) }
    ensures asks_at_most { AskedAtMostBy (map (λ q. asked q) ports.old) (map (λ q. asked q) ports.new) (λ q. toll_of q (V.state s.now) (CallOf (AtPort p) args.now)) }
{
    let Some(words) = argument_words(alloc, s, args)? else {
        traps(s, Trap::UnsetRegister, out);
        return Ok(());
    };
    let answer = ask_port(ports, p as usize, words.as_slice());
    answered(s, r, port_width(code, p), answer, out);
    Ok(())
}

/// The port that an instruction calls, by its number, with the arguments, or nothing where it calls none.
fn port_call(i: &Instr) -> Option<(u32, &[Operand])>
    ensures { MatchOption result (is_port_call i.now ≡ false) (λ call. i.now ≡ CallOf (AtPort call.0) call.1.now) }
{
    match i {
        Instr::Call(Callee::Port(p), args) => Some((*p, args.as_slice())),
        _ => None,
    }
}

/// Makes `out` the change that an instruction makes, whatever stood there. `r` is the register of its
/// place.
pub fn change<V: View>(
    alloc: Global,
    program: &Program,
    s: &V,
    r: Option<u32>,
    i: &Instr,
    ports: &mut [Box<dyn Port>],
    out: &mut Change,
) -> Result<(), OutOfMemory>
    requires can { CanChange program.now (V.state s.now) i.now }
    requires signs { map (λ q. sign q) ports.old ≡ program.now.signs }
    requires few { (p : ℕ) → asked_in (map (λ q. asked q) ports.old) p < 2 ^ 63 }
    ensures change { OnOk result (out.new ≡ next_of program.now (answers_in (map (λ q. answers q) ports.old)) (V.state s.now) r i.now) }
    ensures signs { map (λ q. sign q) ports.new ≡ map (λ q. sign q) ports.old }
    ensures answers { map (λ q. answers q) ports.new ≡ map (λ q. answers q) ports.old }
    ensures asks { OnOk result (AskedBy (map (λ q. asked q) ports.old) (map (λ q. asked q) ports.new) (λ q. toll_of q (V.state s.now) i.now)) }
    ensures asks_at_most { AskedAtMostBy (map (λ q. asked q) ports.old) (map (λ q. asked q) ports.new) (λ q. toll_of q (V.state s.now) i.now) }
{
    match port_call(i) {
        Some((p, args)) => ask(alloc, program.code(), s, r, p, args, ports, out),
        None => step(program, s, r, i, out),
    }
}
