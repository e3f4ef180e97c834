//! The change of each instruction.
ghost use Rattle.std.specs.Prelude.{◌≡◌, OnOk};
ghost use Rattle.machine_form.specs.Straight.{end_change, trap_change, word_change};
ghost use Rattle.machine_form.specs.Next.{bin_change, cmp_change, select_change, cast_change, freeze_change, next_of};
ghost use Rattle.lane_eval.specs.Operands.{HoldsWord, CanStep};
ghost use Rattle.lane_eval.specs.Filled.{quiet_change};
ghost use Rattle.machine_form.specs.Calls.{Answers};

use crate::call::ret;
use crate::edge::{branch, jump, switch};
use crate::get::get;
use crate::memory::{alloca, load, store};
use crate::outside::call;
use crate::program::Program;
use crate::view::View;
use am_base::{BinOp, Cast, Ending, OutOfMemory, Pred, Trap, Width, binary, compare, convert};
use change_set::{Change, Control};
use code_form::{Instr, Operand};

/// Makes `out` the change that has this word and goes on at the next place.
pub fn gives<V: View>(s: &V, r: Option<u32>, word: u64, out: &mut Change)
    ensures { out.new ≡ word_change (V.state s.now) r word }
{
    out.set_word(s.top(), r, word);
}

/// Makes `out` the change that ends the run, and nothing else changes.
pub fn ends<V: View>(s: &V, ending: Ending, out: &mut Change)
    ensures { out.new ≡ end_change (V.state s.now) ending }
{
    out.set_ending(s.top(), ending);
}

/// Makes `out` the change that ends the run by a trap, and nothing else changes.
pub fn traps<V: View>(s: &V, trap: Trap, out: &mut Change)
    ensures { out.new ≡ trap_change (V.state s.now) trap }
{
    ends(s, Ending::Trap(trap), out);
}

/// Sets all of `out` but its register writes: no byte is written, put or used.
pub fn quiet(top: u32, control: Control, out: &mut Change)
    ensures { out.new ≡ quiet_change out.old.writes top control }
{
    out.bytes.clear();
    out.top = top;
    out.put = None;
    out.took = false;
    out.control = control;
}

fn bin<V: View>(
    s: &V,
    r: Option<u32>,
    op: BinOp,
    w: Width,
    a: Operand,
    b: Operand,
    out: &mut Change,
)
    requires left { HoldsWord (V.state s.now) w a }
    requires right { HoldsWord (V.state s.now) w b }
    ensures { out.new ≡ bin_change (V.state s.now) r op w a b }
{
    let Some(x) = s.value(a) else {
        return traps(s, Trap::UnsetRegister, out);
    };
    let Some(y) = s.value(b) else {
        return traps(s, Trap::UnsetRegister, out);
    };
    match binary(op, w, x, y) {
        Ok(word) => gives(s, r, word, out),
        Err(trap) => traps(s, trap, out),
    }
}

fn cmp<V: View>(s: &V, r: Option<u32>, p: Pred, w: Width, a: Operand, b: Operand, out: &mut Change)
    requires left { HoldsWord (V.state s.now) w a }
    requires right { HoldsWord (V.state s.now) w b }
    ensures { out.new ≡ cmp_change (V.state s.now) r p w a b }
{
    let Some(x) = s.value(a) else {
        return traps(s, Trap::UnsetRegister, out);
    };
    let Some(y) = s.value(b) else {
        return traps(s, Trap::UnsetRegister, out);
    };
    gives(s, r, if compare(p, w, x, y) { 1 } else { 0 }, out)
}

fn select<V: View>(s: &V, r: Option<u32>, c: Operand, a: Operand, b: Operand, out: &mut Change)
    ensures { out.new ≡ select_change (V.state s.now) r c a b }
{
    let Some(k) = s.value(c) else {
        return traps(s, Trap::UnsetRegister, out);
    };
    let Some(x) = s.value(a) else {
        return traps(s, Trap::UnsetRegister, out);
    };
    let Some(y) = s.value(b) else {
        return traps(s, Trap::UnsetRegister, out);
    };
    gives(s, r, if k == 1 { x } else { y }, out)
}

fn cast<V: View>(
    s: &V,
    r: Option<u32>,
    c: Cast,
    from: Width,
    to: Width,
    a: Operand,
    out: &mut Change,
)
    requires { HoldsWord (V.state s.now) from a }
    ensures { out.new ≡ cast_change (V.state s.now) r c from to a }
{
    let Some(x) = s.value(a) else {
        return traps(s, Trap::UnsetRegister, out);
    };
    gives(s, r, convert(c, from, to, x), out)
}

fn freeze<V: View>(s: &V, r: Option<u32>, a: Operand, out: &mut Change)
    ensures { out.new ≡ freeze_change (V.state s.now) r a }
{
    let Some(x) = s.value(a) else {
        return traps(s, Trap::UnsetRegister, out);
    };
    gives(s, r, x, out)
}

/// Makes `out` the change that an instruction makes that calls no port. `r` is the register of its
/// place.
pub fn step<V: View>(
    program: &Program,
    s: &V,
    r: Option<u32>,
    i: &Instr,
    out: &mut Change,
) -> Result<(), OutOfMemory>
    requires operands { CanStep program.now (V.state s.now) i.now }
    ensures { (answers : Answers) → OnOk result (out.new ≡ next_of program.now answers (V.state s.now) r i.now) }
{
    match i {
        Instr::Bin(op, w, a, b) => bin(s, r, *op, *w, *a, *b, out),
        Instr::Cmp(p, w, a, b) => cmp(s, r, *p, *w, *a, *b, out),
        Instr::Select(c, a, b) => select(s, r, *c, *a, *b, out),
        Instr::Cast(c, from, to, a) => cast(s, r, *c, *from, *to, *a, out),
        Instr::Freeze(a) => freeze(s, r, *a, out),
        Instr::Alloca(size, align, count) => alloca(s, r, *size, *align, *count, out),
        Instr::Load(w, a) => load(s, r, *w, *a, out),
        Instr::Get(a, literal, indices) => get(s, r, *a, *literal, indices.as_slice(), out),
        Instr::Ret(a) => ret(s, *a, out),
        Instr::Phi(_) | Instr::Unreachable => traps(s, Trap::Unreachable, out),
        Instr::Store(w, a, b) => return store(program.code(), s, *w, *a, *b, out),
        Instr::Call(callee, args) => {
            return call(program.code(), s, r, *callee, args.as_slice(), out);
        }
        Instr::Jump(b) => return jump(program, s, *b, out),
        Instr::Branch(c, b, d) => return branch(program, s, *c, *b, *d, out),
        Instr::Switch(_, a, other, cases) => {
            return switch(program, s, *a, *other, cases.as_slice(), out);
        }
    }
    Ok(())
}
