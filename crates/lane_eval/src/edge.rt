//! Branches, and the `phi` that are read on an edge.
ghost use Rattle.std.specs.Prelude.{◌≡◌, ◌<◌, ◌≤◌, ◌+◌, ◌^◌, length, All, IfOk, OnOk, if◌then◌else◌, ◌==◌};
ghost use Rattle.machine_form.specs.After as after;
ghost use Rattle.machine_form.specs.After.{phis_in};
ghost use Rattle.machine_form.specs.Edge as spec;
ghost use Rattle.machine_form.specs.Edge.{entry_of, value_of_entry, jump_change, case_of};
ghost use Rattle.machine_form.specs.Straight.{value_of, with_value};
ghost use Rattle.lane_eval.specs.Filled.{if_all};
ghost use Rattle.lane_eval.specs.Operands.{CanGo, CanGoFrom};

use crate::program::Program;
use crate::step::{quiet, traps};
use crate::view::View;
use am_base::{OutOfMemory, Trap};
use change_set::{Change, Control, RegisterWrites};
use code_form::{Instr, Operand};

/// What a `phi` reads where the run comes from a block.
fn entry(entries: &[(u32, Operand)], from: usize) -> Option<Operand>
    ensures { result ≡ entry_of entries.now from }
{
    for (label, value) in entries {
        if *label as usize == from {
            return Some(*value);
        }
    }
    None
}

/// The word of a `phi` where the run comes from a block.
fn entry_word<V: View>(s: &V, entries: &[(u32, Operand)], from: usize) -> Option<u64>
    ensures { result ≡ value_of_entry (V.state s.now) (entry_of entries.now from) }
{
    match entry(entries, from) {
        Some(value) => s.value(value),
        None => None,
    }
}

/// Puts the writes of the `phi` at the front of some instructions, all read before any is written,
/// into `writes`, whatever stood there. It answers whether all that they read is set.
fn phi_writes<V: View>(
    s: &V,
    from: usize,
    instrs: &[Instr],
    results: &[Option<u32>],
    writes: &mut RegisterWrites,
) -> Result<bool, OutOfMemory>
    requires { length results.now ≡ length instrs.now }
    ensures { IfOk result (λ all. if_all all writes.new ≡ spec.phi_writes (V.state s.now) from instrs.now results.now) }
{
    writes.clear();
    for (i, instr) in instrs.iter().enumerate() {
        let Instr::Phi(entries) = instr else {
            return Ok(true);
        };
        let Some(r) = results[i] else {
            return Ok(true);
        };
        let Some(word) = entry_word(s, entries.as_slice(), from) else {
            return Ok(false);
        };
        writes.push(r, word)?;
    }
    Ok(true)
}

/// The run goes to a block of its function.
pub fn jump<V: View>(program: &Program, s: &V, b: u32, out: &mut Change) -> Result<(), OutOfMemory>
    requires { CanGo program.now (V.state s.now) b }
    ensures { OnOk result (out.new ≡ jump_change program.now (V.state s.now) b) }
{
    let code = program.code();
    let place = s.place();
    let block = program.block(place, b);
    let first = block.first as usize;
    let end = first + block.len as usize;
    let from = program.block_index(place);
    let instrs = &code.instrs.as_slice()[first..end];
    let results = &code.results.as_slice()[first..end];
    if !phi_writes(s, from, instrs, results, &mut out.writes)? {
        traps(s, Trap::UnsetRegister, out);
        return Ok(());
    }
    quiet(s.top(), Control::Jump(b), out);
    Ok(())
}

/// `br` with a condition: the block where it is 1, and the block where it is 0.
pub fn branch<V: View>(
    program: &Program,
    s: &V,
    c: Operand,
    b: u32,
    d: u32,
    out: &mut Change,
) -> Result<(), OutOfMemory>
    requires one { CanGo program.now (V.state s.now) b }
    requires zero { CanGo program.now (V.state s.now) d }
    ensures { OnOk result (out.new ≡ with_value (V.state s.now) (value_of (V.state s.now) c) (λ k. jump_change program.now (V.state s.now) (if (k == 1) then b else d))) }
{
    let Some(k) = s.value(c) else {
        traps(s, Trap::UnsetRegister, out);
        return Ok(());
    };
    if k == 1 {
        jump(program, s, b, out)
    } else {
        jump(program, s, d, out)
    }
}

/// The block of the first case with a word, or the default one.
fn case_block(cases: &[(u64, u32)], word: u64, other: u32) -> u32
    ensures { result ≡ case_of cases.now word other }
{
    for (case, b) in cases {
        if *case == word {
            return *b;
        }
    }
    other
}

/// `switch`: the value, the default block, and the cases with their blocks.
pub fn switch<V: View>(
    program: &Program,
    s: &V,
    a: Operand,
    other: u32,
    cases: &[(u64, u32)],
    out: &mut Change,
) -> Result<(), OutOfMemory>
    requires other { CanGo program.now (V.state s.now) other }
    requires cases { All (λ c. CanGo program.now (V.state s.now) c.1) cases.now }
    ensures { OnOk result (out.new ≡ with_value (V.state s.now) (value_of (V.state s.now) a) (λ x. jump_change program.now (V.state s.now) (case_of cases.now x other))) }
{
    let Some(x) = s.value(a) else {
        traps(s, Trap::UnsetRegister, out);
        return Ok(());
    };
    jump(program, s, case_block(cases, x, other), out)
}

/// How many `phi` stand at the front of some instructions.
fn phis(instrs: &[Instr]) -> u32
    requires { length instrs.now < 2 ^ 32 }
    ensures value { result ≡ phis_in instrs.now }
    ensures few { result ≤ length instrs.now }
{
    for (i, instr) in instrs.iter().enumerate() {
        let Instr::Phi(_) = instr else {
            return i as u32;
        };
    }
    instrs.len() as u32
}

/// Where a run stands that goes from a place to a block of its function: after the block's `phi`.
pub fn entry_place(program: &Program, place: u32, b: u32) -> u32
    requires { CanGoFrom program.now place b }
    ensures { result ≡ after.entry_place program.now place b }
{
    let block = program.block(place, b);
    let first = block.first as usize;
    let end = first + block.len as usize;
    block.first + phis(&program.code().instrs.as_slice()[first..end])
}
