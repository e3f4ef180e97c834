//! The run of one mutant by itself.
ghost use Rattle.std.specs.Prelude.{◌≡◌, ℕ, ◌+◌, ◌*◌, ◌^◌, ◌<◌, ◌≤◌, length, map, IfOk, OnOk};
ghost use Rattle.code_form.specs.Sound.{IsSound};
ghost use Rattle.code_form.specs.Variant.{mutants_of, variant_of};
ghost use Rattle.code_form.specs.Fit.{FitsTable, FitsCase};
ghost use Rattle.traces.specs.Trace.{trace, changes_from, state_after};
ghost use Rattle.machine_form.specs.Machine.{next_by, case_trial, outcome_of};
ghost use Rattle.machine_form.specs.Machine.{toll_of};
ghost use Rattle.code_form.specs.Variant.{instr_of};
ghost use Rattle.ports.specs.Asks.{answers_in, asked_in, AskedBy, AskedAtMostBy};
ghost use Rattle.lane_eval.specs.Running.{IsRunning};
ghost use Rattle.plain_machine.specs.Tolls.{tolls_from, tolls_of};

use crate::turn::apply;
use am_base::{OutOfMemory, Outcome};
use change_set::Change;
use code_form::{Case, Code, Place, Variants};
use flat_state::Flat;
use lane_eval::{Program, fill_variant};
use ports::Port;
use std::alloc::Global;

/// What a mutant does by itself on one case.
#[derive(Debug, Drop, PartialEq, Eq)]
pub struct Alone {
    /// How the run ends, and what it writes.
    pub outcome: Outcome,
    /// The number of changes, one for each step.
    pub length: u64,
}

/// Makes `out`, whatever stood there, the change that a mutant makes in a state.
fn next(
    alloc: Global,
    program: &Program,
    variants: &Variants,
    m: u32,
    s: &Flat,
    ports: &mut [Box<dyn Port>],
    out: &mut Change,
) -> Result<(), OutOfMemory>
    requires sound { IsSound program.now }
    requires table { FitsTable program.now variants.now }
    requires running { IsRunning program.now s.now.state }
    requires signs { map (λ q. sign q) ports.old ≡ program.now.signs }
    requires few { (p : ℕ) → asked_in (map (λ q. asked q) ports.old) p < 2 ^ 63 }
    ensures change { let v = variant_of variants.now m s.now.state.running.place in
        OnOk result (out.new ≡ next_by program.now variants.now (answers_in (map (λ q. answers q) ports.old)) v s.now.state) }
    ensures signs { map (λ q. sign q) ports.new ≡ map (λ q. sign q) ports.old }
    ensures answers { map (λ q. answers q) ports.new ≡ map (λ q. answers q) ports.old }
    ensures asks { let v = variant_of variants.now m s.now.state.running.place in
        OnOk result (AskedBy (map (λ q. asked q) ports.old) (map (λ q. asked q) ports.new)
        (λ p. toll_of p s.now.state (instr_of program.now variants.now s.now.state.running.place v))) }
    ensures asks_at_most { let v = variant_of variants.now m s.now.state.running.place in
        AskedAtMostBy (map (λ q. asked q) ports.old) (map (λ q. asked q) ports.new)
        (λ p. toll_of p s.now.state (instr_of program.now variants.now s.now.state.running.place v)) }
{
    let v = variants.variant(m, Place(s.place()));
    fill_variant(alloc, program, variants, v, s, ports, out)
}

/// Makes the changes of a mutant from a state on, to its end or to the end of the budget, and answers how many there were.
fn run(
    alloc: Global,
    program: &Program,
    variants: &Variants,
    m: u32,
    case: &Case,
    s: &mut Flat,
    ports: &mut [Box<dyn Port>],
) -> Result<u64, OutOfMemory>
    requires sound { IsSound program.now }
    requires table { FitsTable program.now variants.now }
    requires running { IsRunning program.now s.old.state }
    requires signs { map (λ q. sign q) ports.old ≡ program.now.signs }
    requires few { (p : ℕ) → asked_in (map (λ q. asked q) ports.old) p + case.now.budget < 2 ^ 63 }
    ensures state { let T = case_trial program.now variants.now (answers_in (map (λ q. answers q) ports.old)) case.now in
        IfOk result (λ _. s.new.state ≡ state_after T s.old.state (changes_from T m case.now.budget s.old.state)) }
    ensures length { let T = case_trial program.now variants.now (answers_in (map (λ q. answers q) ports.old)) case.now in
        IfOk result (λ n. n ≡ length (changes_from T m case.now.budget s.old.state)) }
    ensures signs { map (λ q. sign q) ports.new ≡ map (λ q. sign q) ports.old }
    ensures answers { map (λ q. answers q) ports.new ≡ map (λ q. answers q) ports.old }
    ensures asks { let T = case_trial program.now variants.now (answers_in (map (λ q. answers q) ports.old)) case.now in
        OnOk result (AskedBy (map (λ q. asked q) ports.old) (map (λ q. asked q) ports.new) (λ p. tolls_from T m p s.old.state (changes_from T m case.now.budget s.old.state))) }
    ensures asks_at_most { let T = case_trial program.now variants.now (answers_in (map (λ q. answers q) ports.old)) case.now in
        AskedAtMostBy (map (λ q. asked q) ports.old) (map (λ q. asked q) ports.new) (λ p. tolls_from T m p s.old.state (changes_from T m case.now.budget s.old.state)) }
{
    let budget = case.budget;
    // one change, filled anew in each step
    let mut change = Change::new(alloc);
    for i in 0..budget {
        if s.has_ended() {
            return Ok(i);
        }
        next(alloc, program, variants, m, s, ports, &mut change)?;
        s.ready(program.code(), &change)?;
        apply(program, s, &change);
    }
    Ok(budget)
}

/// Runs one mutant by itself on a case (mutant 0 is the unchanged program), and answers its outcome
/// and the number of its changes. A run that doesn't end within the budget ends by
/// `Ending::Budget`, after as many changes as the budget has. The ports are those whose signs the
/// code was checked with, in order; each is asked as often as the run calls it with its arguments
/// set, and after a refusal at most so often. It is refused only for want of memory.
///
/// A step costs its instruction: a call its callee's registers, an edge its `phi`. The table that
/// says in which function and block each place lies is made once, and costs the code's length.
pub fn run_alone(
    alloc: Global,
    code: &Code,
    variants: &Variants,
    m: u32,
    case: &Case,
    ports: &mut [Box<dyn Port>],
) -> Result<Alone, OutOfMemory>
    requires sound { IsSound code.now }
    requires table { FitsTable code.now variants.now }
    requires case { FitsCase code.now case.now }
    requires mutant { m < mutants_of variants.now }
    requires signs { map (λ q. sign q) ports.old ≡ code.now.signs }
    requires few { (p : ℕ) → asked_in (map (λ q. asked q) ports.old) p ≤ 3 * 2 ^ 61 }

    ensures outcome { let T = case_trial code.now variants.now (answers_in (map (λ q. answers q) ports.old)) case.now in
        IfOk result (λ alone. alone.outcome ≡ outcome_of T m) }
    ensures length { let T = case_trial code.now variants.now (answers_in (map (λ q. answers q) ports.old)) case.now in
        IfOk result (λ alone. alone.length ≡ length (trace T m)) }

    // Whatever it answers, the ports mean the same, and each was asked no more often than the run asks it.
    ensures signs { map (λ q. sign q) ports.new ≡ map (λ q. sign q) ports.old }
    ensures answers { map (λ q. answers q) ports.new ≡ map (λ q. answers q) ports.old }
    ensures asks { let T = case_trial code.now variants.now (answers_in (map (λ q. answers q) ports.old)) case.now in
        OnOk result (AskedBy (map (λ q. asked q) ports.old) (map (λ q. asked q) ports.new) (tolls_of T m)) }
    ensures asks_at_most { let T = case_trial code.now variants.now (answers_in (map (λ q. answers q) ports.old)) case.now in
        AskedAtMostBy (map (λ q. asked q) ports.old) (map (λ q. asked q) ports.new) (tolls_of T m) }
{
    let program = Program::new(alloc, code)?;
    let mut state = Flat::start(alloc, code, case)?;
    let length = run(alloc, &program, variants, m, case, &mut state, ports)?;
    Ok(Alone {
        outcome: state.into_outcome(),
        length,
    })
}
