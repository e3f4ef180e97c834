//! The ports that a machine owns.
ghost use Rattle.std.specs.Prelude.{◌≡◌, ℕ, ◌+◌, ◌*◌, ◌<◌, ◌≤◌, ◌^◌, true, [], length, map, All, sum_by, IfOk, OnOk};
ghost use Rattle.code_form.specs.Sound.{IsSound};
ghost use Rattle.code_form.specs.Fit.{FitsTable, FitsCase};
ghost use Rattle.code_form.specs.Variant.{instr_of, mutants_of};
ghost use Rattle.traces.specs.Trace.{trace};
ghost use Rattle.machine_form.specs.Machine.{next_by, toll_of, is_known, case_trial, outcome_of};
ghost use Rattle.ports.specs.Asks.{answers_in, asked_in, AskedBy, AskedAtMostBy};
ghost use Rattle.lane_eval.specs.Running.{IsRunning};
ghost use Rattle.plain_machine.specs.Tolls.{tolls_of};
ghost use Rattle.flat_machine.specs.Shown.{Outside};

use crate::boxed::{copied_signs, run_by, try_by};
use am_base::OutOfMemory;
use am_lists::Items;
use change_set::Change;
use code_form::{Case, Code, PortSign, Variants};
use flat_state::Flat;
use plain_machine::{Alone, Program};
use ports::Port;
use std::alloc::Global;

/// Ports that a machine owns, in order.
pub trait Ports: Drop {
    /// Their signs, what they answer, and how often each was asked.
    ghost outside: { Self → Outside };

    /// Tries variants in a state, as `plain_machine::try_variants` does with these ports.
    fn tries(
        &mut self,
        alloc: Global,
        program: &Program,
        table: &Variants,
        s: &Flat,
        variants: &[u32],
        out: &mut Vec<Change>,
    ) -> Result<(), OutOfMemory>
        requires sound { IsSound program.now }
        requires table { FitsTable program.now table.now }
        requires running { IsRunning program.now s.now.state }
        requires known { All (λ v. is_known table.now s.now.state.running.place v ≡ true) variants.now }
        requires signs { (outside self.old).signs ≡ program.now.signs }
        requires few { (p : ℕ) → asked_in (outside self.old).asked p + length variants.now < 2 ^ 63 }
        requires empty { out.old.items ≡ [] }
        ensures changes { OnOk result (out.new.items
            ≡ map (λ v. next_by program.now table.now (answers_in (outside self.old).answers) v s.now.state) variants.now) }
        ensures signs { (outside self.new).signs ≡ (outside self.old).signs }
        ensures answers { (outside self.new).answers ≡ (outside self.old).answers }
        ensures asks { OnOk result (AskedBy (outside self.old).asked (outside self.new).asked
            (λ p. sum_by (λ v. toll_of p s.now.state (instr_of program.now table.now s.now.state.running.place v)) variants.now)) }
        ensures asks_at_most { AskedAtMostBy (outside self.old).asked (outside self.new).asked
            (λ p. sum_by (λ v. toll_of p s.now.state (instr_of program.now table.now s.now.state.running.place v)) variants.now) };

    /// Runs one mutant by itself, as `plain_machine::run_alone` does with these ports.
    fn alone(
        &mut self,
        alloc: Global,
        code: &Code,
        table: &Variants,
        m: u32,
        case: &Case,
    ) -> Result<Alone, OutOfMemory>
        requires sound { IsSound code.now }
        requires table { FitsTable code.now table.now }
        requires case { FitsCase code.now case.now }
        requires mutant { m < mutants_of table.now }
        requires signs { (outside self.old).signs ≡ code.now.signs }
        requires few { (p : ℕ) → asked_in (outside self.old).asked p ≤ 3 * 2 ^ 61 }
        ensures outcome { let T = case_trial code.now table.now (answers_in (outside self.old).answers) case.now in
            IfOk result (λ alone. alone.outcome ≡ outcome_of T m) }
        ensures length { let T = case_trial code.now table.now (answers_in (outside self.old).answers) case.now in
            IfOk result (λ alone. alone.length ≡ length (trace T m)) }
        ensures signs { (outside self.new).signs ≡ (outside self.old).signs }
        ensures answers { (outside self.new).answers ≡ (outside self.old).answers }
        ensures asks { let T = case_trial code.now table.now (answers_in (outside self.old).answers) case.now in
            OnOk result (AskedBy (outside self.old).asked (outside self.new).asked (tolls_of T m)) }
        ensures asks_at_most { let T = case_trial code.now table.now (answers_in (outside self.old).answers) case.now in
            AskedAtMostBy (outside self.old).asked (outside self.new).asked (tolls_of T m) };

    /// Copies of their signs, in order. It is refused only for want of memory.
    fn signs(&self, alloc: Global) -> Result<Items<PortSign>, OutOfMemory>
        ensures { IfOk result (λ signs. signs ≡ (outside self.now).signs) };
}

/// Boxed ports. A function that takes boxed ports and has a condition calls generic code only at a
/// type of its own crate like this one: the checker doesn't see into an impl of another crate for a
/// type that holds a `dyn`.
#[derive(Drop)]
pub struct OwnPorts {
    pub all: Vec<Box<dyn Port>>,
}

impl Ports for OwnPorts {
    ghost use Rattle.std.specs.Prelude.{map};

    ghost outside = { λ p. record {
      signs = map (λ q. (Port-box q).sign q.value) p.all.items;
      answers = map (λ q. (Port-box q).answers q.value) p.all.items;
      asked = map (λ q. (Port-box q).asked q.value) p.all.items;
    } };

    fn tries(
        &mut self,
        alloc: Global,
        program: &Program,
        table: &Variants,
        s: &Flat,
        variants: &[u32],
        out: &mut Vec<Change>,
    ) -> Result<(), OutOfMemory> {
        try_by(alloc, program, table, s, variants, &mut self.all, out)
    }

    fn alone(
        &mut self,
        alloc: Global,
        code: &Code,
        table: &Variants,
        m: u32,
        case: &Case,
    ) -> Result<Alone, OutOfMemory> {
        run_by(alloc, code, table, m, case, &mut self.all)
    }

    fn signs(&self, alloc: Global) -> Result<Items<PortSign>, OutOfMemory> {
        copied_signs(alloc, &self.all)
    }
}
