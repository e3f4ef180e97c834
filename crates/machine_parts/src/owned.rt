//! The ports that a machine owns.
ghost use Rattle.std.specs.Prelude.{◌≡◌, ℕ, ◌+◌, ◌*◌, ◌<◌, ◌≤◌, ◌^◌, true, [], length, map, All, sum_by, IfOk, OnOk};
ghost use Rattle.code_form.specs.Sound.{IsSound};
ghost use Rattle.code_form.specs.Fit.{FitsTable, FitsCase};
ghost use Rattle.code_form.specs.Variant.{instr_of, mutants_of};
ghost use Rattle.traces.specs.Trace.{trace};
ghost use Rattle.machine_form.specs.Machine.{next_by, toll_of, is_known, case_trial, outcome_of};
ghost use Rattle.ports.specs.Asks.{answers_in, asked_in, AskedBy, AskedAtMostBy};
ghost use Rattle.lane_eval.specs.Running.{IsRunning};
ghost use Rattle.plain_machine.specs.Tolls.{tolls_of};
ghost use Rattle.machine_parts.specs.Shown.{Outside};

use am_base::OutOfMemory;
use am_lists::Items;
use change_set::Change;
use code_form::{Case, Code, PortSign, Variants};
use lane_eval::{Program, View};
use plain_machine::Alone;
use std::alloc::Global;

/// Ports that a machine owns, in order.
pub trait Ports: Drop {
    /// Their signs, what they answer, and how often each was asked.
    ghost outside: { Self → Outside };

    /// Tries variants in a state, as `lane_eval::try_variants` does with these ports.
    fn tries<V: View>(
        &mut self,
        alloc: Global,
        program: &Program,
        table: &Variants,
        s: &V,
        variants: &[u32],
        out: &mut Vec<Change>,
    ) -> Result<(), OutOfMemory>
        requires sound { IsSound program.now }
        requires table { FitsTable program.now table.now }
        requires running { IsRunning program.now (V.state s.now) }
        requires known { All (λ v. is_known table.now (V.state s.now).running.place v ≡ true) variants.now }
        requires signs { (outside self.old).signs ≡ program.now.signs }
        requires few { (p : ℕ) → asked_in (outside self.old).asked p + length variants.now < 2 ^ 63 }
        requires empty { out.old.items ≡ [] }
        ensures changes { OnOk result (out.new.items
            ≡ map (λ v. next_by program.now table.now (answers_in (outside self.old).answers) v (V.state s.now)) variants.now) }
        ensures signs { (outside self.new).signs ≡ (outside self.old).signs }
        ensures answers { (outside self.new).answers ≡ (outside self.old).answers }
        ensures asks { OnOk result (AskedBy (outside self.old).asked (outside self.new).asked
            (λ p. sum_by (λ v. toll_of p (V.state s.now) (instr_of program.now table.now (V.state s.now).running.place v)) variants.now)) }
        ensures asks_at_most { AskedAtMostBy (outside self.old).asked (outside self.new).asked
            (λ p. sum_by (λ v. toll_of p (V.state s.now) (instr_of program.now table.now (V.state s.now).running.place v)) variants.now) };

    /// Runs one mutant by itself, as `plain_machine::run_alone` does with these ports.
    fn alone(
        &mut self,
        alloc: Global,
        code: &Code,
        table: &Variants,
        m: u32,
        case: &Case,
    ) -> Result<Alone, OutOfMemory>
        requires sound { IsSound code.now }
        requires table { FitsTable code.now table.now }
        requires case { FitsCase code.now case.now }
        requires mutant { m < mutants_of table.now }
        requires signs { (outside self.old).signs ≡ code.now.signs }
        requires few { (p : ℕ) → asked_in (outside self.old).asked p ≤ 3 * 2 ^ 61 }
        ensures outcome { let T = case_trial code.now table.now (answers_in (outside self.old).answers) case.now in
            IfOk result (λ alone. alone.outcome ≡ outcome_of T m) }
        ensures length { let T = case_trial code.now table.now (answers_in (outside self.old).answers) case.now in
            IfOk result (λ alone. alone.length ≡ length (trace T m)) }
        ensures signs { (outside self.new).signs ≡ (outside self.old).signs }
        ensures answers { (outside self.new).answers ≡ (outside self.old).answers }
        ensures asks { let T = case_trial code.now table.now (answers_in (outside self.old).answers) case.now in
            OnOk result (AskedBy (outside self.old).asked (outside self.new).asked (tolls_of T m)) }
        ensures asks_at_most { let T = case_trial code.now table.now (answers_in (outside self.old).answers) case.now in
            AskedAtMostBy (outside self.old).asked (outside self.new).asked (tolls_of T m) };

    /// Copies of their signs, in order. It is refused only for want of memory.
    fn signs(&self, alloc: Global) -> Result<Items<PortSign>, OutOfMemory>
        ensures { IfOk result (λ signs. signs ≡ (outside self.now).signs) };
}
