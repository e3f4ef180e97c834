//! Laws of the definitions, for every machine: a call answers nothing, and its clause is the law.
//! Premises that return: the machine's test of changes is equality (`IsSameTest`, a law of every
//! `Machine`), and mutant 0 has variant 0 everywhere, as in every table.

ghost use Rattle.std.specs.Prelude.{◌≡◌, ℕ, ◌≤◌, Option, Some, None};
ghost use Rattle.traces.specs.Meanings.{IsSameTest};
ghost use Rattle.traces.specs.Trace.{Trial, trace};
ghost use Rattle.reach_report.specs.Reach.{IsReach, IsParting};

use exec_machine::Machine;

/// A mutant with a parting has a reach that isn't greater.
pub fn no_later_parting<M: Machine>()
    ensures { (trial : Trial M.Meaning M.Change) (m parting : ℕ) (reach : Option ℕ) → IsSameTest trial.meanings
        → ((at : ℕ) → trial.variant 0 at ≡ 0) → IsParting trial m (Some parting) → IsReach trial m reach
        → (number : ℕ) × (reach ≡ Some number) × (number ≤ parting) }
{}

/// A mutant without a parting has the trace of mutant 0.
pub fn unparted_traces<M: Machine>()
    ensures { (trial : Trial M.Meaning M.Change) (m : ℕ) → IsSameTest trial.meanings
        → IsParting trial m None → trace trial m ≡ trace trial 0 }
{}
