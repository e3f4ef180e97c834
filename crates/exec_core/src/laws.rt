//! Laws of the definitions, for every machine: a call answers nothing, and its clauses are the law.
//! Premises that return: the machine's test of changes is equality (`IsSameTest`, a law of every
//! `Machine`), and there is a mutant (`0 < trial.mutants`).

ghost use Rattle.std.specs.Prelude.{◌≡◌, ◌↔◌, ℕ, true, false, ◌<◌, ◌≤◌, List, length, take};
ghost use Rattle.std.specs.List.{All, AllPairs, Contains};
ghost use Rattle.std.specs.Cmp.Lexicographic.{pointwise};
ghost use Rattle.traces.specs.Meanings.{IsSameTest};
ghost use Rattle.traces.specs.Trace.{Trial, trace, within, AreChangesFrom};
ghost use Rattle.traces.specs.Together.{together, class_of, AreTogether, CountsPrefixes};
ghost use Rattle.traces.specs.Work.{steps, executions, splits};
ghost use Rattle.traces.specs.Configuration.{IsConfiguration, is_live, run, opening};
ghost use Rattle.traces.specs.Ends.{IsEnd};
ghost use Rattle.traces.specs.Splits.{IsSplit, IsEarlier};

use exec_machine::Machine;

/// The trace of a mutant is the one list of at most as many changes as the budget has, each made by
/// the mutant in the state that those before it lead to, which hasn't ended, where fewer changes
/// than the budget has lead to a state that has ended.
pub fn traces<M: Machine>()
    ensures { (trial : Trial M.Meaning M.Change) (m : ℕ) (changes : List M.Change)
        → AreChangesFrom trial m trial.budget trial.start changes ↔ (changes ≡ trace trial m) }
{}

/// Where the test of changes is equality: two mutants are together at n exactly where both traces
/// have at least n changes and their first n changes are equal. All are together at 0. Two that are
/// together at n either both have a further change or neither has. And the test by which
/// `executions` counts whole traces is equality of them.
pub fn classes<M: Machine>()
    ensures together { (trial : Trial M.Meaning M.Change) (m k n : ℕ)
        → IsSameTest trial.meanings → (together trial m k n ≡ true) ↔ AreTogether trial m k n }
    ensures at_the_start { (trial : Trial M.Meaning M.Change) (m k : ℕ) → IsSameTest trial.meanings → together trial m k 0 ≡ true }
    ensures both_go_on { (trial : Trial M.Meaning M.Change) (m k n : ℕ)
        → IsSameTest trial.meanings → AreTogether trial m k n → n < length (trace trial m) → n < length (trace trial k) }
    ensures whole { (trial : Trial M.Meaning M.Change) (m k : ℕ) → IsSameTest trial.meanings
        → (pointwise trial.meanings.same (trace trial m) (trace trial k) ≡ true) ↔ (trace trial m ≡ trace trial k) }
{}

/// A trial within a smaller budget: the trace of each mutant is the first changes of its trace, two
/// mutants are together after at most that many changes exactly where they are without it, and so
/// the classes are the same.
pub fn budgets<M: Machine>()
    ensures trace { (trial : Trial M.Meaning M.Change) (m n : ℕ)
        → n ≤ trial.budget → trace (within trial n) m ≡ take n (trace trial m) }
    ensures together { (trial : Trial M.Meaning M.Change) (budget m k n : ℕ)
        → budget ≤ trial.budget → n ≤ budget → together (within trial budget) m k n ≡ together trial m k n }
    ensures classes { (trial : Trial M.Meaning M.Change) (budget m n : ℕ)
        → budget ≤ trial.budget → n ≤ budget → class_of (within trial budget) m n ≡ class_of trial m n }
{}

/// Where the test of changes is equality, the number of steps is the number of the different
/// nonempty prefixes of the mutants' traces.
pub fn prefixes<M: Machine>()
    ensures { (trial : Trial M.Meaning M.Change) → IsSameTest trial.meanings → CountsPrefixes trial (steps trial) }
{}

/// Where the test of changes is equality and there is a mutant: in every configuration that any
/// list of turns reaches, each mutant is a member of exactly one execution, the members of an
/// execution at step n are exactly a class at n, and its state is the one after n changes for each
/// of its members.
pub fn configurations<M: Machine>()
    ensures { (trial : Trial M.Meaning M.Change) (turns : List ℕ)
        → IsSameTest trial.meanings → 0 < trial.mutants → IsConfiguration trial (run trial (opening trial) turns) }
{}

/// Where besides no execution of the configuration is live: the members of each execution are
/// exactly the mutants with one whole trace, its state is the one at the end of that trace, and
/// there are as many executions as different traces.
pub fn ends<M: Machine>()
    ensures classes { (trial : Trial M.Meaning M.Change) (turns : List ℕ) → IsSameTest trial.meanings → 0 < trial.mutants
        → All (λ e. is_live trial e ≡ false) (run trial (opening trial) turns)
        → All (IsEnd trial) (run trial (opening trial) turns) }
    ensures count { (trial : Trial M.Meaning M.Change) (turns : List ℕ) → IsSameTest trial.meanings → 0 < trial.mutants
        → All (λ e. is_live trial e ≡ false) (run trial (opening trial) turns)
        → length (run trial (opening trial) turns) ≡ executions trial }
{}

/// Where the test of changes is equality, (n, leaders) is one of the splits exactly where the class
/// of some mutant at n goes on, and `leaders` is the rising list of those of its members whose
/// change number n no lower member makes, two or more of them. The splits stand in order of n, then
/// of the first leader.
pub fn splits<M: Machine>()
    ensures exactly { (trial : Trial M.Meaning M.Change) (split : ℕ × List ℕ)
        → IsSameTest trial.meanings → Contains (splits trial) split ↔ IsSplit trial split }
    ensures order { (trial : Trial M.Meaning M.Change) → IsSameTest trial.meanings → AllPairs IsEarlier (splits trial) }
{}
