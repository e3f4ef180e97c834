//! Laws of the definitions: a call answers nothing, and its clause is the law.
ghost use Rattle.std.specs.Prelude.{ℕ, ◌≤◌};
ghost use Rattle.traces.specs.Meanings.{IsSameTest};
ghost use Rattle.traces.specs.Trace.{Trial, within};
ghost use Rattle.machine_form.specs.declared.change.Change.{Change};
ghost use Rattle.machine_form.specs.State.{State};
ghost use Rattle.shared_analysis.specs.declared.ended.Ended.{Ended};
ghost use Rattle.shared_analysis.specs.Ended.{IsEnded};
ghost use Rattle.shared_analysis.specs.Groups.{IsGroup};

/// Of the classes of an analysis within a smaller budget n, those of length n are the classes at
/// step n, and the others have the mutants whose traces are shorter than n.
pub fn groups()
    ensures { (T : Trial State Change) (n : ℕ) (e : Ended) → IsSameTest T.meanings → n ≤ T.budget → IsEnded (within T n) e → IsGroup T n e }
{}
