//! A worked example of the definitions: five mutants of a machine with the gains 1, 8, 2. Mutant 1 has variant 1 at place 0, mutant 2 at
//! place 1, and mutants 3 and 4 have the same one at place 2. A call answers nothing, and its clauses are what the definitions give.

ghost use Rattle.std.specs.Prelude.{◌≡◌, ◌∷◌, []};
ghost use Rattle.traces.specs.Together.{class_of};
ghost use Rattle.traces.specs.Work.{steps, tries, alone, load, executions, asks, splits};
ghost use Rattle.traces.specs.Configuration.{opening, run};
ghost use Rattle.exec_machine.specs.Example.{five_mutants, execution};

/// Within a budget of 3 changes. The run takes the first execution at each turn: at the first turn mutant 1 parts from the others, at the fourth
/// mutants 3 and 4 part from 0 and 2.
pub fn within_three()
    ensures steps { steps (five_mutants 3) ≡ 7 }
    ensures alone { alone (five_mutants 3) ≡ 15 }
    ensures tries { tries (five_mutants 3) ≡ 8 }
    ensures executions { executions (five_mutants 3) ≡ 3 }
    ensures load { load (five_mutants 3) ≡ 5 }
    ensures asks { asks (five_mutants 3) 0 ≡ 3 }
    ensures splits { splits (five_mutants 3) ≡ (0, 0 ∷ 1 ∷ []) ∷ (2, 0 ∷ 3 ∷ []) ∷ [] }
    ensures first_class { class_of (five_mutants 3) 0 3 ≡ 0 ∷ 2 ∷ [] }
    ensures second_class { class_of (five_mutants 3) 1 3 ≡ 1 ∷ [] }
    ensures third_class { class_of (five_mutants 3) 3 3 ≡ 3 ∷ 4 ∷ [] }
    ensures run { run (five_mutants 3) (opening (five_mutants 3)) (0 ∷ 0 ∷ 0 ∷ 0 ∷ 0 ∷ [])
        ≡ execution 3 (0 ∷ 2 ∷ []) (3, 0) ∷ execution 3 (3 ∷ 4 ∷ []) (3, 2) ∷ execution 3 (1 ∷ []) (3, 1) ∷ [] }
{}

/// Within a budget of 2 changes. The fourth turn of the run is at an execution that isn't live, and changes nothing.
pub fn within_two()
    ensures steps { steps (five_mutants 2) ≡ 4 }
    ensures alone { alone (five_mutants 2) ≡ 10 }
    ensures tries { tries (five_mutants 2) ≡ 5 }
    ensures executions { executions (five_mutants 2) ≡ 2 }
    ensures splits { splits (five_mutants 2) ≡ (0, 0 ∷ 1 ∷ []) ∷ [] }
    ensures run { run (five_mutants 2) (opening (five_mutants 2)) (0 ∷ 0 ∷ 0 ∷ 0 ∷ [])
        ≡ execution 2 (0 ∷ 2 ∷ 3 ∷ 4 ∷ []) (2, 0) ∷ execution 2 (1 ∷ []) (2, 1) ∷ [] }
{}
