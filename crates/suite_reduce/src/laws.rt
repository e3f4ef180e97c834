//! Laws of the definitions: a call answers nothing, and its clause is the law.

ghost use Rattle.std.specs.Prelude.{ℕ};
ghost use Rattle.std.specs.List.{Contains};
ghost use Rattle.kill_matrix.specs.Score.{Letters};
ghost use Rattle.suite_reduce.specs.Choice.{chosen_tests, KillsLikeAll, IsKilledByOneAlone};

/// The chosen tests together kill what all tests kill.
pub fn chosen_kill_like_all()
    ensures { (grid : Letters) → KillsLikeAll grid (chosen_tests grid) }
{}

/// For each chosen test some mutant is killed by it and by no other chosen one. So without any one
/// of them some mutant is no longer killed.
pub fn chosen_kill_alone()
    ensures { (grid : Letters) (t : ℕ) → Contains (chosen_tests grid) t → IsKilledByOneAlone grid (chosen_tests grid) t }
{}
