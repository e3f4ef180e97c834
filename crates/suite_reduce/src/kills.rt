//! Whether a test kills a mutant.

ghost use Rattle.std.specs.Prelude.{◌≡◌, ◌<◌, length};
ghost use Rattle.std.specs.List.{position_or_len};
ghost use Rattle.suite_reduce.specs.Kills as spec;
ghost use Rattle.suite_reduce.specs.Kills.{first_tests};

use kill_matrix::Matrix;

/// Whether a test kills a mutant. Mutant 0, which is the original, is killed by none, nor is a mutant
/// that there isn't. O(1).
pub(crate) fn is_killed_by(matrix: &Matrix, m: u32, t: u32) -> bool
    ensures { result ≡ spec.is_killed_by matrix.now m t }
{
    if m == 0 || m >= matrix.mutants() || t >= matrix.tests() {
        return false;
    }
    matrix.letter(m, t).kills()
}

/// The first test that kills a mutant, or the number of tests where none does.
pub(crate) fn first_killer(matrix: &Matrix, m: u32) -> u32
    ensures { result ≡ position_or_len (spec.is_killed_by matrix.now m) (first_tests (length matrix.now.tests)) }
{
    let tests = matrix.tests();
    'each: for t in 0..tests {
        if is_killed_by(matrix, m, t) {
            return t;
        }
    }
    tests
}
