//! The smaller suite.

ghost use Rattle.std.specs.Prelude.{◌≡◌, ◌==◌, ◌&&◌, ◌||◌, ◌+◌, ◌<◌, ◌≤◌, not, false, length, map, slice_index, slice_index_or, IfOk, OnOk};
ghost use Rattle.std.specs.List.{list_any, range_with_len};
ghost use Rattle.suite_reduce.specs.Choice.{chosen_tests};
ghost use Rattle.suite_reduce.specs.Kills as kill;
ghost use Rattle.suite_reduce.specs.Pass.{AreFirstKillers, IsPass};

use crate::kills::{first_killer, is_killed_by};
use am_base::OutOfMemory;
use kill_matrix::Matrix;
use std::alloc::Global;

/// The first test that kills each mutant.
fn first_killers(alloc: Global, matrix: &Matrix) -> Result<Vec<u32>, OutOfMemory>
    ensures { IfOk result (λ firsts. AreFirstKillers matrix.now firsts.items) }
{
    let firsts = (0..matrix.mutants())
        .map(|m| first_killer(matrix, m))
        .collect(alloc)?;
    Ok(firsts)
}

/// Whether a set has a mutant.
fn has(set: &[bool], m: u32) -> bool
    ensures { result ≡ slice_index_or set.now m false }
{
    match set.get(m as usize) {
        Some(bit) => *bit,
        None => false,
    }
}

/// Whether this is the first test that kills a mutant.
fn is_first(firsts: &[u32], m: u32, t: u32) -> bool
    requires { m < length firsts.now }
    ensures { result ≡ (slice_index firsts.now m == t) }
{
    firsts[m as usize] == t
}

/// Whether a test is the first that kills some mutant that isn't covered yet.
fn is_needed(firsts: &[u32], covered: &[bool], mutants: u32, t: u32) -> bool
    requires { mutants ≤ length firsts.now }
    ensures { result ≡ list_any (λ m. (slice_index firsts.now m == t) && not (slice_index_or covered.now m false)) (range_with_len 0 mutants) }
{
    (0..mutants).any(|m| is_first(firsts, m, t) && !has(covered, m))
}

/// The mutants of a set, and those that a test kills.
fn with_killed(
    alloc: Global,
    matrix: &Matrix,
    covered: &[bool],
    t: u32,
) -> Result<Vec<bool>, OutOfMemory>
    ensures { IfOk result (λ more. more.items ≡ map (λ m. kill.is_killed_by matrix.now m t || slice_index_or covered.now m false) (range_with_len 0 matrix.now.mutants)) }
{
    let more = (0..matrix.mutants())
        .map(|m| is_killed_by(matrix, m, t) || has(covered, m))
        .collect(alloc)?;
    Ok(more)
}

/// Judges one more test of the pass. `covered` are the mutants that the chosen tests kill.
fn judge(
    alloc: Global,
    matrix: &Matrix,
    firsts: &[u32],
    t: u32,
    chosen: &mut Vec<u32>,
    covered: &mut Vec<bool>,
) -> Result<(), OutOfMemory>
    requires firsts { AreFirstKillers matrix.now firsts.now }
    requires test { t < length matrix.now.tests }
    requires pass { IsPass matrix.now (t + 1) chosen.old.items covered.old.items }
    ensures { OnOk result (IsPass matrix.now t chosen.new.items covered.new.items) }
{
    if !is_needed(firsts, covered, matrix.mutants(), t) {
        return Ok(());
    }
    let more = with_killed(alloc, matrix, covered, t)?;
    chosen.push(t)?;
    *covered = more;
    Ok(())
}

/// Returns the tests of a smaller suite that kills the same mutants, by their numbers from 0, rising.
/// A pass goes over the tests from the last to the first and keeps a test where some mutant is killed
/// by it, by no test before it, and by none that was kept after it. Refuses for want of memory alone.
/// O(mutants · tests).
pub fn choose(alloc: Global, matrix: &Matrix, tests: u32) -> Result<Vec<u32>, OutOfMemory>
    requires { length matrix.now.tests ≡ tests }
    ensures { IfOk result (λ chosen. chosen.items ≡ chosen_tests matrix.now) }
{
    let firsts = first_killers(alloc, matrix)?;
    let mut covered = vec![in alloc; false; matrix.mutants() as usize]?;
    let mut chosen = Vec::new(alloc);
    'pass: for k in 0..tests {
        let t = tests - 1 - k;
        judge(alloc, matrix, &firsts, t, &mut chosen, &mut covered)?;
    }
    chosen.reverse();
    Ok(chosen)
}
