//! For each mutant the least one that subsumes it.

ghost use Rattle.std.specs.Prelude.{◌≡◌, ◌+◌, ◌-◌, ◌<◌, ◌≤◌, ◌&&◌, length, IfOk};
ghost use Rattle.std.specs.List.{find, range_with_len};
ghost use Rattle.kill_matrix.specs.Score.{Letters};
ghost use Rattle.suite_reduce.specs.Planes.{AreWords, words_kill, words_within};
ghost use Rattle.suite_reduce.specs.Scan.{AreMinimal};
ghost use Rattle.suite_reduce.specs.Subsumers.{IsLeastSubsumer, AreLeastSubsumers};

use crate::planes::{first_planes, is_killed, is_within_from, planes_of};
use am_base::OutOfMemory;
use am_lists::Items;
use kill_matrix::Matrix;
use std::alloc::Global;

/// The first of these mutants such that every test that kills it kills `b`.
fn first_within(planes: &[Items<u64>], firsts: &[u32], mutants: &[u32], b: u32) -> Option<u32>
    ensures { result ≡ find (λ a. words_within planes.now a b) mutants.now }
{
    mutants
        .iter()
        .copied()
        .find(|a| is_within_from(planes, plane_at(firsts, *a), *a, b))
}

/// The plane that is asked first of a mutant.
fn plane_at(firsts: &[u32], a: u32) -> u32 {
    match firsts.get(a as usize) {
        Some(plane) => *plane,
        None => 0,
    }
}

/// The first killed mutant from a number on such that every test that kills it kills `b`.
fn next_within(
    planes: &[Items<u64>],
    firsts: &[u32],
    from: u32,
    mutants: u32,
    b: u32,
) -> Option<u32>
    requires { from ≤ mutants }
    ensures { result ≡ find (λ a. words_within planes.now a b && words_kill planes.now a) (range_with_len from (mutants - from)) }
{
    (from..mutants).find(|a| is_within_from(planes, plane_at(firsts, *a), *a, b)
        && is_killed(planes, *a))
}

/// The least mutant that subsumes `b`. `minimal` are killed mutants before `b`: one of them is within
/// each killed mutant before `b`, and no greater. `b` joins them where none of them is within it.
fn subsumer_of(
    planes: &[Items<u64>],
    firsts: &[u32],
    mutants: u32,
    b: u32,
    minimal: &mut Vec<u32>,
) -> Result<Option<u32>, OutOfMemory>
    requires { b < mutants }
    ensures least { IfOk result (λ found. (grid : Letters) → grid.mutants ≡ mutants → AreWords grid planes.now
        → AreMinimal grid minimal.old.items b → IsLeastSubsumer grid b found) }
    ensures minimal { IfOk result (λ found. (grid : Letters) → grid.mutants ≡ mutants → AreWords grid planes.now
        → AreMinimal grid minimal.old.items b → AreMinimal grid minimal.new.items (b + 1)) }
{
    if !is_killed(planes, b) {
        return Ok(None);
    }
    match first_within(planes, firsts, minimal, b) {
        Some(a) => Ok(Some(a)),
        None => {
            minimal.push(b)?;
            Ok(next_within(planes, firsts, b + 1, mutants, b))
        }
    }
}

/// Returns for each mutant from 0 the least mutant that subsumes it: another one that some test
/// kills, where every test that kills it kills this one too. None for mutant 0. Refuses for want of
/// memory alone.
///
/// A mutant is compared with those before it that no mutant before them subsumes, and where none of
/// these subsumes it, with those behind it. So there are at most two comparisons, of a word for each
/// 64 tests, for a mutant and each of these, of which there are no more than different rows of letters.
pub fn subsumers(
    alloc: Global,
    matrix: &Matrix,
    mutants: u32,
    tests: u32,
) -> Result<Vec<Option<u32>>, OutOfMemory>
    requires mutants { matrix.now.mutants ≡ mutants }
    requires tests { length matrix.now.tests ≡ tests }
    ensures { IfOk result (λ list. AreLeastSubsumers matrix.now list.items) }
{
    let _tests = tests;
    let planes = planes_of(alloc, matrix)?;
    let firsts = first_planes(alloc, &planes, mutants)?;
    let mut minimal = Vec::new(alloc);
    let mut found = Vec::with_capacity(alloc, mutants as usize)?;
    'mutants: for b in 0..mutants {
        let least = subsumer_of(&planes, &firsts, mutants, b, &mut minimal)?;
        found.push(least)?;
    }
    Ok(found)
}
