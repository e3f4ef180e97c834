//! Which tests kill a mutant, as words of 64 tests each.

ghost use Rattle.std.specs.Prelude.{◌≡◌, ◌≢◌, ℕ, if◌then◌else◌, ◌==◌, ◌*◌, ◌^◌, ◌<◌, false, slice_index, IfOk};
ghost use Rattle.std.specs.Int.{bit_at};
ghost use Rattle.std.specs.Int.Bits.{bit_and};
ghost use Rattle.suite_reduce.specs.Planes.{AreWords, IsWord, IsPlane, words_kill, words_within};

use crate::kills::is_killed_by;
use am_base::OutOfMemory;
use am_lists::Items;
use kill_matrix::Matrix;
use std::alloc::Global;

/// A word with one more bit, which was clear.
fn with_bit(word: u64, at: u32, set: bool) -> u64
    requires at { at < 64 }
    requires clear { bit_at word at ≡ 0 }
    ensures here { bit_at result at ≡ (if set then 1 else 0) }
    ensures others { (i : ℕ) → i ≢ at → bit_at result i ≡ bit_at word i }
{
    if set { word | (1 << at) } else { word }
}

/// Which of 64 tests kill a mutant: bit i is that of test 64·block + i.
fn word_of(matrix: &Matrix, m: u32, block: u32) -> u64
    requires { block < 2 ^ 26 }
    ensures { IsWord matrix.now m (64 * block) result }
{
    let mut word = 0u64;
    'bits: for at in 0..64u32 {
        let set = is_killed_by(matrix, m, 64 * block + at);
        word = with_bit(word, at, set);
    }
    word
}

/// For each mutant, which of 64 tests kill it.
fn plane_of(alloc: Global, matrix: &Matrix, block: u32) -> Result<Items<u64>, OutOfMemory>
    requires { block < 2 ^ 26 }
    ensures { IfOk result (λ plane. IsPlane matrix.now block plane) }
{
    let mut plane = Vec::with_capacity(alloc, matrix.mutants() as usize)?;
    'mutants: for m in 0..matrix.mutants() {
        plane.push(word_of(matrix, m, block))?;
    }
    Ok(Items::from_vec(plane))
}

/// For each 64 tests a plane: for each mutant, which of them kill it.
pub(crate) fn planes_of(alloc: Global, matrix: &Matrix) -> Result<Vec<Items<u64>>, OutOfMemory>
    ensures { IfOk result (λ planes. AreWords matrix.now planes.items) }
{
    let blocks = matrix.tests().div_ceil(64);
    let mut planes = Vec::with_capacity(alloc, blocks as usize)?;
    'all: for block in 0..blocks {
        planes.push(plane_of(alloc, matrix, block)?)?;
    }
    Ok(planes)
}

/// The word of a mutant.
fn word_at(plane: &Items<u64>, m: u32) -> u64
    ensures { result ≡ slice_index plane.now m }
{
    match plane.get(m as usize) {
        Some(word) => *word,
        None => 0,
    }
}

/// Whether each bit of the first word is set in the second.
fn is_part(a: u64, b: u64) -> bool
    ensures { result ≡ (bit_and a b == a) }
{
    a & b == a
}

/// Whether every test that kills `a` kills `b`.
#[tactic(auto, unfolding(crate::specs::Planes::words_within))]
pub(crate) fn is_within(planes: &[Items<u64>], a: u32, b: u32) -> bool
    ensures { result ≡ words_within planes.now a b }
{
    planes
        .iter()
        .all(|plane| is_part(word_at(plane, a), word_at(plane, b)))
}

/// The same, where one plane is asked first.
pub(crate) fn is_within_from(planes: &[Items<u64>], at: u32, a: u32, b: u32) -> bool
    ensures { result ≡ words_within planes.now a b }
{
    if !is_part_at(planes, at, a, b) {
        return false;
    }
    is_within(planes, a, b)
}

/// Whether by one plane every test that kills `a` kills `b`, where there is that plane.
fn is_part_at(planes: &[Items<u64>], at: u32, a: u32, b: u32) -> bool
    ensures { result ≡ false → words_within planes.now a b ≡ false }
{
    match planes.get(at as usize) {
        Some(plane) => is_part(word_at(plane, a), word_at(plane, b)),
        None => true,
    }
}

/// The first plane in which a mutant has a test that kills it, or that behind the last.
fn plane_of_first(planes: &[Items<u64>], a: u32) -> u32 {
    let mut at = 0u32;
    'planes: for plane in planes {
        if word_at(plane, a) != 0 || at == u32::MAX {
            return at;
        }
        at += 1;
    }
    at
}

/// For each mutant the first plane in which a test kills it. Any plane may be asked first: this one
/// mostly tells two mutants apart.
pub(crate) fn first_planes(
    alloc: Global,
    planes: &[Items<u64>],
    mutants: u32,
) -> Result<Vec<u32>, OutOfMemory> {
    let firsts = (0..mutants)
        .map(|m| plane_of_first(planes, m))
        .collect(alloc)?;
    Ok(firsts)
}

/// Whether some test kills a mutant.
#[tactic(auto, unfolding(crate::specs::Planes::words_kill))]
pub(crate) fn is_killed(planes: &[Items<u64>], a: u32) -> bool
    ensures { result ≡ words_kill planes.now a }
{
    planes.iter().any(|plane| word_at(plane, a) != 0)
}
