//! The letters of all mutants on all tests, and the score.

ghost use Rattle.std.specs.Prelude.{◌≡◌, ◌<◌, ◌≤◌, ◌+◌, ◌-◌, ◌^◌, [], ◌∷◌, ◌++◌, length, slice_get, unwrap_or, IfOk, OnOk, OnErr};
ghost use Rattle.kill_matrix.specs.Verdict.{kills};
ghost use Rattle.kill_matrix.specs.Score.{Letters, letter_of, is_killed, killed_of};

use crate::letter::Letter;
use am_base::{MAX_MUTANTS, OutOfMemory};
use am_lists::Items;
use std::alloc::Global;
use std::marker::Model;

/// The letters of all mutants on all tests. Mutant 0 is the unchanged program.
#[derive(Debug, Drop)]
pub struct Matrix {
    mutants: u32,
    tests: Vec<Items<Letter>>,
}

impl Model for Matrix {
    ghost use Rattle.std.specs.Prelude.{◌^◌, ◌<◌, ◌≡◌, ◌≤◌, length, All};
    ghost use Rattle.am_base.specs.declared.limits.TheConstants.{MAX_MUTANTS};
    ghost use Rattle.kill_matrix.specs.Score.{Letters};

    ghost Value = { Letters };

    ghost view = { λ m. record { mutants = m.mutants; tests = m.tests.items } };

    ghost invariant = { λ m. (1 ≤ m.mutants) × (m.mutants ≤ MAX_MUTANTS) × (length m.tests.items < 2 ^ 32) × All (λ row. length row ≡ m.mutants) m.tests.items };
}

/// Whether the row of a test says that it kills mutant `m`.
fn kills_in(row: &Items<Letter>, m: u32) -> bool
    ensures { result ≡ kills (unwrap_or (slice_get row.now m) Letter.Same) }
{
    match row.get(m as usize) {
        Some(letter) => letter.kills(),
        None => false,
    }
}

impl Matrix {
    /// Returns a matrix without tests for 1 to `MAX_MUTANTS` mutants, mutant 0 included.
    pub fn new(alloc: Global, mutants: u32) -> Result<Matrix, OutOfMemory>
        requires some { 1 ≤ mutants }
        requires few { mutants ≤ MAX_MUTANTS }
        ensures { IfOk result (λ matrix. matrix ≡ record { mutants = mutants; tests = [] }) }
    {
        Ok(Matrix {
            mutants,
            tests: Vec::new(alloc),
        })
    }

    /// Appends a test with one letter for each mutant. After an error the matrix is as it was.
    pub fn add(&mut self, alloc: Global, letters: &[Letter]) -> Result<(), OutOfMemory>
        requires letters { length letters.now ≡ self.old.mutants }
        requires few { length self.old.tests < 2 ^ 32 - 1 }
        ensures ok { OnOk result (self.new ≡ record self.old { tests = self.old.tests ++ letters.now ∷ [] }) }
        ensures err { OnErr result (self.new ≡ self.old) }
    {
        let row = Items::from_slice(alloc, letters)?;
        self.tests.push(row)?;
        Ok(())
    }

    /// Returns the letter of mutant `m` on test `t`, both counted from 0. O(1).
    pub fn letter(&self, m: u32, t: u32) -> Letter
        requires mutant { m < self.now.mutants }
        requires test { t < length self.now.tests }
        ensures { result ≡ letter_of self.now m t }
    {
        let row = &self.tests[t as usize];
        row.as_slice()[m as usize]
    }

    /// Returns the number of mutants, mutant 0 included.
    pub fn mutants(&self) -> u32
        ensures { result ≡ self.now.mutants }
    {
        self.mutants
    }

    /// Returns the number of tests.
    pub fn tests(&self) -> u32
        ensures { result ≡ length self.now.tests }
    {
        self.tests.len() as u32
    }

    /// Whether some test kills mutant `m`, counted from 0; of a mutant that there isn't none does.
    /// O(n) in the tests.
    pub fn is_killed(&self, m: u32) -> bool
        ensures { result ≡ is_killed self.now m }
    {
        self.tests.iter().any(|row| kills_in(row, m))
    }

    /// Returns the number of mutants from 1 upward that some test kills, and the number of mutants
    /// from 1 upward.
    pub fn score(&self) -> (u32, u32)
        ensures killed { result.0 ≡ killed_of self.now }
        ensures mutants { result.1 ≡ self.now.mutants - 1 }
    {
        let killed = (1..self.mutants).filter(|m| self.is_killed(*m)).count();
        (killed as u32, self.mutants - 1)
    }
}
