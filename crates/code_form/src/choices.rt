//! The replacements of one mutant.

ghost use Rattle.std.specs.Prelude.{◌≡◌, ◌<◌, [], ◌∷◌, ◌++◌, length, slice_get, unwrap_or, IfOk, ℕ};
ghost use Rattle.am_base.specs.declared.limits.TheConstants.{MAX_REPLACEMENTS};
ghost use Rattle.code_form.specs.Variant.{number_at};

use am_base::{MAX_REPLACEMENTS, OutOfMemory};
use arrayvec::ArrayVec;
use std::alloc::Global;
use std::marker::Model;

/// The replacements of one mutant in the order in which they were added: the place of each, and its
/// number there. They lie in the value itself. Contracts see the list of the pairs.
#[derive(Drop)]
pub(crate) struct Choices {
    pairs: ArrayVec<(u32, u32), MAX_REPLACEMENTS>,
}

impl Model for Choices {
    ghost use Rattle.std.specs.Prelude.{List, ℕ};

    ghost Value = { List (ℕ × ℕ) };

    ghost view = { λ c. c.pairs.items };
}

impl Choices {
    /// No replacement.
    pub(crate) fn new() -> Choices
        ensures { result ≡ [] }
    {
        Choices {
            pairs: ArrayVec::new(),
        }
    }

    /// The pairs of a place and a number.
    pub(crate) fn as_slice(&self) -> &[(u32, u32)]
        ensures { result.now ≡ self.now }
    {
        self.pairs.as_slice()
    }

    /// Adds a replacement.
    pub(crate) fn push(&mut self, at: u32, number: u32)
        requires { length self.old < MAX_REPLACEMENTS }
        ensures { self.new ≡ self.old ++ (at, number) ∷ [] }
    {
        self.pairs.push((at, number));
    }
}

/// The choices of this many mutants without a replacement.
pub(crate) fn nothing_chosen(alloc: Global, mutants: u32) -> Result<Vec<Choices>, OutOfMemory>
    ensures count { IfOk result (λ all. length all.items ≡ mutants) }
    ensures nothing { IfOk result (λ all. (m : ℕ) → unwrap_or (slice_get all.items m) [] ≡ []) }
{
    let mut all = Vec::with_capacity(alloc, mutants as usize)?;
    'each: while all.len() < mutants as usize {
        all.push(Choices::new())?;
    }
    Ok(all)
}

/// The pairs of a mutant: none where there is no such mutant.
pub(crate) fn choice_of(chosen: &[Choices], m: u32) -> &[(u32, u32)]
    ensures { result.now ≡ unwrap_or (slice_get chosen.now m) [] }
{
    match chosen.get(m as usize) {
        Some(choices) => choices.as_slice(),
        None => &[],
    }
}

/// The number of the replacement at a place: 0 where there is none.
pub(crate) fn number_in(choices: &[(u32, u32)], at: u32) -> u32
    ensures { result ≡ number_at choices.now at }
{
    let mut left = choices;
    'each: while let [(place, number), rest @ ..] = left {
        if *place == at {
            return *number;
        }
        left = rest;
    }
    0
}
