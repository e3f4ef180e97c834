//! The replacements of one place, and how one more is added to them.

ghost use Rattle.std.specs.Prelude.{◌≡◌, ◌⊎◌, ◌↔◌, ℕ, ◌+◌, ◌<◌, ◌≤◌, [], length, slice_index, IfOk, OnOk, OnErr, IsOk, Contains};
ghost use Rattle.std.specs.Vec.{vec_len, vec_capacity};
ghost use Rattle.code_form.specs.Variant.{IsNumbered, AreDifferent, IsRising};
ghost use Rattle.code_form.specs.Replacements.{replacements_in, mutants_in, IsAdded, AreSame};

use crate::instr::Instr;
use am_base::{MAX_MUTANTS, OutOfMemory};
use am_lists::Same;
use indexmap::IndexSet;
use std::alloc::Global;

/// The replacements that mutants have at one place.
#[derive(Drop)]
pub(crate) struct Replacements {
    /// The replacements that differ from the instruction of the place, each once, in order of first
    /// mention. An equal one is found by its hash.
    pub(crate) instrs: IndexSet<Instr>,
    /// The mutants that have one of them, rising.
    pub(crate) mutants: Vec<u32>,
}

impl Replacements {
    /// Returns the replacements of a place that has none. It takes no memory.
    pub(crate) fn new(alloc: Global) -> Replacements
        ensures instrs { result.instrs.keys ≡ [] }
        ensures mutants { result.mutants.items ≡ [] }
    {
        Replacements {
            instrs: IndexSet::new(alloc),
            mutants: Vec::new(alloc),
        }
    }

    /// Adds a mutant's replacement and returns its number: 0 if it equals the original instruction,
    /// and then the mutant isn't kept. After an error nothing has changed.
    pub(crate) fn add(&mut self, original: &Instr, m: u32, with: Instr) -> Result<u32, OutOfMemory>
        requires different { AreDifferent self.old.instrs.keys }
        requires mentioned_by_one { length self.old.instrs.keys ≤ length self.old.mutants.items }
        requires few { length self.old.mutants.items ≤ MAX_MUTANTS }
        requires rising { IsRising self.old.mutants.items }
        requires absent { ¬ Contains self.old.mutants.items m }
        ensures numbered { IfOk result (λ number. IsNumbered original.now self.old.instrs.keys with number self.new.instrs.keys) }
        ensures given { IfOk result (λ number. number ≤ length self.new.instrs.keys) }
        ensures mutants { IfOk result (λ number. (n : ℕ) → Contains self.new.mutants.items n ↔ (((n ≡ m) × (0 < number)) ⊎ Contains self.old.mutants.items n)) }
        ensures different { AreDifferent self.new.instrs.keys }
        ensures mentioned_by_one { length self.new.instrs.keys ≤ length self.new.mutants.items }
        ensures rising { IsRising self.new.mutants.items }
        ensures err { OnErr result ((self.new.instrs.keys ≡ self.old.instrs.keys) × (self.new.mutants.items ≡ self.old.mutants.items)) }
    {
        self.mutants.reserve(1)?;
        let number = number_of(&mut self.instrs, original, with)?;
        if number > 0 {
            insert_rising(&mut self.mutants, m)?;
        }
        Ok(number)
    }
}

/// Returns the number of an instruction as a replacement of a place; a new one is appended. O(1)
/// but for the hashing.
fn number_of(
    instrs: &mut IndexSet<Instr>,
    original: &Instr,
    with: Instr,
) -> Result<u32, OutOfMemory>
    requires few { length instrs.old.keys ≤ MAX_MUTANTS }
    requires different { AreDifferent instrs.old.keys }
    ensures numbered { IfOk result (λ number. IsNumbered original.now instrs.old.keys with number instrs.new.keys) }
    ensures different { AreDifferent instrs.new.keys }
    ensures given { IfOk result (λ number. number ≤ length instrs.new.keys) }
    ensures one_more { length instrs.new.keys ≤ length instrs.old.keys + 1 }
    ensures original { IfOk result (λ number. number ≡ 0 → instrs.new.keys ≡ instrs.old.keys) }
    ensures err { OnErr result (instrs.new.keys ≡ instrs.old.keys) }
{
    if with.same(original) {
        return Ok(0);
    }
    let (at, _) = instrs.insert_full(with)?;
    Ok(at as u32 + 1)
}

/// Returns the index at which a mutant goes into a rising list. Mutants mostly come in rising
/// order, so it looks from the end.
fn index_for(mutants: &[u32], m: u32) -> usize
    requires rising { IsRising mutants.now }
    requires absent { ¬ Contains mutants.now m }
    ensures within { result ≤ length mutants.now }
    ensures below { (k : ℕ) → k < result → slice_index mutants.now k < m }
    ensures above { (k : ℕ) → result ≤ k → k < length mutants.now → m < slice_index mutants.now k }
{
    let mut at = mutants.len();
    while at > 0 && mutants[at - 1] > m {
        at -= 1;
    }
    at
}

/// Inserts a mutant into a rising list. It can only be refused if there is no room for one more.
fn insert_rising(mutants: &mut Vec<u32>, m: u32) -> Result<(), OutOfMemory>
    requires rising { IsRising mutants.old.items }
    requires absent { ¬ Contains mutants.old.items m }
    ensures rising { IsRising mutants.new.items }
    ensures mutants { OnOk result ((n : ℕ) → Contains mutants.new.items n ↔ ((n ≡ m) ⊎ Contains mutants.old.items n)) }
    ensures one_more { OnOk result (length mutants.new.items ≡ length mutants.old.items + 1) }
    ensures err { OnErr result (mutants.new.items ≡ mutants.old.items) }
    ensures room { vec_len mutants.old < vec_capacity mutants.old → IsOk result }
{
    let at = index_for(mutants, m);
    mutants.insert(at, m)?;
    Ok(())
}

/// Appends a place without replacements.
fn push_empty(alloc: Global, places: &mut Vec<Replacements>) -> Result<(), OutOfMemory>
    ensures same { AreSame places.old.items places.new.items }
    ensures ok { OnOk result (length places.new.items ≡ length places.old.items + 1) }
{
    places.push(Replacements::new(alloc))?;
    Ok(())
}

/// Appends places without replacements up to place `at`.
fn make_room(alloc: Global, places: &mut Vec<Replacements>, at: usize) -> Result<(), OutOfMemory>
    ensures same { AreSame places.old.items places.new.items }
    ensures ok { OnOk result (at < length places.new.items) }
{
    while places.len() <= at {
        push_empty(alloc, places)?;
    }
    Ok(())
}

/// Adds a mutant's replacement at place `at` and returns its number there. After an error each
/// place has the replacements that it had.
pub(crate) fn add_at(
    alloc: Global,
    places: &mut Vec<Replacements>,
    at: usize,
    original: &Instr,
    m: u32,
    with: Instr,
) -> Result<u32, OutOfMemory>
    requires different { AreDifferent (replacements_in places.old.items at) }
    requires mentioned_by_one { length (replacements_in places.old.items at) ≤ length (mutants_in places.old.items at) }
    requires few { length (mutants_in places.old.items at) ≤ MAX_MUTANTS }
    requires rising { IsRising (mutants_in places.old.items at) }
    requires absent { ¬ Contains (mutants_in places.old.items at) m }
    ensures added { IfOk result (λ number. IsAdded original.now places.old.items places.new.items at m with number) }
    ensures err { OnErr result (AreSame places.old.items places.new.items) }
{
    make_room(alloc, places, at)?;
    let place = &mut places[at];
    place.add(original, m, with)
}
