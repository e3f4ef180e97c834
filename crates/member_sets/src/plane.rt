//! A set of numbers as a plane of bits, which knows how many bits there are before each word.

ghost use Rattle.std.specs.Prelude.{◌≡◌, ◌≢◌, ◌↔◌, ℕ, ◌+◌, ◌-◌, ◌*◌, ◌/◌, ◌<◌, ◌≤◌, ◌==◌, not, length, slice_index, IsTrue, IfOk, IfSome, IfNone};
ghost use Rattle.std.specs.List.{All, Contains, filter};
ghost use Rattle.am_base.specs.declared.limits.TheConstants.{MAX_MUTANTS};
ghost use Rattle.code_form.specs.Variant.{variant_of};
ghost use Rattle.member_sets.specs.Members.{IsMemberList, class_at};
ghost use Rattle.member_sets.specs.Planes.{has_bit, upto, numbers_in, AreSums};

use crate::words::{in_both, in_first, is_set, least_of, list_of, put, rank};
use am_base::OutOfMemory;
use am_lists::Items;
use code_form::{Place, Variants};
use std::alloc::Global;
use std::marker::Model;

/// A set of numbers that isn't empty, as the bits of the words from one on.
#[derive(Debug, Drop)]
pub struct Plane {
    /// The index of the first word: it has the numbers from 64 times that on.
    first: u32,
    words: Vec<u64>,
    /// For each word, how many bits the words before it have.
    sums: Vec<u16>,
    least: u32,
    len: u32,
}

impl Model for Plane {
    ghost use Rattle.std.specs.Prelude.{ℕ, List};
    ghost use Rattle.member_sets.specs.Planes.{numbers_in, IsPlane};

    ghost Value = { List ℕ };

    ghost view = { λ p. numbers_in p.first p.words.items };

    ghost invariant = { λ p. IsPlane p.first p.words.items p.sums.items p.least p.len };
}

/// The members of one class, and the others, as the bits of the words from `first` on.
#[derive(Drop)]
pub struct Parted {
    pub first: u32,
    pub home: Vec<u64>,
    pub away: Vec<u64>,
}

impl Plane {
    /// The set of the bits of these words, of which the first isn't 0.
    pub fn new(alloc: Global, first: u32, words: Vec<u64>) -> Result<Plane, OutOfMemory>
        requires few { 64 * (first + length words.items) ≤ MAX_MUTANTS }
        requires some { 0 < slice_index words.items 0 }
        ensures { IfOk result (λ plane. plane ≡ numbers_in first words.items) }
    {
        let (sums, len) = sums_of(alloc, &words)?;
        let least = least_of(first, &words);
        Ok(Plane {
            first,
            words,
            sums,
            least,
            len,
        })
    }

    /// The least number.
    pub fn least(&self) -> u32
        ensures { result ≡ slice_index self.now 0 }
    {
        self.least
    }

    /// How many numbers there are.
    pub fn len(&self) -> u32
        ensures value { result ≡ length self.now }
        ensures list { IsMemberList self.now }
    {
        self.len
    }

    /// Whether a number is in the set. O(1).
    pub fn has(&self, m: u32) -> bool
        ensures { IsTrue result ↔ Contains self.now m }
    {
        is_set(self.first, &self.words, m)
    }

    /// Returns the index of a number among those of the set. `None` iff it isn't in the set. O(1).
    pub fn index_of(&self, m: u32) -> Option<usize>
        ensures within { IfSome result (λ at. at < length self.now) }
        ensures there { IfSome result (λ at. slice_index self.now at ≡ m) }
        ensures none { IfNone result (¬ Contains self.now m) }
    {
        if !is_set(self.first, &self.words, m) {
            return None;
        }
        Some(rank(self.first, &self.words, &self.sums, m))
    }

    /// The numbers, rising.
    pub fn list(&self, alloc: Global) -> Result<Items<u32>, OutOfMemory>
        ensures { IfOk result (λ list. list ≡ self.now) }
    {
        let list = list_of(alloc, self.first, &self.words, self.len as usize)?;
        Ok(Items::from_vec(list))
    }

    /// Parts the set: the members of the class of variant 0 at the place, and the others. It looks
    /// at the mutants that have a replacement there and at the words, and at no other member.
    pub fn parted(
        &self,
        alloc: Global,
        table: &Variants,
        place: Place,
        class_of: &[u32],
    ) -> Result<Parted, OutOfMemory>
        requires { All (λ m. variant_of table.now m place.0 < length class_of.now) self.now }
        ensures few { IfOk result (λ p. (64 * (p.first + length p.home.items) ≤ MAX_MUTANTS) × (64 * (p.first + length p.away.items) ≤ MAX_MUTANTS)) }
        ensures home { IfOk result (λ p. numbers_in p.first p.home.items
            ≡ filter (λ m. class_at (variant_of table.now) place.0 class_of.now m == slice_index class_of.now 0) self.now) }
        ensures away { IfOk result (λ p. numbers_in p.first p.away.items
            ≡ filter (λ m. not (class_at (variant_of table.now) place.0 class_of.now m == slice_index class_of.now 0)) self.now) }
    {
        let words = self.words.as_slice();
        let mask = others(alloc, self.first, words.len(), table, place, class_of)?;
        Ok(Parted {
            first: self.first,
            home: in_first(alloc, words, &mask)?,
            away: in_both(alloc, words, &mask)?,
        })
    }
}

/// For each word, how many bits the words before it have; and how many all have.
fn sums_of(alloc: Global, words: &[u64]) -> Result<(Vec<u16>, u32), OutOfMemory>
    requires { 64 * length words.now ≤ MAX_MUTANTS }
    ensures sums { IfOk result (λ r. (first : ℕ) → AreSums first words.now r.0.items) }
    ensures len { IfOk result (λ r. (first : ℕ) → r.1 ≡ length (numbers_in first words.now)) }
{
    let mut sums = Vec::with_capacity(alloc, words.len())?;
    let mut len = 0u32;
    for word in words {
        sums.push(len as u16)?;
        len += word.count_ones();
    }
    Ok((sums, len))
}

/// Returns so many words with the bits of the mutants whose variant at the place has another class
/// than variant 0.
fn others(
    alloc: Global,
    first: u32,
    words: usize,
    table: &Variants,
    place: Place,
    class_of: &[u32],
) -> Result<Vec<u64>, OutOfMemory>
    requires { 0 < length class_of.now }
    ensures size { IfOk result (λ mask. length mask.items ≡ words) }
    ensures bits { IfOk result (λ mask. (m : ℕ) → first ≤ m / 64 → m / 64 - first < words → variant_of table.now m place.0 < length class_of.now
        → has_bit first mask.items m ≡ not (class_at (variant_of table.now) place.0 class_of.now m == slice_index class_of.now 0)) }
{
    let home = class_of[0];
    let mut mask = vec![in alloc; 0u64; words]?;
    let touched = table.mutants_at(place);
    for m in touched {
        let variant = table.variant(*m, place) as usize;
        if variant < class_of.len() && class_of[variant] != home {
            put(&mut mask, first, *m);
        }
    }
    Ok(mask)
}
