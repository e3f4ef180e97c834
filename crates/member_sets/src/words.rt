//! Sets of numbers as bits of words: bit m % 64 of word m / 64, of the words from one on.

ghost use Rattle.std.specs.Prelude.{true, ◌≡◌, ◌≢◌, ◌↔◌, ℕ, ◌+◌, ◌-◌, ◌*◌, ◌/◌, ◌^◌, ◌<◌, ◌≤◌, ◌==◌, ◌||◌, not, ◌++◌, length, map, slice_index, IsTrue, IfOk, OnOk};
ghost use Rattle.std.specs.List.{All, filter};
ghost use Rattle.std.specs.List.Sorted.{IsStrictlyIncreasing};
ghost use Rattle.am_base.specs.declared.limits.TheConstants.{MAX_MUTANTS};
ghost use Rattle.member_sets.specs.Planes.{has_bit, upto, numbers_in, bits_below, AreSums};

use am_base::OutOfMemory;
use lane_ops::{and_not_planes, and_planes};
use std::alloc::Global;

/// Whether the bit of a number is set. O(1).
pub fn is_set(first: u32, words: &[u64], m: u32) -> bool
    ensures { result ≡ has_bit first words.now m }
{
    let word = m / 64;
    if word < first {
        return false;
    }
    let at = (word - first) as usize;
    if at >= words.len() {
        return false;
    }
    (words[at] >> (m % 64)) & 1 == 1
}

/// How many bits before that of a number are set, where its own is. `sums` has for each word how many
/// bits the words before it have. O(1).
pub fn rank(first: u32, words: &[u64], sums: &[u16], m: u32) -> usize
    requires set { has_bit first words.now m ≡ true }
    requires sums { AreSums first words.now sums.now }
    ensures { result ≡ length (upto first words.now m) }
{
    let at = (m / 64 - first) as usize;
    let lower = words[at] & ((1 << (m % 64)) - 1);
    sums[at] as usize + lower.count_ones() as usize
}

/// The least number, where the first word isn't 0. O(1).
pub fn least_of(first: u32, words: &[u64]) -> u32
    requires few { 64 * (first + length words.now) ≤ MAX_MUTANTS }
    requires some { 0 < slice_index words.now 0 }
    ensures least { result ≡ slice_index (numbers_in first words.now) 0 }
    ensures there { 0 < length (numbers_in first words.now) }
{
    64 * first + words[0].trailing_zeros()
}

/// Sets the bit of a number, where it is one of these words. O(1).
pub fn put(words: &mut Vec<u64>, first: u32, m: u32)
    ensures size { length words.new.items ≡ length words.old.items }
    ensures bits { (n : ℕ) → first ≤ n / 64 → n / 64 - first < length words.old.items
        → has_bit first words.new.items n ≡ (has_bit first words.old.items n || (n == m)) }
{
    let word = m / 64;
    if word < first {
        return;
    }
    let at = (word - first) as usize;
    if at >= words.len() {
        return;
    }
    words[at] |= 1 << (m % 64);
}

/// Appends the numbers of the bits of a word, rising, from that of its lowest bit on.
fn push_word(list: &mut Vec<u32>, base: u32, word: u64) -> Result<(), OutOfMemory>
    requires { base + 64 < 2 ^ 32 }
    ensures { OnOk result (list.new.items ≡ list.old.items ++ map (λ k. base + k) (bits_below 64 word)) }
{
    let mut rest = word;
    let mut at = 0;
    'bits: while rest != 0 {
        let skip = rest.trailing_zeros();
        let next = at + skip;
        list.push(base + next)?;
        at = next + 1;
        rest = rest >> skip >> 1;
    }
    Ok(())
}

/// Returns the numbers whose bits are set, rising. There is room for so many at once.
pub fn list_of(
    alloc: Global,
    first: u32,
    words: &[u64],
    room: usize,
) -> Result<Vec<u32>, OutOfMemory>
    requires { 64 * (first + length words.now) ≤ MAX_MUTANTS }
    ensures { IfOk result (λ list. list.items ≡ numbers_in first words.now) }
{
    let mut list = Vec::with_capacity(alloc, room)?;
    for (at, word) in words.iter().enumerate() {
        push_word(&mut list, 64 * (first + at as u32), *word)?;
    }
    Ok(list)
}

/// Returns so many words with the bits of the members of a rising list.
pub fn words_of(
    alloc: Global,
    first: u32,
    words: usize,
    list: &[u32],
) -> Result<Vec<u64>, OutOfMemory>
    requires rising { IsStrictlyIncreasing list.now }
    requires within { All (λ m. (first ≤ m / 64) × (m / 64 - first < words)) list.now }
    ensures { IfOk result (λ made. (numbers_in first made.items ≡ list.now) × (length made.items ≡ words)) }
{
    let mut made = vec![in alloc; 0u64; words]?;
    for m in list {
        put(&mut made, first, *m);
    }
    Ok(made)
}

/// How many words there are before the first that isn't 0.
pub fn zeros_before(words: &[u64]) -> usize
    ensures within { result ≤ length words.now }
    ensures zeros { (k : ℕ) → k < result → slice_index words.now k ≡ 0 }
    ensures next { result < length words.now → slice_index words.now result ≢ 0 }
{
    for (at, word) in words.iter().enumerate() {
        if *word != 0 {
            return at;
        }
    }
    words.len()
}

/// The index behind the last word that isn't 0, from an index on: that index where there is none.
pub fn end_of(words: &[u64], from: usize) -> usize
    requires { from ≤ length words.now }
    ensures after { from ≤ result }
    ensures within { result ≤ length words.now }
    ensures zeros { (k : ℕ) → result ≤ k → k < length words.now → slice_index words.now k ≡ 0 }
{
    let mut end = words.len();
    'zeros: while end > from && words[end - 1] == 0 {
        end -= 1;
    }
    end
}

/// The bits that are set in both.
pub fn in_both(alloc: Global, a: &[u64], b: &[u64]) -> Result<Vec<u64>, OutOfMemory>
    requires { length b.now ≡ length a.now }
    ensures size { IfOk result (λ c. length c.items ≡ length a.now) }
    ensures numbers { IfOk result (λ c. (first : ℕ) → numbers_in first c.items ≡ filter (has_bit first b.now) (numbers_in first a.now)) }
{
    let mut both = vec![in alloc; 0u64; a.len()]?;
    and_planes(a, b, &mut both);
    Ok(both)
}

/// The bits that are set in the first words and not in the second.
pub fn in_first(alloc: Global, a: &[u64], b: &[u64]) -> Result<Vec<u64>, OutOfMemory>
    requires { length b.now ≡ length a.now }
    ensures size { IfOk result (λ c. length c.items ≡ length a.now) }
    ensures numbers { IfOk result (λ c. (first : ℕ) → numbers_in first c.items ≡ filter (λ m. not (has_bit first b.now m)) (numbers_in first a.now)) }
{
    let mut first = vec![in alloc; 0u64; a.len()]?;
    and_not_planes(a, b, &mut first);
    Ok(first)
}

/// Whether some bit is set.
pub fn have_bit(words: &[u64]) -> bool
    ensures { (first : ℕ) → IsTrue result ↔ (0 < length (numbers_in first words.now)) }
{
    zeros_before(words) < words.len()
}

/// How many bits are set.
pub fn count(words: &[u64]) -> u32
    requires { 64 * length words.now ≤ MAX_MUTANTS }
    ensures { result ≤ 64 * length words.now }
{
    let mut count = 0;
    for word in words {
        count += word.count_ones();
    }
    count
}
