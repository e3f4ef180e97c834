//! Which lanes are equal to a word, as the bits of words of 64.
ghost use Rattle.std.specs.Prelude.{◌≡◌, ℕ, ◌+◌, ◌*◌, ◌/◌, ◌%◌, ◌<◌, ◌≤◌, ◌↔◌, length, slice_index, IsBitSet};
ghost use Rattle.std.specs.Simd.Lanes.{chunk};
ghost use Rattle.lane_ops.specs.Mask.{mask_of};

use std::simd::prelude::*;

/// Which of 16 lanes are equal to a word. One mask of 64 lanes at once would be compiled to twice
/// as much work.
fn mask_sixteen(a: &[u64], x: u64, at: usize) -> u64
    requires { at + 16 ≤ length a.now }
    ensures { result ≡ mask_of x (chunk at 16 a.now) }
{
    u64x16::from_slice(&a[at..])
        .simd_eq(u64x16::splat(x))
        .to_bitmask()
}

/// Which of 32 lanes are equal to a word.
fn mask_half(a: &[u64], x: u64, at: usize) -> u64
    requires { at + 32 ≤ length a.now }
    ensures { result ≡ mask_of x (chunk at 32 a.now) }
{
    let low = mask_sixteen(a, x, at);
    let high = mask_sixteen(a, x, at + 16);
    low + high * 0x1_0000
}

/// Which of 64 lanes are equal to a word.
fn mask_block(a: &[u64], x: u64, at: usize) -> u64
    requires { at + 64 ≤ length a.now }
    ensures { result ≡ mask_of x (chunk at 64 a.now) }
{
    let low = mask_half(a, x, at);
    let high = mask_half(a, x, at + 32);
    low + high * 0x1_0000_0000
}

/// Which of at most 64 lanes are equal to a word, from the last to the first.
fn mask_rest(a: &[u64], x: u64) -> u64
    requires { length a.now ≤ 64 }
    ensures { result ≡ mask_of x a.now }
{
    let mut mask = 0;
    let mut at = a.len();
    'lanes: while at > 0 {
        at -= 1;
        mask = 2 * mask + u64::from(a[at] == x);
    }
    mask
}

/// Which of the 64 lanes from an index on, or of those that are left, are equal to a word.
fn mask_at(a: &[u64], x: u64, at: usize) -> u64
    requires { at ≤ length a.now }
    ensures { result ≡ mask_of x (chunk at 64 a.now) }
{
    if a.len() - at >= 64 {
        return mask_block(a, x, at);
    }
    mask_rest(&a[at..], x)
}

/// Writes which words of `a` are equal to `x`, as the mask of each 64 of them.
fn write_masks(a: &[u64], x: u64, out: &mut [u64])
    requires { length out.old ≡ (length a.now + 63) / 64 }
    ensures { (j : ℕ) → j < length out.new →
        slice_index out.new j ≡ mask_of x (chunk (64 * j) 64 a.now) }
{
    for j in 0..out.len() {
        out[j] = mask_at(a, x, 64 * j);
    }
}

/// Writes which words of `a` are equal to `x`: bit i % 64 of word i / 64 of `out` is set exactly
/// where `a[i]` is `x`. `out` has a word for each 64 words of `a`, rounded up. The bits past the
/// end of `a` are clear. Takes no memory. O(n).
pub fn equal_mask(a: &[u64], x: u64, out: &mut [u64])
    requires { length out.old ≡ (length a.now + 63) / 64 }
    ensures equal { (i : ℕ) → i < length a.now →
        (IsBitSet (slice_index out.new (i / 64)) (i % 64) ↔ (slice_index a.now i ≡ x)) }
    ensures past_end { (i : ℕ) → length a.now ≤ i →
        ¬ IsBitSet (slice_index out.new (i / 64)) (i % 64) }
{
    write_masks(a, x, out);
}
