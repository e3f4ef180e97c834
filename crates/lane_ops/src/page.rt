//! Whether two lists of bytes differ, by 32 bytes at a time.
ghost use Rattle.std.specs.Prelude.{◌≡◌, ◌≢◌, ◌+◌, ◌≤◌, ◌↔◌, length, take, IsTrue};
ghost use Rattle.std.specs.Simd.Lanes.{chunk};

use std::simd::prelude::*;

/// Whether the 32 bytes from an index on are equal.
fn block_equal(a: &[u8], b: &[u8], at: usize) -> bool
    requires left { at + 32 ≤ length a.now }
    requires right { at + 32 ≤ length b.now }
    ensures { IsTrue result ↔ (chunk at 32 a.now ≡ chunk at 32 b.now) }
{
    let left = u8x32::from_slice(&a[at..]);
    let right = u8x32::from_slice(&b[at..]);
    left.simd_ne(right).to_bitmask() == 0
}

/// Returns an index up to which the two lists are equal: that of the first block of 32 bytes that
/// differs, or else of the bytes that whole blocks leave.
fn equal_blocks(a: &[u8], b: &[u8]) -> usize
    requires { length b.now ≡ length a.now }
    ensures within { result ≤ length a.now }
    ensures equal { take result a.now ≡ take result b.now }
{
    let mut at = 0;
    'equal: while a.len() - at >= 32 && block_equal(a, b, at) {
        at += 32;
    }
    at
}

/// Returns whether two lists of one length differ. Takes no memory. O(n).
pub fn page_differs(a: &[u8], b: &[u8]) -> bool
    requires { length b.now ≡ length a.now }
    ensures { IsTrue result ↔ (a.now ≢ b.now) }
{
    let at = equal_blocks(a, b);
    a[at..] != b[at..]
}
