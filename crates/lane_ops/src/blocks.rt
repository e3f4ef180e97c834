//! The loop over blocks of eight lanes, for any operation that has a form for eight lanes at once.
ghost use Rattle.std.specs.Prelude.{◌≡◌, ℕ, ◌+◌, ◌-◌, ◌^◌, ◌<◌, ◌≤◌, length, take};
ghost use Rattle.std.specs.List.{All};
ghost use Rattle.std.specs.Simd.Lanes.{chunk, zip2, put_chunk};
ghost use Rattle.am_base.specs.Word.{IsWord};
ghost use Rattle.am_base.specs.declared.word.Width.{Width};

use std::simd::prelude::*;

/// An operation on two words of one width, for eight lanes at once.
pub(crate) trait Lanewise {
    ghost width: { Self → Width };

    ghost lane: { Self → ℕ → ℕ → ℕ };

    fn eight(&self, left: u64x8, right: u64x8) -> u64x8
        requires left { length left ≡ 8 }
        requires right { length right ≡ 8 }
        requires left_words { All (IsWord (width self.now)) left }
        requires right_words { All (IsWord (width self.now)) right }
        ensures { result ≡ zip2 (lane self.now) left right };
}

/// The operation on the eight lanes from an index on.
fn block<K: Lanewise>(kernel: &K, a: &[u64], b: &[u64], out: &mut [u64], at: usize)
    requires left { at + 8 ≤ length a.now }
    requires right { at + 8 ≤ length b.now }
    requires room { at + 8 ≤ length out.old }
    requires left_words { All (IsWord (K.width kernel.now)) a.now }
    requires right_words { All (IsWord (K.width kernel.now)) b.now }
    ensures { out.new ≡ put_chunk at out.old
        (zip2 (K.lane kernel.now) (chunk at 8 a.now) (chunk at 8 b.now)) }
{
    let left = u64x8::from_slice(&a[at..]);
    let right = u64x8::from_slice(&b[at..]);
    let lanes = kernel.eight(left, right);
    lanes.copy_to_slice(&mut out[at..]);
}

/// The operation on all whole blocks of eight lanes. Returns the index of the first lane that is
/// left, and leaves `out` as it was from there on.
pub(crate) fn blocks<K: Lanewise>(kernel: &K, a: &[u64], b: &[u64], out: &mut [u64]) -> usize
    requires right { length b.now ≡ length a.now }
    requires room { length out.old ≡ length a.now }
    requires left_words { All (IsWord (K.width kernel.now)) a.now }
    requires right_words { All (IsWord (K.width kernel.now)) b.now }
    ensures within { result ≤ length a.now }
    ensures few { length a.now < result + 8 }
    ensures done { take result out.new ≡
        zip2 (K.lane kernel.now) (take result a.now) (take result b.now) }
{
    let mut at = 0;
    'eights: while a.len() - at >= 8 {
        block(kernel, a, b, out, at);
        at += 8;
    }
    at
}
