//! Comparisons of all lanes.
ghost use Rattle.std.specs.Prelude.{◌≡◌, ◌≤◌, length, take};
ghost use Rattle.std.specs.List.{All};
ghost use Rattle.std.specs.Simd.Lanes.{zip2};
ghost use Rattle.am_base.specs.Word.{IsWord};
ghost use Rattle.lane_ops.specs.Lane.{lane_compare};

use crate::blocks::blocks;
use crate::order::{Below, Equality, SignedBelow};
use crate::single::{Single, rest};
use am_base::{Pred, Width, compare};

#[derive(Drop)]
struct Comparison {
    pred: Pred,
    width: Width,
}

impl Single for Comparison {
    ghost width = { λ comparison. comparison.width };

    ghost lane = { λ comparison. lane_compare comparison.pred comparison.width };

    fn one(&self, left: u64, right: u64) -> u64 {
        u64::from(compare(self.pred, self.width, left, right))
    }
}

/// The comparison of the lanes of all whole blocks. Returns the index of the first lane that is
/// left.
fn compare_blocks(p: Pred, width: Width, a: &[u64], b: &[u64], out: &mut [u64]) -> usize
    requires right { length b.now ≡ length a.now }
    requires room { length out.old ≡ length a.now }
    requires left_words { All (IsWord width) a.now }
    requires right_words { All (IsWord width) b.now }
    ensures within { result ≤ length a.now }
    ensures done { take result out.new ≡
        zip2 (lane_compare p width) (take result a.now) (take result b.now) }
{
    match p {
        Pred::Eq => blocks(&Equality::new(width, true), a, b, out),
        Pred::Ne => blocks(&Equality::new(width, false), a, b, out),
        Pred::Ult => blocks(&Below::new(width, true), a, b, out),
        Pred::Uge => blocks(&Below::new(width, false), a, b, out),
        Pred::Ugt => blocks(&Below::new(width, true), b, a, out),
        Pred::Ule => blocks(&Below::new(width, false), b, a, out),
        Pred::Slt => blocks(&SignedBelow::new(width, true), a, b, out),
        Pred::Sge => blocks(&SignedBelow::new(width, false), a, b, out),
        Pred::Sgt => blocks(&SignedBelow::new(width, true), b, a, out),
        Pred::Sle => blocks(&SignedBelow::new(width, false), b, a, out),
    }
}

/// Writes for each lane 1 where the comparison of the word of `a` with the word of `b` holds, and 0
/// where it doesn't. LLVM Language Reference, "icmp Instruction". All slices have one length, and
/// the words are of width `w`. Takes no memory. O(n).
pub fn compare_lanes(p: Pred, w: Width, a: &[u64], b: &[u64], out: &mut [u64])
    requires right { length b.now ≡ length a.now }
    requires room { length out.old ≡ length a.now }
    requires left_words { All (IsWord w) a.now }
    requires right_words { All (IsWord w) b.now }
    ensures { out.new ≡ zip2 (lane_compare p w) a.now b.now }
{
    let at = compare_blocks(p, w, a, b, out);
    rest(&Comparison { pred: p, width: w }, a, b, out, at);
}
