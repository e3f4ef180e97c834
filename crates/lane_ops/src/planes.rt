//! The operations on bit planes: on all 64 bits of each word.
ghost use Rattle.std.specs.Prelude.{◌≡◌, bit_and, length};
ghost use Rattle.std.specs.Simd.Lanes.{zip2};
ghost use Rattle.am_base.specs.declared.word.BinOp.TheVariants.{And};
ghost use Rattle.am_base.specs.declared.word.Width.TheVariants.{W64};
ghost use Rattle.lane_ops.specs.Lane.{lane_word, and_not};

use crate::bits::{AllSet, FirstAlone};
use crate::blocks::blocks;
use crate::single::{Single, rest};
use am_base::Width;

impl Single for AllSet {
    ghost width = { λ both. both.0 };

    ghost lane = { λ both. lane_word And both.0 };

    fn one(&self, left: u64, right: u64) -> u64 {
        left & right
    }
}

impl Single for FirstAlone {
    ghost width = { λ _. W64 };

    ghost lane = { λ _. and_not };

    fn one(&self, left: u64, right: u64) -> u64 {
        left & !right
    }
}

/// Writes for each word the bits that are set both in the word of `a` and in that of `b`. All slices
/// have one length. Takes no memory. O(n).
pub fn and_planes(a: &[u64], b: &[u64], out: &mut [u64])
    requires right { length b.now ≡ length a.now }
    requires room { length out.old ≡ length a.now }
    ensures { out.new ≡ zip2 bit_and a.now b.now }
{
    let both = AllSet(Width::W64);
    let at = blocks(&both, a, b, out);
    rest(&both, a, b, out, at);
}

/// Writes for each word the bits that are set in the word of `a` and not in that of `b`. All slices
/// have one length. Takes no memory. O(n).
pub fn and_not_planes(a: &[u64], b: &[u64], out: &mut [u64])
    requires right { length b.now ≡ length a.now }
    requires room { length out.old ≡ length a.now }
    ensures { out.new ≡ zip2 and_not a.now b.now }
{
    let at = blocks(&FirstAlone, a, b, out);
    rest(&FirstAlone, a, b, out, at);
}
