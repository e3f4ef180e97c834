//! Shifts of eight lanes. A vector's shift is by fewer than 64 bits, so the counts are brought
//! below that first.
ghost use Rattle.am_base.specs.declared.word.BinOp.TheVariants.{Shl, LShr, AShr};
ghost use Rattle.lane_ops.specs.Lane.{lane_word};

use crate::blocks::Lanewise;
use crate::words::Words;
use am_base::Width;
use std::simd::prelude::*;

#[derive(Drop)]
pub(crate) struct ShiftLeft(pub(crate) Words);

impl Lanewise for ShiftLeft {
    ghost width = { λ shift. shift.0.width };

    ghost lane = { λ shift. lane_word Shl shift.0.width };

    fn eight(&self, left: u64x8, right: u64x8) -> u64x8 {
        let within = right.simd_lt(u64x8::splat(64));
        let shifted = left << (right & u64x8::splat(63));
        within.select(shifted, u64x8::splat(0)) & u64x8::splat(self.0.greatest)
    }
}

#[derive(Drop)]
pub(crate) struct ShiftRight(pub(crate) Width);

impl Lanewise for ShiftRight {
    ghost width = { λ shift. shift.0 };

    ghost lane = { λ shift. lane_word LShr shift.0 };

    fn eight(&self, left: u64x8, right: u64x8) -> u64x8 {
        let within = right.simd_lt(u64x8::splat(64));
        let shifted = left >> (right & u64x8::splat(63));
        within.select(shifted, u64x8::splat(0))
    }
}

/// The shift that keeps the sign. A signed value plus half of the range is a word, which is shifted
/// as one; half of the range, shifted as far, is then taken away again.
#[derive(Drop)]
pub(crate) struct ShiftSigned(pub(crate) Words);

impl Lanewise for ShiftSigned {
    ghost width = { λ shift. shift.0.width };

    ghost lane = { λ shift. lane_word AShr shift.0.width };

    fn eight(&self, left: u64x8, right: u64x8) -> u64x8 {
        let greatest = u64x8::splat(self.0.greatest);
        let half = u64x8::splat(self.0.half);
        let counts = right.simd_min(u64x8::splat(self.0.bits - 1));
        let raised = (left + half) & greatest;
        ((raised >> counts) - (half >> counts)) & greatest
    }
}
