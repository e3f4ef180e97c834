//! The operations on the bits of eight lanes.
ghost use Rattle.am_base.specs.declared.word.BinOp.TheVariants.{And, Or, Xor};
ghost use Rattle.am_base.specs.declared.word.Width.TheVariants.{W64};
ghost use Rattle.lane_ops.specs.Lane.{lane_word, and_not};

use crate::blocks::Lanewise;
use am_base::Width;
use std::simd::prelude::*;

#[derive(Drop)]
pub(crate) struct AllSet(pub(crate) Width);

impl Lanewise for AllSet {
    ghost width = { λ both. both.0 };

    ghost lane = { λ both. lane_word And both.0 };

    fn eight(&self, left: u64x8, right: u64x8) -> u64x8 {
        left & right
    }
}

#[derive(Drop)]
pub(crate) struct AnySet(pub(crate) Width);

impl Lanewise for AnySet {
    ghost width = { λ either. either.0 };

    ghost lane = { λ either. lane_word Or either.0 };

    fn eight(&self, left: u64x8, right: u64x8) -> u64x8 {
        left | right
    }
}

#[derive(Drop)]
pub(crate) struct OneSet(pub(crate) Width);

impl Lanewise for OneSet {
    ghost width = { λ one. one.0 };

    ghost lane = { λ one. lane_word Xor one.0 };

    fn eight(&self, left: u64x8, right: u64x8) -> u64x8 {
        left ^ right
    }
}

/// The bits of the first word that aren't set in the second.
#[derive(Drop)]
pub(crate) struct FirstAlone;

impl Lanewise for FirstAlone {
    ghost width = { λ _. W64 };

    ghost lane = { λ _. and_not };

    fn eight(&self, left: u64x8, right: u64x8) -> u64x8 {
        left & !right
    }
}
