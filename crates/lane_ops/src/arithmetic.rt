//! Sums, differences and products of eight lanes, modulo 2 to the width.
ghost use Rattle.am_base.specs.declared.word.BinOp.TheVariants.{Add, Sub, Mul};
ghost use Rattle.lane_ops.specs.Lane.{lane_word};

use crate::blocks::Lanewise;
use crate::words::Words;
use std::simd::prelude::*;

#[derive(Drop)]
pub(crate) struct Sum(pub(crate) Words);

impl Lanewise for Sum {
    ghost width = { λ sum. sum.0.width };

    ghost lane = { λ sum. lane_word Add sum.0.width };

    fn eight(&self, left: u64x8, right: u64x8) -> u64x8 {
        (left + right) & u64x8::splat(self.0.greatest)
    }
}

#[derive(Drop)]
pub(crate) struct Difference(pub(crate) Words);

impl Lanewise for Difference {
    ghost width = { λ difference. difference.0.width };

    ghost lane = { λ difference. lane_word Sub difference.0.width };

    fn eight(&self, left: u64x8, right: u64x8) -> u64x8 {
        (left - right) & u64x8::splat(self.0.greatest)
    }
}

#[derive(Drop)]
pub(crate) struct Product(pub(crate) Words);

impl Lanewise for Product {
    ghost width = { λ product. product.0.width };

    ghost lane = { λ product. lane_word Mul product.0.width };

    fn eight(&self, left: u64x8, right: u64x8) -> u64x8 {
        (left * right) & u64x8::splat(self.0.greatest)
    }
}
