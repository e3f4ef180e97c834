//! Comparisons of eight lanes, and their opposites: 1 where the comparison holds and 0 where it
//! doesn't, or the other way round.
ghost use Rattle.std.specs.Prelude.{◌≡◌, nat_lt, nat_eq, if◌then◌else◌};
ghost use Rattle.std.specs.Int.RustNames.{int_lt};
ghost use Rattle.am_base.specs.Word.{signed};

use crate::blocks::Lanewise;
use crate::words::Words;
use am_base::Width;
use std::simd::prelude::*;

#[derive(Drop)]
pub(crate) struct Equality {
    width: Width,
    yes: u64,
    no: u64,
}

impl Equality {
    pub(crate) fn new(width: Width, holds: bool) -> Equality
        ensures width { result.width ≡ width }
        ensures yes { result.yes ≡ (if holds then 1 else 0) }
        ensures no { result.no ≡ (if holds then 0 else 1) }
    {
        Equality {
            width,
            yes: u64::from(holds),
            no: u64::from(!holds),
        }
    }
}

impl Lanewise for Equality {
    ghost width = { λ test. test.width };

    ghost lane = { λ test x y. if nat_eq x y then test.yes else test.no };

    fn eight(&self, left: u64x8, right: u64x8) -> u64x8 {
        left.simd_eq(right)
            .select(u64x8::splat(self.yes), u64x8::splat(self.no))
    }
}

#[derive(Drop)]
pub(crate) struct Below {
    width: Width,
    yes: u64,
    no: u64,
}

impl Below {
    pub(crate) fn new(width: Width, holds: bool) -> Below
        ensures width { result.width ≡ width }
        ensures yes { result.yes ≡ (if holds then 1 else 0) }
        ensures no { result.no ≡ (if holds then 0 else 1) }
    {
        Below {
            width,
            yes: u64::from(holds),
            no: u64::from(!holds),
        }
    }
}

impl Lanewise for Below {
    ghost width = { λ test. test.width };

    ghost lane = { λ test x y. if nat_lt x y then test.yes else test.no };

    fn eight(&self, left: u64x8, right: u64x8) -> u64x8 {
        left.simd_lt(right)
            .select(u64x8::splat(self.yes), u64x8::splat(self.no))
    }
}

/// Signed values are compared as the words that they are when half of the range is added.
#[derive(Drop)]
pub(crate) struct SignedBelow {
    words: Words,
    yes: u64,
    no: u64,
}

impl SignedBelow {
    pub(crate) fn new(width: Width, holds: bool) -> SignedBelow
        ensures width { result.words.width ≡ width }
        ensures yes { result.yes ≡ (if holds then 1 else 0) }
        ensures no { result.no ≡ (if holds then 0 else 1) }
    {
        SignedBelow {
            words: Words::new(width),
            yes: u64::from(holds),
            no: u64::from(!holds),
        }
    }
}

impl Lanewise for SignedBelow {
    ghost width = { λ test. test.words.width };

    ghost lane = { λ test x y.
        if int_lt (signed test.words.width x) (signed test.words.width y) then test.yes else test.no };

    fn eight(&self, left: u64x8, right: u64x8) -> u64x8 {
        let greatest = u64x8::splat(self.words.greatest);
        let half = u64x8::splat(self.words.half);
        let raised = (left + half) & greatest;
        let other = (right + half) & greatest;
        raised
            .simd_lt(other)
            .select(u64x8::splat(self.yes), u64x8::splat(self.no))
    }
}
