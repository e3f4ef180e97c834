//! A code with the table that says where each of its places lies, made once for all runs.
ghost use Rattle.std.specs.Prelude.{◌≡◌, ◌<◌, length, IfOk, unwrap_or};
ghost use Rattle.code_form.specs.Places.{function_of, block_of, block_in};
ghost use Rattle.code_form.specs.Sound.{IsSound};

use crate::spots::{Spot, block_here, function_here, spots_of};
use am_base::OutOfMemory;
use code_form::{Block, Code};
use std::alloc::Global;
use std::marker::Model;

/// A code with its table of places. Contracts see the code.
#[derive(Drop)]
pub struct Program<'a> {
    code: &'a Code,
    spots: Vec<Spot>,
}

impl<'a> Model for Program<'a> {
    ghost use Rattle.code_form.specs.declared.code.Code.{Code};
    ghost use Rattle.lane_eval.specs.Spots.{AreSpots};

    ghost Value = { Code };

    ghost view = { λ p. p.code.now };

    ghost invariant = { λ p. AreSpots p.code.now p.spots.items };
}

impl<'a> Program<'a> {
    /// Makes the table of a code, which costs the code's length. It is refused only for want of
    /// memory.
    pub fn new(alloc: Global, code: &'a Code) -> Result<Program<'a>, OutOfMemory>
        requires { IsSound code.now }
        ensures { IfOk result (λ p. p ≡ code.now) }
    {
        let spots = spots_of(alloc, code)?;
        Ok(Program { code, spots })
    }

    /// The code.
    pub fn code(&self) -> &'a Code
        ensures { result.now ≡ self.now }
    {
        self.code
    }

    /// The index of the block of a place in the place's function. O(1).
    pub fn block_index(&self, place: u32) -> usize
        requires { place < length self.now.instrs }
        ensures { result ≡ unwrap_or (block_in (function_of self.now place).blocks place) 0 }
    {
        block_here(self.code, self.spots.as_slice(), place)
    }

    /// The block with an index in the function of a place. O(1).
    pub fn block(&self, place: u32, b: u32) -> Block
        requires within { place < length self.now.instrs }
        requires block { b < length (function_of self.now place).blocks }
        ensures { result ≡ block_of self.now place b }
    {
        function_here(self.code, self.spots.as_slice(), place)
            .blocks
            .as_slice()[b as usize]
    }
}
