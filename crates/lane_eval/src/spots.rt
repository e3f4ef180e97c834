//! Where each place stands: its function and its block, found once a run, so that no step looks for them.
ghost use Rattle.std.specs.Prelude.{◌≡◌, ◌<◌, ◌+◌, ◌^◌, ◌++◌, length, IfOk, OnOk, replicate, unwrap_or};
ghost use Rattle.code_form.specs.Places.{function_of, block_in};
ghost use Rattle.code_form.specs.Sound.{IsSound};
ghost use Rattle.lane_eval.specs.Spots.{AreSpots, spots_of_blocks, spots_of_functions};

use am_base::OutOfMemory;
use code_form::{Block, Code, Func};
use std::alloc::Global;

/// The number of the function of a place, and that of the place's block in the function.
#[derive(Clone, Copy, Debug, PartialEq, Eq)]
pub struct Spot {
    pub function: usize,
    pub block: usize,
}

/// Adds a spot for each instruction of a block.
fn add_block(spots: &mut Vec<Spot>, spot: Spot, len: u32) -> Result<(), OutOfMemory>
    ensures { OnOk result (spots.new.items ≡ spots.old.items ++ replicate len spot) }
{
    for _ in 0..len {
        spots.push(spot)?;
    }
    Ok(())
}

/// Adds the spots of the blocks of the function with a number.
fn add_blocks(spots: &mut Vec<Spot>, function: usize, blocks: &[Block]) -> Result<(), OutOfMemory>
    ensures { OnOk result (spots.new.items ≡ spots.old.items ++ spots_of_blocks function 0 blocks.now) }
{
    for (block, b) in blocks.iter().enumerate() {
        add_block(spots, Spot { function, block }, b.len)?;
    }
    Ok(())
}

/// Adds the spots of functions.
fn add_functions(spots: &mut Vec<Spot>, funcs: &[Func]) -> Result<(), OutOfMemory>
    ensures { OnOk result (spots.new.items ≡ spots.old.items ++ spots_of_functions 0 funcs.now) }
{
    for (function, f) in funcs.iter().enumerate() {
        add_blocks(spots, function, f.blocks.as_slice())?;
    }
    Ok(())
}

/// The spot of each place of a code.
pub fn spots_of(alloc: Global, code: &Code) -> Result<Vec<Spot>, OutOfMemory>
    requires { IsSound code.now }
    ensures { IfOk result (λ spots. AreSpots code.now spots.items) }
{
    let mut spots = Vec::new(alloc);
    add_functions(&mut spots, code.funcs.as_slice())?;
    Ok(spots)
}

/// The index of the block of a place in the place's function.
pub fn block_here(code: &Code, spots: &[Spot], place: u32) -> usize
    requires spots { AreSpots code.now spots.now }
    requires within { place < length code.now.instrs }
    ensures { result ≡ unwrap_or (block_in (function_of code.now place).blocks place) 0 }
{
    spots[place as usize].block
}

/// The function of a place.
pub fn function_here<'a>(code: &'a Code, spots: &[Spot], place: u32) -> &'a Func
    requires spots { AreSpots code.now spots.now }
    requires within { place < length code.now.instrs }
    ensures { result.now ≡ function_of code.now place }
{
    &code.funcs.as_slice()[spots[place as usize].function]
}
