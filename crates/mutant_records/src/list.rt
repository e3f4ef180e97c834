//! The types of a list of mutants.

use am_lists::Items;
use code_form::{Instr, Place, Variants};

/// The two forms of a list, told apart by its header.
#[derive(Clone, Copy, Debug, PartialEq, Eq)]
pub enum ListForm {
    /// `function;instruction;replacement`: each record is a mutant, numbered by the record.
    Plain,
    /// `mutant;function;instruction;replacement`: each record adds a replacement to the mutant of
    /// its first field.
    Numbered,
}

/// One record of a list: a replacement of one mutant.
#[derive(Clone, Copy, Debug, PartialEq, Eq)]
pub struct MutantRow {
    /// The number of the mutant, from 1.
    pub mutant: u32,
    /// The number of the function.
    pub function: u32,
    /// The instruction that is replaced.
    pub place: Place,
    /// The number that the replacement has at its place: 0 if it equals the original.
    pub variant: u32,
}

/// The mutants of a file, at most `MAX_LISTED_MUTANTS`, and a row for each of its records, in order.
#[derive(Drop)]
pub struct MutantList {
    pub variants: Variants,
    pub rows: Items<MutantRow>,
}

/// What a record asks for: that a mutant has an instruction in the place of another.
#[derive(Drop)]
pub struct Made {
    pub mutant: u32,
    pub function: u32,
    pub place: Place,
    pub with: Instr,
}

/// What a text is as a replacement in a place.
#[derive(Drop)]
pub enum Replacement {
    /// It isn't one whole instruction without a written result.
    NoInstruction,
    /// The instruction can't stand there.
    Misfit,
    /// The instruction can stand there.
    Fits(Instr),
}
