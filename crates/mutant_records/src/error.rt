//! The refusals of a list of mutants.

use thiserror::Error;

/// Why a text is no list of mutants. The first record with a fault is refused, with its first fault
/// in this order but `Header`, which record 0 alone can have. `row` is the number of the record:
/// the header is record 0.
#[derive(Clone, Copy, Debug, PartialEq, Eq, Error)]
pub enum MutantError {
    /// The record hasn't as many fields as the header.
    #[error("record {row} has another number of fields than the header")]
    Lengths { row: u32 },
    /// Record 0 isn't the header, or there is no record.
    #[error("record {row} isn't the header")]
    Header { row: u32 },
    /// The first field of a record that is numbered isn't the number of the mutant of the record
    /// before or one more, 1 for record 1; or that mutant has `MAX_REPLACEMENTS` records before.
    #[error("record {row} numbers no mutant that may have it")]
    Numbering { row: u32 },
    /// No function has the name that the record gives.
    #[error("record {row} names no function")]
    UnknownFunction { row: u32 },
    /// The instruction's field isn't a decimal number from 1 to the number of the function's
    /// instructions.
    #[error("record {row} names no instruction")]
    NoPlace { row: u32 },
    /// An earlier record of the same mutant replaces the instruction.
    #[error("record {row} names an instruction that its mutant replaces already")]
    SamePlace { row: u32 },
    /// The last field isn't one whole instruction without a written result.
    #[error("record {row} has no instruction")]
    NotAnInstruction { row: u32 },
    /// The instruction can't stand in the place of the original.
    #[error("the instruction of record {row} doesn't fit its place")]
    NotOfItsType { row: u32 },
    /// The number of the record's mutant is over `MAX_LISTED_MUTANTS`.
    #[error("record {row} is past the limit")]
    Limit { row: u32 },
    #[error("out of memory")]
    OutOfMemory,
}
