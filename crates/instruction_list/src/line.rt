//! One instruction with its number.

use am_lists::Bytes;

/// An instruction of a function.
#[derive(Debug, Drop)]
pub struct Line {
    /// The name of the function, without `@`.
    pub function: Bytes,
    /// The number of the instruction in the function, from 1 in text order, `phi` included.
    pub number: u64,
    /// The canonical text of the instruction without its result, as a list of mutants has it.
    pub text: Bytes,
}
