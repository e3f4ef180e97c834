//! The replacements of a list of mutants.

use am_lists::Bytes;

/// One replacement of a mutant.
#[derive(Debug, Drop)]
pub struct Listed {
    /// The number of the mutant, from 1.
    pub mutant: u32,
    /// Which instruction of the module it replaces: how many lines stand before that one's.
    pub place: u32,
    /// What stands there, as the list of mutants has it.
    pub text: Bytes,
}
