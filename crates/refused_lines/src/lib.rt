//! The lines by which a command says that a file is refused, or that a wanted mutant or test isn't
//! there.
#![tactic(auto)]

mod codes;
mod line;
mod lists;
mod modules;

pub use lists::{no_mutant_line, no_test_line, refused_mutants_line, refused_tests_line};
pub use modules::{broken_line, unlexed_line, unread_line};
