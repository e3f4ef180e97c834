//! What the program tells a person on standard error: the words of a refusal taken apart, what each
//! code means and what helps, and where a line or a record of a file is.
//!
//! Nothing here decides anything: the commands have their texts and statuses without it.
#![tactic(auto)]

mod lists;
mod modules;
mod places;
mod refusal;
mod usage;

pub use lists::{about_mutants, about_tests};
pub use modules::about_module;
pub use places::{line_at, line_of_record};
pub use refusal::{Refusal, refusal_of};
pub use usage::{COMMANDS, Program, VIEWS, wrong_word};

#[cfg(test)]
mod tests;
