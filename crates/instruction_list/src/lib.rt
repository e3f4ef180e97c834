//! The instructions of a module with the numbers that a list of mutants calls them by.
#![tactic(auto)]

mod laws;
mod line;
mod walk;

pub use laws::lines_are_the_code;
pub use line::Line;
pub use walk::lines_of;
