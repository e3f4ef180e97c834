//! The verdict of each mutant on each test, and the score.
#![tactic(auto)]

mod letter;
mod matrix;

pub use letter::{Letter, verdict};
pub use matrix::Matrix;
