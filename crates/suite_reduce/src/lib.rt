//! The smaller suite that kills the same mutants, and for each mutant the least one that subsumes it,
//! both by the letters of a matrix alone.
#![tactic(auto)]

mod choice;
mod kills;
mod laws;
mod least;
mod planes;
mod text;

pub use choice::choose;
pub use laws::{chosen_kill_alone, chosen_kill_like_all};
pub use least::subsumers;
pub use text::reduced;

#[cfg(test)]
mod tests;
