//! Trials of the engine over two small machines, the worked example and a larger one whose numbers
//! were worked out by hand, and of sets of mutants. No crate stands on it, so that the crates below
//! are proved without them.
#![tactic(auto)]

#[cfg(test)]
mod sets;
pub mod tape;
#[cfg(test)]
mod tests;
