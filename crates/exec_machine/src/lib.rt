//! The machine whose states can be forked, as an engine knows it, a small one, and a worked example of what running mutants together means.
#![tactic(auto)]

pub mod examples;
mod machine;
mod toy;

pub use machine::Machine;
pub use toy::{Toy, ToyState};
