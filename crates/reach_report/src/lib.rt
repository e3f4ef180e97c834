//! How far each mutant of a test gets: whether it is reached, and whether it parts from the original.
#![tactic(auto)]

mod laws;
mod parting;
mod reach;
mod table;

pub use laws::{no_later_parting, unparted_traces};
pub use parting::partings;
pub use reach::reaches;
