//! Whether a module keeps its rules.
#![tactic(auto)]

mod judge;

pub use judge::fault_of;
