//! Whether the initialiser of a global fits the global's type.
#![tactic(auto)]

mod fits;
mod levels;
mod same;

pub use fits::init_differs;
