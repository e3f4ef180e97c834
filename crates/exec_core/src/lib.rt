//! The engine: it runs the mutants of a test together over any machine. And the laws of running
//! them together.
#![tactic(auto)]

mod divide;
mod engine;
mod execution;
mod finish;
mod in_place;
pub mod laws;
mod meter;
mod pick;
mod plan;
mod result;
mod run;
mod shared_run;
mod turn;

pub use exec_machine::{Machine, Toy, ToyState, examples};
pub use meter::Meter;
pub use result::{Analysis, Class, Split, Work};
pub use shared_run::analyse;
