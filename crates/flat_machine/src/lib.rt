//! The machine of the engine over flat states: each state has memory of its own, and a fork copies it.
#![tactic(auto)]

mod boxed;
mod group;
mod keys;
mod machine;
mod numbers;
mod own_ports;
mod state;
mod subject;
mod turns;

pub use boxed::{copied_signs, run_by, try_by};
pub use machine::{FlatMachine, FlatOver};
pub use own_ports::{OwnPorts, Ports};
pub use state::FlatState;
pub use subject::Subject;
