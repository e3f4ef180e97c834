//! The machine of the engine over pages that are copied on write: the memories of its states share
//! each page until one of them writes it, so that a fork copies none.
#![tactic(auto)]

mod change;
mod machine;
mod own_ports;
mod reading;
mod state;
mod turns;
mod writes;

pub use machine::{SharedMachine, SharedOver};
pub use own_ports::OwnPorts;
pub use state::SharedState;
