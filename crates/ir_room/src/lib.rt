//! How much of the memory the globals of a module need.
#![tactic(auto)]

mod ends;
mod room;

pub use room::Room;
