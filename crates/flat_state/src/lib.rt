//! The state of a run with one vector for the registers of all frames and memory kept up to the highest stack top so far. Contracts see what it
//! stands for, and its room: a change for which there is room is made without memory, and can't be refused.
#![tactic(auto)]

mod apply;
mod mark;
mod reads;
mod ready;
mod start;
mod state;
mod write;

pub use reads::{first_place, function, result_register};
pub use state::Flat;
