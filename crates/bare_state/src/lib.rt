//! A state of a run but for its memory: the frames with one vector for the registers of all of them,
//! the stack top, the input, the output and the ending. Contracts see what it stands for, and its
//! room: a change for which there is room is made without memory, and can't be refused.
#![tactic(auto)]

mod apply;
mod mark;
mod ready;
mod start;
mod state;
mod write;

pub use start::hold_bytes;
pub use state::Bare;
