//! Reads the tokens of a module's text as its items.
#![tactic(auto)]

mod calls;
mod error;
mod functions;
mod items;
mod jumps;
mod modules;
mod ops;

pub use error::{InstrError, ReadError};
pub use modules::{Reading, read, read_instruction};
