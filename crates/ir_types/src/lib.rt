//! What the types of a module stand for, by number.
#![tactic(auto)]

mod cycles;
mod definitions;
mod flags;
mod level;
mod mentions;
mod names;
mod number;
mod order;
mod types;
mod walk;

pub use types::Types;
