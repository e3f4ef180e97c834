//! The memory of a module: where its globals stand, and the bytes that it has before a run.
#![tactic(auto)]

mod bytes;
mod inits;
mod opening;
mod places;
mod rooms;

pub use opening::opening_bytes;
pub use places::{Placed, Places, addresses_of, places_of, stack_base_of};
