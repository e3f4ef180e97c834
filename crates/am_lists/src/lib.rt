//! The list that the product's types hold: a `Vec` that contracts see as the list of its elements.
//! Equality (`Same`) and copies (`TryClone`) of every type of the product, by one trait each.
#![tactic(auto)]

mod items;
mod same;
mod try_clone;

pub use items::{Bytes, Items};
pub use same::{Same, same_lists};
pub use try_clone::{TryClone, try_clone_list};
