//! The rules of an item that ask for the types of its module.
#![tactic(auto)]

mod typed;

pub use typed::{TypedRules, Walked};
