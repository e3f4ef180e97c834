//! The rules that a module has to keep, each as a predicate on an item, and the code of a module
//! that keeps them.
//!
//! This crate has the definitions, in `specs/`, and laws on them. The functions that compute them
//! are in the crates above.
#![tactic(auto)]

mod entity;
mod laws;
mod local;
mod rule;
mod scope;

pub use entity::{Entity, Signature};
pub use laws::{first_fault, names_in_passing};
pub use local::Local;
pub use rule::{Fault, Rule};
pub use scope::Scope;
