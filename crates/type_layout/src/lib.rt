//! The types of values in memory: how many bytes they take, how they are aligned, and where the fields of a struct begin.
#![tactic(auto)]

mod layout;
#[cfg(test)]
mod tests;
mod ty;

pub use layout::{align_of, offset, size_of};
pub use ty::Ty;
