//! A workload that is built in: a module, a list of its mutants and a suite, made from a number.
#![tactic(auto)]

mod module;
mod mutants;
mod shelf;
#[cfg(test)]
mod tests;

pub use shelf::{MODULE, MUTANTS, TESTS, Workload};
