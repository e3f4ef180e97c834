//! The laws of the makers: the list of the made mutants of a module is accepted as a list of
//! mutants for it, each of them fits its place, and only equal ones are left out.
//!
//! This crate has the laws alone, as public functions with no body; what the makers make is defined
//! in `mutant_maker`, and what the records of a list give in `mutant_records` and `mutant_list`.
#![tactic(auto)]

mod laws;

pub use laws::{made_mutants_are_accepted, makers_fit, only_equal_ones_are_left_out};
