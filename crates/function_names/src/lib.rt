//! The functions of a code by their names. Lists of mutants and of tests name functions in each
//! record, so the names are looked up in a map.
#![tactic(auto)]

mod names;

pub use names::FunctionNames;
