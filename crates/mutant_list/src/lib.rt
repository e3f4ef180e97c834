//! Reading a list of mutants for a module: each record names an instruction of the module and what
//! stands in its place.
#![tactic(auto)]

mod addresses;
mod list;
mod texts;

pub use list::{read_mutants, read_mutants_at, read_mutants_by};
pub use mutant_records::{MutantError, MutantList, MutantRow};
