//! The records of a list of mutants, and how they are read into the table of its replacements. What
//! decides on a replacement is handed in.
#![tactic(auto)]

mod error;
mod list;
mod progress;
mod read;
mod records;
mod table;

pub use error::MutantError;
pub use list::{ListForm, Made, MutantList, MutantRow, Replacement};
pub use read::read_mutants_over;
pub use records::Replaces;
