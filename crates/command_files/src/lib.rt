//! The files of a command: each is read and judged whole, and gives what the command needs, or the
//! line that refuses it.
#![tactic(auto)]

mod full;
mod laws;
mod module;
mod mutants;
mod suite;

pub use full::{Listing, load_listing};
pub use laws::{broken_item_has_a_token, one_module_file, one_mutants_file, one_tests_file};
pub use module::{Loaded, load_module};
pub use mutants::load_mutants;
pub use suite::load_tests;
