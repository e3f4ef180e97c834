//! Lists of mutants that are made from a module: for each instruction what its operator, its
//! predicate, its constants, its operands, its labels and its condition may be replaced by.
#![tactic(auto)]

mod changes;
mod constants;
mod error;
mod list;
mod makers;
mod numbers;
mod rows;
mod text;
mod walk;

pub use error::MakeError;
pub use list::make;
pub use rows::Row;
pub use text::list_of;
