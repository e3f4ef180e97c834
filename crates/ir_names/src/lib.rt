//! Names and what they are defined as: a table in which the first definition of a name counts.
#![tactic(auto)]

mod name_table;

pub use name_table::NameTable;
