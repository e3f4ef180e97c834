//! Types by number: a table that has each type once, with the parts of a type by their numbers, so
//! that no type is inside another.
#![tactic(auto)]

mod extent;
mod shape;
mod table;

pub use shape::{Extent, Shape};
pub use table::TypeTable;
