//! Sets of mutant numbers.
#![tactic(auto)]

mod form;
mod marks;
mod members;
mod plane;
mod split;
mod words;

pub use marks::{is_marked, mark, widen};
pub use members::Members;
