//! Which items of a list are equal, by the number of the first of them.
#![tactic(auto)]

mod first;
mod keyed;

pub use first::classes_by;
pub use keyed::classes_keyed;
