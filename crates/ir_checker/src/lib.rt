//! Whether the items of a module keep its rules: the least rule that an item breaks.
#![tactic(auto)]

mod broken;
mod check;
mod groups;
mod judge;

pub use broken::{Known, Notes, TypeBreaks, notes_of};
pub use check::{TypeRules, first_fault};
pub use judge::rule_of;
