//! Reads the parts of items: types, groups, what is skipped, operands and initialisers.
#![tactic(auto)]

mod groups;
mod initialisers;
mod operands;
mod skips;
mod types;

pub use groups::{curly, group};
pub use initialisers::initialiser;
pub use operands::{further_operands, operand, typed_operand};
pub use skips::{Ignored, optional, repeated};
pub use types::{result_type, type_text};
