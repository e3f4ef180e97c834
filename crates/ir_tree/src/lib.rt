//! The tree of a module's text: what is left of its items once they are read, with names, types,
//! operands and instructions as they are written.
//!
//! A value of these types is the tree alone, with no pointer in it, so two trees are equal iff
//! contracts say that their values are.
#![tactic(auto)]

mod copies;
mod item;
mod name;
mod op;
mod operand;
mod type_text;

pub use item::{Item, Module};
pub use name::Name;
pub use op::Op;
pub use operand::{Init, Opd};
pub use type_text::TyText;
