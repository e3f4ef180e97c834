//! What the items of a module and of a function define, each gathered in one pass.
#![tactic(auto)]

mod entities;
mod kinds;
mod scalars;
mod scanning;
mod words;

pub use entities::{entities_of, kinds_of, result_kind};
pub use kinds::KindTable;
pub use scalars::{same_kind, same_result, same_scalar, same_signature};
pub use scanning::{add_item, empty_scope, has_value, is_call, is_phi, is_terminator, scope_of};
pub use words::word_of;
