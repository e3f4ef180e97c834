//! Whether the types that are written in an item keep the rules.
#![tactic(auto)]

mod init_parts;
mod initial;
mod operands;
mod parts;
mod paths;
mod rules;
mod scalars;

pub use initial::{init_literal_range, init_type_differs, init_unknown_name};
pub use paths::get_path;
pub use rules::{is_type_large, recursive_type, type_too_large, unknown_type};
pub use scalars::scalar_wanted;
