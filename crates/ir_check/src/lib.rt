//! The check of a module: whether each of its items keeps the rules, and the code that it has then.
#![tactic(auto)]

mod error;
mod module;

pub use error::CheckError;
pub use module::check;
