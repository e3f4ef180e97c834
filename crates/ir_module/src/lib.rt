//! The code of a module: its functions, its instructions, and the bytes that it begins with.
#![tactic(auto)]

mod module;
mod parts;
mod signs;
mod tables;

pub use module::module_code;
