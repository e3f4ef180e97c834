//! The laws that the code of a module without a fault is sound, and that a replacement fits its
//! place in it.
//!
//! A machine may rely on a sound code: registers are read and written at their types, blocks end
//! with their only terminator, branches and calls go to what is there, and nothing passes a limit.
//! This crate has the laws alone, as public functions with no body; what is sound is defined in
//! `code_form`, and what the code of a module is in `ir_rules`.
#![tactic(auto)]

mod laws;

pub use laws::{code_is_sound, items_are_whole, replacement_fits, starts_are_within};
