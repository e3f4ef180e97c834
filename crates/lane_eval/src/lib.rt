//! The evaluator of this machine's instructions over any view of a state: the change that each
//! variant of a place makes in it.
#![tactic(auto)]

mod call;
mod edge;
mod flat;
mod get;
mod memory;
mod number;
mod outside;
mod port;
mod program;
mod spots;
mod step;
mod tries;
mod view;

pub use edge::entry_place;
pub use program::Program;
pub use tries::{fill_variant, try_variant, try_variants};
pub use view::View;
