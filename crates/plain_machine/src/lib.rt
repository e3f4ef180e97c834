//! One mutant by itself, by the evaluator over flat states.
#![tactic(auto)]

mod run;
mod turn;

pub use lane_eval::{Program, fill_variant, try_variant, try_variants};
pub use run::{Alone, run_alone};
pub use turn::apply;
