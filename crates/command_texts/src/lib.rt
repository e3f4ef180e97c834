//! The texts of the commands other than `run`: of an accepted module, of one mutant's run by itself,
//! and of groups of mutants.
#![tactic(auto)]

mod accepted;
mod alone;
mod groups;

pub use accepted::accepted_text;
pub use alone::alone_text;
pub use groups::groups_text;
