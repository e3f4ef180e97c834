//! All tests of a suite, each analysed with all mutants at once, and the report of them.
#![tactic(auto)]

mod done;
mod letters;
mod show;
mod suite;

pub use done::Done;
pub use show::Show;
pub use suite::{analyse_suite, report_of};
