//! All mutants of a test run in one analysis over states that share pages.
#![tactic(auto)]

mod case;
mod ended;
mod laws;
mod numbers;
mod own;
mod release;

pub use case::analyse_over;
pub use ended::{Ended, TestResult, Together};
pub use laws::groups;
pub use own::run_over;
