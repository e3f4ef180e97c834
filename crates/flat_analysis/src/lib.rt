//! All mutants of a case run in one analysis over flat states.
#![tactic(auto)]

mod case;
mod ended;
mod laws;
mod numbers;
mod own;
mod release;

pub use case::analyse_over;
pub use ended::{CaseAnalysis, Ended, Together};
pub use laws::groups;
pub use own::analyse_case;
