//! Test suites: named cases with the outcomes that they expect, and how a list of them is read.
#![tactic(auto)]

mod error;
mod expected;
mod read;
mod suite;

pub use error::TestError;
pub use read::read_tests;
pub use suite::{Suite, Test};
