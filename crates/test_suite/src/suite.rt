//! The types of a suite of tests.

use am_base::Outcome;
use am_lists::{Bytes, Items};
use code_form::Case;

/// One test: a case under a name.
#[derive(Debug, Drop, PartialEq, Eq)]
pub struct Test {
    /// 1 to 64 letters, digits, `_`, `.` or `-`; no other test of the suite has it.
    pub name: Bytes,
    pub case: Case,
    /// The outcome that the test asks for. Where there is none, the test asks for the outcome of the unchanged program.
    pub expected: Option<Outcome>,
}

/// The tests of a file, in its order, at most 1,024.
#[derive(Debug, Drop, PartialEq, Eq)]
pub struct Suite {
    pub tests: Items<Test>,
}
