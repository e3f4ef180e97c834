//! What commands want of the lists.

ghost use Rattle.std.specs.Prelude.{◌≡◌};
ghost use Rattle.std.specs.Option.{option_copied};
ghost use Rattle.commands.specs.Alone as spec;

use test_suite::{Suite, Test};

/// The mutant and the test that `alone` wants. Either may be one that isn't there.
#[derive(Clone, Copy, Debug, PartialEq, Eq)]
pub struct Wanted {
    /// A mutant number, 0 included.
    pub mutant: u64,
    /// The number of a test, from 1.
    pub test: u64,
}

/// The test that `groups` wants, which may be one that isn't there, and a step of its runs.
#[derive(Clone, Copy, Debug, PartialEq, Eq)]
pub struct Point {
    /// The number of a test, from 1.
    pub test: u64,
    /// A number of changes, 0 included. It may be above the budget of the test.
    pub step: u64,
}

/// The test with a number, from 1.
pub(crate) fn test_at(suite: &Suite, number: u64) -> Option<&Test>
    ensures { option_copied result ≡ spec.test_numbered suite.now.tests number }
{
    if number == 0 {
        return None;
    }
    suite.tests.get((number - 1) as usize)
}
