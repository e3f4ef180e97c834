//! The letters of a report, and the verdict on a run.

ghost use Rattle.std.specs.Prelude.{◌≡◌};
ghost use Rattle.kill_matrix.specs.Verdict.{IsVerdict, byte_of, kills};

use am_base::{Ending, Outcome};
use am_lists::Same;

/// How a mutant's outcome on a test compares with the expected one.
#[derive(Clone, Copy, Debug, PartialEq, Eq)]
pub enum Letter {
    /// The outcomes are equal: the test doesn't kill the mutant.
    Same,
    /// They differ, and the mutant used up its budget.
    Budget,
    /// They differ, and the mutant ended by a trap.
    Trap,
    /// The endings differ otherwise.
    Return,
    /// The endings are equal, and the outputs differ.
    Output,
}

impl Letter {
    /// Returns the byte that a report shows: `.`, `B`, `T`, `R` or `O`.
    pub fn byte(self) -> u8
        ensures { result ≡ byte_of self }
    {
        match self {
            Letter::Same => b'.',
            Letter::Budget => b'B',
            Letter::Trap => b'T',
            Letter::Return => b'R',
            Letter::Output => b'O',
        }
    }

    /// Whether the test kills the mutant: it does iff the letter isn't `Same`.
    pub fn kills(self) -> bool
        ensures { result ≡ kills self }
    {
        match self {
            Letter::Same => false,
            Letter::Budget | Letter::Trap | Letter::Return | Letter::Output => true,
        }
    }
}

/// Returns the verdict on what a mutant's run showed, against what the test expects: `Same` iff
/// the outcomes are equal; else `Budget` or `Trap` if the run ended so; else `Return` if the endings
/// differ; else `Output`.
pub fn verdict(got: &Outcome, expected: &Outcome) -> Letter
    ensures { IsVerdict got.now expected.now result }
{
    if got.same(expected) {
        return Letter::Same;
    }
    match got.ending {
        Ending::Budget => Letter::Budget,
        Ending::Trap(_) => Letter::Trap,
        Ending::Return(_) | Ending::Exit(_) => {
            if got.ending.same(&expected.ending) {
                Letter::Output
            } else {
                Letter::Return
            }
        }
    }
}
