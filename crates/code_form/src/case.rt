//! A case: one run that a test asks for.

ghost use Rattle.std.specs.Prelude.{◌≡◌, ◌≤◌, IfOk};

use am_base::{MAX_BUDGET, OutOfMemory};
use am_lists::{Bytes, Items};
use std::alloc::Global;

/// One run that a test asks for.
#[derive(Debug, Drop, PartialEq, Eq)]
pub struct Case {
    /// The number of the function that is run.
    pub function: u32,
    /// One word for each of its parameters, of the parameter's width.
    pub args: Items<u64>,
    /// The bytes that `getchar` gives, at most `MAX_INPUT_BYTES`.
    pub input: Bytes,
    /// The greatest number of steps, from 1 to `MAX_BUDGET`.
    pub budget: u64,
}

impl Case {
    /// Returns a case with this budget, from 1 to `MAX_BUDGET` steps, and with its other fields
    /// equal.
    pub fn with_budget(&self, alloc: Global, budget: u64) -> Result<Case, OutOfMemory>
        requires some { 1 ≤ budget }
        requires few { budget ≤ MAX_BUDGET }
        ensures { IfOk result (λ case. case ≡ record self.now { budget = budget }) }
    {
        Ok(Case {
            function: self.function,
            args: self.args.copy(alloc)?,
            input: self.input.copy(alloc)?,
            budget,
        })
    }
}

#[cfg(test)]
mod tests {
    use super::*;
    use std::test::Fail;

    #[test]
    fn changes_the_budget_alone(rt: HostRuntime) -> Result<(), Fail> {
        let alloc = rt.alloc();
        let case = Case {
            function: 3,
            args: Items::from_slice(alloc, &[7, 8])?,
            input: Items::from_slice(alloc, b"in")?,
            budget: 10,
        };
        let longer = case.with_budget(alloc, 20)?;
        assert_eq!(rt; longer.function, 3);
        assert_eq!(rt; longer.args.as_slice(), [7, 8].as_slice());
        assert_eq!(rt; longer.input.as_slice(), b"in".as_slice());
        assert_eq!(rt; longer.budget, 20);
        Ok(())
    }
}
