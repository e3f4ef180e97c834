//! The refusals of `check`.
use am_base::OutOfMemory;
use ir_rules::Rule;
use thiserror::Error;

/// Why `check` gives no code.
#[derive(Clone, Copy, Debug, PartialEq, Eq, Error)]
pub enum CheckError {
    /// The item is the first that breaks a rule.
    #[error("item {item} breaks the rule {code:?}")]
    Fault {
        /// The item's number in text order, from 0.
        item: u32,
        /// The least rule that it breaks.
        code: Rule,
    },
    #[error("out of memory")]
    OutOfMemory,
}

impl From<OutOfMemory> for CheckError {
    ghost use Rattle.ir_check.specs.declared.error.CheckError.TheVariants.{OutOfMemory};
    ghost use Rattle.std.specs.Prelude.{◌≡◌};

    ghost from_gives = { λ _ e. e ≡ OutOfMemory };

    fn from(_error: OutOfMemory) -> CheckError {
        CheckError::OutOfMemory
    }
}
