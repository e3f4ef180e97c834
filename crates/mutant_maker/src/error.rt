//! The refusals of `make`.
use am_base::OutOfMemory;
use thiserror::Error;

/// Why `make` gives no list.
#[derive(Clone, Copy, Debug, PartialEq, Eq, Error)]
pub enum MakeError {
    /// The list would have more than `MAX_LISTED_MUTANTS` mutants.
    #[error("more mutants than a list may have")]
    TooMany,
    /// Want of memory, which may come at any module.
    #[error("out of memory")]
    OutOfMemory,
}

impl From<OutOfMemory> for MakeError {
    ghost use Rattle.mutant_maker.specs.declared.error.MakeError.TheVariants.{OutOfMemory};
    ghost use Rattle.std.specs.Prelude.{◌≡◌};

    ghost from_gives = { λ _ e. e ≡ OutOfMemory };

    fn from(_error: OutOfMemory) -> MakeError {
        MakeError::OutOfMemory
    }
}
