//! The refusal of a part of an item.
use am_base::OutOfMemory;
use std::alloc::{AllocError, AllocFailed};

/// Why a part of an item isn't read.
#[derive(Clone, Copy, Debug, PartialEq, Eq)]
pub enum PartError {
    /// The next tokens aren't the part.
    NotHere,
    OutOfMemory,
}

impl From<AllocError> for PartError {
    ghost use Rattle.ir_reader_tokens.specs.declared.error.PartError.TheVariants.{OutOfMemory};
    ghost use Rattle.std.specs.Prelude.{◌≡◌};

    ghost from_gives = { λ _ e. e ≡ OutOfMemory };

    fn from(_error: AllocError) -> PartError {
        PartError::OutOfMemory
    }
}

impl<T: Drop> From<AllocFailed<T>> for PartError {
    ghost use Rattle.ir_reader_tokens.specs.declared.error.PartError.TheVariants.{OutOfMemory};
    ghost use Rattle.std.specs.Prelude.{◌≡◌};

    ghost from_gives = { λ _ e. e ≡ OutOfMemory };

    fn from(_error: AllocFailed<T>) -> PartError {
        PartError::OutOfMemory
    }
}

impl From<OutOfMemory> for PartError {
    ghost use Rattle.ir_reader_tokens.specs.declared.error.PartError.TheVariants.{OutOfMemory};
    ghost use Rattle.std.specs.Prelude.{◌≡◌};

    ghost from_gives = { λ _ e. e ≡ OutOfMemory };

    fn from(_error: OutOfMemory) -> PartError {
        PartError::OutOfMemory
    }
}
