//! The refusals of `read` and `read_instruction`.
use std::alloc::AllocError;
use thiserror::Error;

/// Why `read` gives no items.
#[derive(Clone, Copy, Debug, PartialEq, Eq, Error)]
pub enum ReadError {
    /// The tokens before this one are whole items, each allowed at its place, and no allowed item
    /// begins at this one.
    #[error("token {token} begins no item that is allowed there")]
    NotAnItem {
        /// The index of the token, from 0; the number of all tokens if they are whole items and a
        /// function is still open after them.
        token: u32,
    },
    #[error("out of memory")]
    OutOfMemory,
}

impl From<AllocError> for ReadError {
    ghost use Rattle.ir_reader.specs.declared.error.ReadError.TheVariants.{OutOfMemory};
    ghost use Rattle.std.specs.Prelude.{◌≡◌};

    ghost from_gives = { λ _ e. e ≡ OutOfMemory };

    fn from(_error: AllocError) -> ReadError {
        ReadError::OutOfMemory
    }
}

/// Why `read_instruction` gives no instruction.
#[derive(Clone, Copy, Debug, PartialEq, Eq, Error)]
pub enum InstrError {
    /// The text isn't one whole instruction without a written result.
    #[error("not one instruction without a result")]
    NotAnInstruction,
    #[error("out of memory")]
    OutOfMemory,
}
