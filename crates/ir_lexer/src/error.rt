//! The refusals of `lex`.
use std::alloc::AllocFailed;
use thiserror::Error;

/// Why `lex` gives no tokens.
#[derive(Clone, Copy, Debug, PartialEq, Eq, Error)]
pub enum LexError {
    /// A byte that begins no token; also a `%`, `@` or `#` without a name or digits after it.
    #[error("no token begins at byte {at}")]
    BadByte {
        /// The offset of the byte, from 0.
        at: u32,
    },
    /// A `"` that no later one closes.
    #[error("no quote closes the one at byte {at}")]
    OpenQuote {
        /// The offset of the `"`, from 0.
        at: u32,
    },
    #[error("out of memory")]
    OutOfMemory,
}

impl<T: Drop> From<AllocFailed<T>> for LexError {
    ghost use Rattle.ir_lexer.specs.declared.error.LexError.TheVariants.{OutOfMemory};
    ghost use Rattle.std.specs.Prelude.{◌≡◌};

    ghost from_gives = { λ _ e. e ≡ OutOfMemory };

    fn from(_failed: AllocFailed<T>) -> LexError {
        LexError::OutOfMemory
    }
}
