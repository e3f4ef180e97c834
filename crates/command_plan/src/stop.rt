//! Why a command has no text.

ghost use Rattle.std.specs.Prelude.{◌≡◌};
ghost use Rattle.command_plan.specs.Answer.{refusal};

use crate::status::Input;
use am_base::OutOfMemory;
use am_lists::Bytes;

/// Why a command has no text.
#[derive(Debug, Drop)]
pub enum Stop {
    /// An input is refused. The line says why, and is to be written.
    Refused(Input, Bytes),
    /// A file could not be read.
    Fault,
    /// A file has more than `MAX_FILE_BYTES` bytes.
    TooLong,
    /// The list that is asked for would have more than `MAX_LISTED_MUTANTS` records.
    TooMany,
    /// No memory could be had.
    OutOfMemory,
}

impl Stop {
    /// The refusal of an input with a line, unless no memory could be had for it.
    pub fn refusal(input: Input, line: Result<Bytes, OutOfMemory>) -> Stop
        ensures { result ≡ refusal input line }
    {
        match line {
            Ok(line) => Stop::Refused(input, line),
            Err(OutOfMemory) => Stop::OutOfMemory,
        }
    }
}
