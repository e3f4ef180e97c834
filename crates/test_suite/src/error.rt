//! The refusals of `read_tests`.

use thiserror::Error;

/// Why a text is no list of tests. The first record with a fault is refused, with its first fault
/// in this order but `Header`, which record 0 alone can have. `row` is the number of the record:
/// the header is record 0.
#[derive(Clone, Copy, Debug, PartialEq, Eq, Error)]
pub enum TestError {
    /// The record hasn't as many fields as the header.
    #[error("record {row} has another number of fields than the header")]
    Lengths { row: u32 },
    /// Record 0 isn't the header, or there is no record.
    #[error("record {row} isn't the header")]
    Header { row: u32 },
    /// The first field isn't 1 to 64 letters, digits, `_`, `.` or `-`.
    #[error("record {row} has no name")]
    Name { row: u32 },
    /// An earlier test has the name.
    #[error("the name of record {row} is that of an earlier one")]
    DoubleName { row: u32 },
    /// No function has the name in the second field.
    #[error("record {row} names no function")]
    UnknownFunction { row: u32 },
    /// A parameter is a pointer, or the third field isn't one decimal number for each parameter,
    /// each of which fits its width, with one blank between each two.
    #[error("the arguments of record {row} aren't those of its function")]
    Arguments { row: u32 },
    /// The fifth field is neither empty nor a decimal number from 1 to `MAX_BUDGET`.
    #[error("record {row} has no budget")]
    Budget { row: u32 },
    /// The last field is neither empty nor an ending, nor an ending, `:` and the output.
    #[error("record {row} spells no outcome")]
    Expect { row: u32 },
    /// More than `MAX_TESTS` tests, or more bytes of input or of expected output than a run may have.
    #[error("record {row} is past a limit")]
    Limit { row: u32 },
    #[error("out of memory")]
    OutOfMemory,
}
