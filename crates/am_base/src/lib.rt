//! What the whole product speaks of: its limits by name, words and their operations, traps, endings
//! and outcomes, the shelf that files are read from and the sink that text is written to.
#![tactic(auto)]

mod limits;
mod memory_shelf;
mod memory_sink;
mod outcome;
mod reading;
mod same;
mod shelf;
mod sink;
mod word;

pub use limits::{
    DEFAULT_BUDGET, FIRST_ADDRESS, MAX_BUDGET, MAX_FILE_BYTES, MAX_FRAMES, MAX_FUNCTION_REGISTERS,
    MAX_FUNCTIONS, MAX_INPUT_BYTES, MAX_INSTRUCTIONS, MAX_LISTED_MUTANTS, MAX_LISTED_RECORDS,
    MAX_LIVE_REGISTERS, MAX_MUTANTS, MAX_NESTING, MAX_OUTPUT_BYTES, MAX_REPLACEMENTS,
    MAX_TEST_NAME_BYTES, MAX_TESTS, MAX_TYPE_BYTES, MAX_TYPE_DEFINITIONS, MEMORY_BYTES, PAGE_BYTES,
};
pub use memory_shelf::MemoryShelf;
pub use memory_sink::MemorySink;
pub use outcome::{Ending, OutOfMemory, Outcome, Trap};
pub use reading::{ReadFailed, read_whole};
pub use shelf::{Shelf, ShelfFault};
pub use sink::{Sink, SinkFailed, write_whole};
pub use word::{BinOp, Cast, Pred, Width, binary, compare, convert};

#[cfg(test)]
mod tests;
