//! The limits of the product, each under one name. Contracts cite them by these names, and
//! definitions import them from `Rattle.am_base.specs.declared.limits.TheConstants`.

/// The greatest length of a file that is read, in bytes.
pub const MAX_FILE_BYTES: usize = 4_194_304;

/// How many functions a module may define.
pub const MAX_FUNCTIONS: usize = 1_024;

/// How many type definitions a module may have.
pub const MAX_TYPE_DEFINITIONS: usize = 1_024;

/// How many instructions a module may have, `phi` included.
pub const MAX_INSTRUCTIONS: usize = 65_536;

/// How many registers a function may have: its parameters and its instructions with a value.
pub const MAX_FUNCTION_REGISTERS: u32 = 32_768;

/// How deep the brackets of a type or an initialiser may be nested in a text.
pub const MAX_NESTING: u32 = 64;

/// How many bytes the memory of a run has. Its addresses are the numbers below it.
pub const MEMORY_BYTES: u32 = 1_048_576;

/// The greatest size of a type, in bytes: a value of it may fill the memory.
pub const MAX_TYPE_BYTES: u64 = 1_048_576;

/// The least address that may be loaded from and stored to. Constant globals begin there.
pub const FIRST_ADDRESS: u32 = 1_024;

/// How many bytes a page of the memory has. The page of an address is its quotient by this.
pub const PAGE_BYTES: u32 = 1_024;

/// How many mutants an analysis may have, mutant 0, the unchanged program, included.
pub const MAX_MUTANTS: u32 = 65_536;

/// How many mutants a list may name: all but mutant 0.
pub const MAX_LISTED_MUTANTS: u32 = 65_535;

/// How many replacements a mutant may have, each at another place.
pub const MAX_REPLACEMENTS: usize = 4;

/// How many records a list of mutants may have: `MAX_REPLACEMENTS` for each of its mutants.
pub const MAX_LISTED_RECORDS: u32 = 262_140;

/// How many tests a suite may have.
pub const MAX_TESTS: u32 = 1_024;

/// The greatest length of a test's name, in bytes.
pub const MAX_TEST_NAME_BYTES: usize = 64;

/// The greatest budget of a test: how many changes a run makes at most.
pub const MAX_BUDGET: u64 = 10_000_000;

/// The budget of a test that states none, where the command states none either.
pub const DEFAULT_BUDGET: u64 = 1_000_000;

/// How many frames a run may have at once.
pub const MAX_FRAMES: u32 = 512;

/// How many registers all frames of a run may have together.
pub const MAX_LIVE_REGISTERS: u32 = 32_768;

/// How many bytes a run may write to its output.
pub const MAX_OUTPUT_BYTES: u32 = 65_536;

/// The greatest length of a test's input, in bytes.
pub const MAX_INPUT_BYTES: u32 = 65_536;
