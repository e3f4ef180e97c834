//! Traps, endings and outcomes of a run, and the one error of a call that takes memory.

ghost use Rattle.std.specs.Prelude.{◌≡◌};
ghost use Rattle.am_base.specs.Outcome.{trap_number};

use am_lists::Bytes;
use std::alloc::{AllocError, AllocFailed};
use thiserror::Error;

/// No memory could be had. A call that takes an allocator, or grows a list that holds one, may
/// answer this at any time, and no other call does.
#[derive(Clone, Copy, Debug, PartialEq, Eq, Error)]
#[error("out of memory")]
pub struct OutOfMemory;

impl From<AllocError> for OutOfMemory {
    fn from(_error: AllocError) -> OutOfMemory {
        OutOfMemory
    }
}

impl<T: Drop> From<AllocFailed<T>> for OutOfMemory {
    fn from(_error: AllocFailed<T>) -> OutOfMemory {
        OutOfMemory
    }
}

/// What ends a run in place of undefined behaviour, numbered from 1 in this order. The traps are
/// this project's own.
#[derive(Clone, Copy, Debug, PartialEq, Eq)]
pub enum Trap {
    /// A division or remainder by zero.
    DivideByZero,
    /// The least signed value divided by -1, or its remainder.
    DivideOverflow,
    /// A load or store of a byte below address 1,024, or at the stack top or above it.
    AddressRange,
    /// A store into the constant globals.
    ConstantWrite,
    /// A register read before it was written, also by a `phi` on an edge.
    UnsetRegister,
    /// The instruction `unreachable`.
    Unreachable,
    /// A call of `abort`.
    Abort,
    /// A call beyond `MAX_FRAMES` frames.
    DepthFull,
    /// More than `MAX_LIVE_REGISTERS` register words in all frames.
    RegistersFull,
    /// A stack top past the end of memory.
    MemoryFull,
    /// A byte of output past the first `MAX_OUTPUT_BYTES`.
    OutputFull,
    /// A port without an answer.
    PortRefused,
}

impl Trap {
    /// The number of the trap, from 1 to 12.
    pub fn number(self) -> u32
        ensures { result ≡ trap_number self }
    {
        match self {
            Trap::DivideByZero => 1,
            Trap::DivideOverflow => 2,
            Trap::AddressRange => 3,
            Trap::ConstantWrite => 4,
            Trap::UnsetRegister => 5,
            Trap::Unreachable => 6,
            Trap::Abort => 7,
            Trap::DepthFull => 8,
            Trap::RegistersFull => 9,
            Trap::MemoryFull => 10,
            Trap::OutputFull => 11,
            Trap::PortRefused => 12,
        }
    }
}

/// How a run ends.
#[derive(Clone, Copy, Debug, PartialEq, Eq)]
pub enum Ending {
    /// The first function returned, with this word or none.
    Return(Option<u64>),
    /// `exit` was called with this word.
    Exit(u64),
    Trap(Trap),
    /// The budget was used up.
    Budget,
}

/// What a run shows: its ending and the bytes that it wrote.
#[derive(Debug, Drop, PartialEq, Eq)]
pub struct Outcome {
    pub ending: Ending,
    pub output: Bytes,
}
