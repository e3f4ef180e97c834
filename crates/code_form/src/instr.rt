//! Instructions with registers, functions and blocks by number.

use am_base::{BinOp, Cast, Pred, Width};
use am_lists::{Items, Same};

/// What an instruction reads: a register of its function, or a word. Each global, literal, `null`,
/// `undef` and `poison` is a word.
#[derive(Clone, Copy, Debug, PartialEq, Eq, Hash)]
pub enum Operand {
    Reg(u32),
    Word(u64),
}

/// What a call goes to: a function of the code by its number, a port by its index in the code's
/// signs, or one of the four outside functions that every machine knows.
#[derive(Clone, Copy, Debug, PartialEq, Eq, Hash)]
pub enum Callee {
    Func(u32),
    Port(u32),
    PutChar,
    GetChar,
    Exit,
    Abort,
}

/// An instruction of the profile (LLVM Language Reference, "Instruction Reference"), with
/// registers, functions and blocks by number. Types are kept as far as the meaning needs them: a
/// pointer has the width of 64 bits.
#[derive(Debug, Drop, PartialEq, Eq, Hash)]
pub enum Instr {
    /// The operation, the width and both operands.
    Bin(BinOp, Width, Operand, Operand),
    /// The comparison, the width and both operands.
    Cmp(Pred, Width, Operand, Operand),
    /// The condition, the value where it is 1, the value where it is 0.
    Select(Operand, Operand, Operand),
    /// The widths before and after.
    Cast(Cast, Width, Width, Operand),
    /// The operand itself.
    Freeze(Operand),
    /// Size and alignment of the type in bytes, and the unsigned count.
    Alloca(u64, u64, Operand),
    /// The address.
    Load(Width, Operand),
    /// The value and the address.
    Store(Width, Operand, Operand),
    /// The base, the part of the offset that literal indices give modulo 2^64, and for each other
    /// index its scale in bytes, its width and itself.
    Get(Operand, u64, Items<(u64, Width, Operand)>),
    /// Read on the edges to its block, and never a step by itself: for each block that branches
    /// here, by its number in the function, what is read on that edge.
    Phi(Items<(u32, Operand)>),
    /// The callee and the arguments.
    Call(Callee, Items<Operand>),
    /// The block.
    Jump(u32),
    /// The condition, the block where it is 1, the block where it is 0.
    Branch(Operand, u32, u32),
    /// The value, the default block, and the blocks of the cases by their words.
    Switch(Width, Operand, u32, Items<(u64, u32)>),
    /// The value, if the function has one.
    Ret(Option<Operand>),
    /// A trap.
    Unreachable,
}

impl Same for Operand {
    fn same(&self, other: &Operand) -> bool {
        *self == *other
    }
}

impl Same for Callee {
    fn same(&self, other: &Callee) -> bool {
        *self == *other
    }
}

impl Same for Instr {
    fn same(&self, other: &Instr) -> bool {
        self == other
    }
}
