//! The code of a module: functions, blocks, instructions and the opening bytes.

use crate::instr::Instr;
use crate::sign::PortSign;
use am_base::Width;
use am_lists::{Bytes, Items};

/// The number of an instruction in text order over the whole module, from 0, `phi` included.
#[derive(Clone, Copy, Debug, PartialEq, Eq)]
pub struct Place(pub u32);

/// The type of a register: an integer or a pointer.
#[derive(Clone, Copy, Debug, PartialEq, Eq)]
pub enum TyScalar {
    Int(Width),
    Ptr,
}

/// A basic block: its first place and its number of instructions.
#[derive(Clone, Copy, Debug, PartialEq, Eq)]
pub struct Block {
    pub first: u32,
    pub len: u32,
}

/// A defined function. Its registers are numbered from 0: the parameters, then the instructions
/// with a value in text order.
#[derive(Debug, Drop, PartialEq, Eq)]
pub struct Func {
    /// The bytes of the name, without `@`.
    pub name: Bytes,
    pub params: Items<TyScalar>,
    pub result: Option<TyScalar>,
    /// The number of registers.
    pub registers: u32,
    /// The type of each register.
    pub types: Items<TyScalar>,
    pub blocks: Items<Block>,
}

/// The code of a module.
#[derive(Debug, Drop, PartialEq, Eq)]
pub struct Code {
    pub funcs: Items<Func>,
    /// The instructions of all functions, by place.
    pub instrs: Items<Instr>,
    /// For each place the register that its instruction writes, if it has a value.
    pub results: Items<Option<u32>>,
    /// The opening bytes from address 0 to below `stack_base`; all later ones are 0.
    pub memory: Bytes,
    /// The byte address where the constant globals end, which begin at `FIRST_ADDRESS`. Padding
    /// between them is constant too.
    pub const_end: u32,
    /// The byte address of the stack top at the start of a run.
    pub stack_base: u32,
    /// The ports that the code may call.
    pub signs: Items<PortSign>,
}
