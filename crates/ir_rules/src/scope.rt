//! What the items of a function have defined so far.

use crate::local::Local;
use am_lists::Items;
use code_form::TyScalar;
use ir_names::NameTable;

/// What the items of a function, from its head on, have defined so far.
#[derive(Drop)]
pub struct Scope {
    /// What the names stand for, each by its first definition.
    pub table: NameTable<Local>,
    /// The types of the registers, `None` where one is no integer and no pointer.
    pub types: Items<Option<TyScalar>>,
    /// For each block how many instructions of the function stand before it.
    pub starts: Items<usize>,
    /// For each instruction the register of its value, from 0. `None` for one without a value.
    pub results: Items<Option<usize>>,
    /// The number that the next unnamed value gets; 2^32 where no name can be it.
    pub counter: u64,
    /// Whether the last block has a terminator.
    pub terminated: bool,
    /// Whether the last block has an instruction other than `phi`.
    pub mixed: bool,
    /// Whether the last item defined a name that was defined before, by an item before it or by
    /// itself.
    pub again: bool,
    /// Whether the last item wrote a number below the counter.
    pub low: bool,
}
