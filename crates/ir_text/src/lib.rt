//! The canonical text of a module.
#![tactic(auto)]

mod canonical;
mod inits;
mod items;
mod laws;
mod lists;
mod operands;
mod ops;
mod sheet;
mod spelling;
mod types;
mod words;

pub use canonical::{print, print_instruction};
pub use ir_tree::{Init, Item, Module, Name, Op, Opd, TyText};
pub use laws::{
    canon_reads_back, instruction_lines, made_instructions, parts_read_back, plain_names,
};
