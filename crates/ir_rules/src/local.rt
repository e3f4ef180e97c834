//! What a local name of a function stands for.

use code_form::TyScalar;

/// What a local name of a function stands for.
#[derive(Clone, Copy)]
pub enum Local {
    /// A parameter, or the result of an instruction with a value: its type, `None` where that is
    /// no integer and no pointer, and its register, from 0.
    Value(Option<TyScalar>, usize),
    /// The written result of an instruction without a value.
    NoType,
    /// A block, by its number in the function, from 0.
    Block(usize),
}
