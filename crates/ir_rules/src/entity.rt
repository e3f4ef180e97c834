//! What a global name of a module stands for.

use am_lists::Items;
use code_form::TyScalar;

/// The types of a function's parameters and of its result. A type that is no integer and no pointer
/// is `None`.
#[derive(Drop)]
pub struct Signature {
    pub params: Items<Option<TyScalar>>,
    /// `None` for `void`.
    pub result: Option<Option<TyScalar>>,
}

/// What a global name of a module stands for.
#[derive(Drop)]
pub enum Entity {
    /// A global variable, constant or not.
    Variable,
    /// A declared function.
    Declared(Signature),
    /// A defined function, by its number in text order, from 0.
    Defined(usize, Signature),
}
