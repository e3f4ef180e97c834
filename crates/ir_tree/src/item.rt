//! Items of a module.
use crate::name::Name;
use crate::op::Op;
use crate::operand::Init;
use crate::type_text::TyText;
use am_lists::Items;
use sqlite_items::Boxed;

/// An item of a module's text: what is usually one line. Words that are skipped, flags,
/// alignments, sections and metadata leave no trace here.
///
/// LLVM Language Reference, "Module Structure" and "Functions". That a function is a head, labels,
/// instructions and an end, each an item by itself, is this project's own.
#[derive(Drop)]
pub enum Item {
    /// A definition of a type: its name and what it is.
    TypeDef(Name, TyText),
    /// A global: its name, whether it is constant, its type and what it begins with.
    Global(Name, bool, TyText, Init),
    /// A declared function: its name, the type of its result and those of its parameters.
    Declare(Name, TyText, Items<TyText>),
    /// Where a function is defined: its name, the type of its result, and each parameter by its
    /// type and its name where it has one.
    Head(Name, TyText, Items<(TyText, Option<Name>)>),
    /// The label of a block.
    Label(Name),
    /// An instruction, and the local that is its result where one is written. The instruction is
    /// boxed, so that a label is short.
    Instr(Option<Name>, Boxed<Op>),
    /// Where a function ends.
    End,
}

/// A module: its items in the order of the text.
#[derive(Drop)]
pub struct Module {
    pub items: Items<Item>,
}
