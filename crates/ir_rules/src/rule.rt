//! The rules by name, and the first fault of a module.

/// A rule that a module has to keep. The least rule that an item breaks is the first in this order.
///
/// The rules are this project's own; where they ask for types they follow the LLVM Language
/// Reference, "Instruction Reference".
#[derive(Debug, Clone, Copy, PartialEq, Eq)]
pub enum Rule {
    /// The item defines a name that is defined before in its space, or one name twice.
    DoubleName,
    /// A parameter, label or result is a written number below the counter of unnamed values.
    NumberOrder,
    /// A type names no type definition.
    UnknownType,
    /// A type definition contains itself.
    RecursiveType,
    /// A type, or a type inside it, is larger than the memory.
    TypeTooLarge,
    /// `void`, an array or a struct stands where an integer or a pointer is needed.
    ScalarWanted,
    /// An operand or an initialiser names no value of the function and no global.
    UnknownName,
    /// An operand isn't of the type written before it, or a type isn't the one that the instruction
    /// takes.
    TypeDiffers,
    /// A number doesn't fit the width of its type.
    LiteralRange,
    /// A label is no block of the function.
    UnknownLabel,
    /// A `phi` stands in the first block, or after another instruction of its block.
    PhiPlace,
    /// The labels of a `phi` aren't the blocks that branch to its block, or two entries of one
    /// label differ.
    PhiEntries,
    /// A block has no terminator, an instruction follows a terminator, or a function has no block.
    BlockOpen,
    /// The callee is neither defined, nor declared and an outside function or port.
    UnknownCallee,
    /// A call differs from its callee's signature.
    CallDiffers,
    /// A `ret` isn't of its function's type.
    ReturnDiffers,
    /// A case of a `switch` isn't a number of the value's type, or two cases are equal.
    SwitchCase,
    /// An index of a `getelementptr` has nothing to go into.
    GetPath,
    /// A result is written on an instruction without a value, or none on one with a value other
    /// than `call`.
    ResultName,
    /// An initialiser doesn't fit its type.
    InitDiffers,
    /// A branch goes to the first block.
    EntryTarget,
    /// A `trunc` doesn't narrow, or a `zext` or `sext` doesn't widen.
    CastWidth,
    /// A declaration of an outside function or port has another signature.
    DeclareDiffers,
    /// The item passes a limit.
    Limit,
}

/// The first item that breaks a rule, and the least rule that it breaks.
#[derive(Debug, Clone, Copy, PartialEq, Eq)]
pub struct Fault {
    /// The item's number in text order, from 0.
    pub item: usize,
    pub rule: Rule,
}
