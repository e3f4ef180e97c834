//! Which part of an item a token starts.
use am_base::{BinOp, Cast, Width};

/// The role of a token among brackets. An opening bracket has the sign that closes it.
#[derive(Clone, Copy, Debug, PartialEq, Eq)]
pub enum Bracket {
    Opens(u8),
    Closes(u8),
    Other,
}

/// The forms of types, by the first token.
#[derive(Clone, Copy, Debug, PartialEq, Eq)]
pub enum TypeStart {
    /// `i1`, `i8`, `i16`, `i32` or `i64`.
    Int(Width),
    /// `ptr`.
    Ptr,
    /// `[`.
    Square,
    /// `{`.
    Curly,
    /// A Local.
    Named,
    /// The token starts no type.
    Nothing,
}

/// The forms of operands, by the first token.
#[derive(Clone, Copy, Debug, PartialEq, Eq)]
pub enum OperandStart {
    Local,
    Global,
    Number,
    True,
    False,
    Null,
    Undef,
    Poison,
    Zero,
    /// `getelementptr`.
    Get,
    /// The token starts no operand.
    Nothing,
}

/// The skipped parts, by the first token.
#[derive(Clone, Copy, Debug, PartialEq, Eq)]
pub enum SkipStart {
    /// An attribute word.
    Attribute,
    /// `align`.
    Align,
    Quoted,
    Hash,
    /// `!` and a run, skipped only in the head of a function.
    Meta,
    /// The token starts no skipped part.
    Nothing,
}

/// The flags of `getelementptr`, by the first token.
#[derive(Clone, Copy, Debug, PartialEq, Eq)]
pub enum FlagStart {
    /// `inbounds`, `nusw` or `nuw`.
    Plain,
    /// `inrange`, and a group after it.
    InRange,
    /// The token starts no such flag.
    Nothing,
}

/// The parts after an instruction or a global, by the first two tokens.
#[derive(Clone, Copy, Debug, PartialEq, Eq)]
pub enum TailStart {
    /// `,` and `align`.
    Align,
    /// `,` and `section`.
    Section,
    /// `,` and a Meta.
    Meta,
    /// A Hash.
    Hash,
    /// The tokens start no such part.
    Nothing,
}

/// The instructions without a result, by the first token.
#[derive(Clone, Copy, Debug, PartialEq, Eq)]
pub enum OpStart {
    Bin(BinOp),
    Cmp,
    Select,
    Cast(Cast),
    Freeze,
    Alloca,
    Load,
    Store,
    /// `getelementptr`.
    Get,
    Phi,
    /// `tail`, `musttail` or `notail`, and `call` after it.
    TailCall,
    Call,
    /// `br`.
    Branch,
    Switch,
    Ret,
    Unreachable,
    /// The token starts no instruction.
    Nothing,
}

/// The items, by the first token.
#[derive(Clone, Copy, Debug, PartialEq, Eq)]
pub enum ItemStart {
    /// `source_filename`.
    Source,
    /// `target`.
    Target,
    /// `attributes`.
    Attributes,
    Meta,
    /// A Local: a type definition, or an instruction with its result.
    Local,
    Global,
    /// `declare`.
    Declare,
    /// `define`.
    Define,
    Label,
    /// `}`.
    End,
    /// Any other token: an instruction without a result, or nothing.
    Other,
}
