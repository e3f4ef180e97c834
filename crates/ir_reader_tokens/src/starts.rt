//! Which part of an item a token starts, by its kind and its spelling.
ghost use Rattle.ir_grammar.specs.Starts as spec;
ghost use Rattle.ir_grammar.specs.Words as words;
ghost use Rattle.ir_grammar.specs.declared.starts.OpStart.TheVariants as start;
ghost use Rattle.std.specs.Prelude.{◌≡◌};

use am_base::{BinOp, Cast, Width};
use ir_grammar::{FlagStart, ItemStart, OpStart, OperandStart, TypeStart};
use ir_tokens::TokenKind;

#[tactic(auto, unfolding(ir_grammar::specs::Starts::type_word))]
pub fn type_word(word: &[u8]) -> TypeStart
    ensures { result ≡ spec.type_word word.now }
{
    if word == b"i1".as_slice() {
        TypeStart::Int(Width::W1)
    } else if word == b"i8".as_slice() {
        TypeStart::Int(Width::W8)
    } else if word == b"i16".as_slice() {
        TypeStart::Int(Width::W16)
    } else if word == b"i32".as_slice() {
        TypeStart::Int(Width::W32)
    } else if word == b"i64".as_slice() {
        TypeStart::Int(Width::W64)
    } else if word == b"ptr".as_slice() {
        TypeStart::Ptr
    } else {
        TypeStart::Nothing
    }
}

fn type_sign(sign: u8) -> TypeStart
    ensures { result ≡ spec.type_sign sign }
{
    match sign {
        b'[' => TypeStart::Square,
        b'{' => TypeStart::Curly,
        _ => TypeStart::Nothing,
    }
}

/// The form of type that a token starts, by the kind and the spelling of the token.
pub fn type_at(kind: Option<TokenKind>, text: &[u8]) -> TypeStart
    ensures { result ≡ spec.type_at kind text.now }
{
    match kind {
        Some(TokenKind::Word) => type_word(text),
        Some(TokenKind::Sign(sign)) => type_sign(sign),
        Some(TokenKind::Local) => TypeStart::Named,
        _ => TypeStart::Nothing,
    }
}

/// Whether it starts a type.
pub fn is_type(start: TypeStart) -> bool
    ensures { result ≡ spec.is_type start }
{
    !matches!(start, TypeStart::Nothing)
}

#[tactic(auto, unfolding(ir_grammar::specs::Starts::flag_word))]
fn flag_word(word: &[u8]) -> FlagStart
    ensures { result ≡ spec.flag_word word.now }
{
    if word == b"inbounds".as_slice() {
        FlagStart::Plain
    } else if word == b"nusw".as_slice() {
        FlagStart::Plain
    } else if word == b"nuw".as_slice() {
        FlagStart::Plain
    } else if word == b"inrange".as_slice() {
        FlagStart::InRange
    } else {
        FlagStart::Nothing
    }
}

/// The flag of `getelementptr` that a token starts, by the kind and the spelling of the token.
pub fn flag_at(kind: Option<TokenKind>, text: &[u8]) -> FlagStart
    ensures { result ≡ spec.flag_at kind text.now }
{
    match kind {
        Some(TokenKind::Word) => flag_word(text),
        _ => FlagStart::Nothing,
    }
}

/// Whether it starts a flag of `getelementptr`.
pub fn is_flag(start: FlagStart) -> bool
    ensures { result ≡ spec.is_flag start }
{
    !matches!(start, FlagStart::Nothing)
}

// Operands.

#[tactic(auto, unfolding(ir_grammar::specs::Starts::operand_word))]
fn operand_word(word: &[u8]) -> OperandStart
    ensures { result ≡ spec.operand_word word.now }
{
    if word == b"true".as_slice() {
        OperandStart::True
    } else if word == b"false".as_slice() {
        OperandStart::False
    } else if word == b"null".as_slice() {
        OperandStart::Null
    } else if word == b"undef".as_slice() {
        OperandStart::Undef
    } else if word == b"poison".as_slice() {
        OperandStart::Poison
    } else if word == b"zeroinitializer".as_slice() {
        OperandStart::Zero
    } else if word == b"getelementptr".as_slice() {
        OperandStart::Get
    } else {
        OperandStart::Nothing
    }
}

/// The form of operand that a token starts, by the kind and the spelling of the token.
pub fn operand_at(kind: Option<TokenKind>, text: &[u8]) -> OperandStart
    ensures { result ≡ spec.operand_at kind text.now }
{
    match kind {
        Some(TokenKind::Local) => OperandStart::Local,
        Some(TokenKind::Global) => OperandStart::Global,
        Some(TokenKind::Number) => OperandStart::Number,
        Some(TokenKind::Word) => operand_word(text),
        _ => OperandStart::Nothing,
    }
}

// Instructions. Each table returns `other` if the word isn't in it.

fn arithmetic_word(word: &[u8], other: OpStart) -> OpStart
    ensures { result ≡ words.meaning spec.arithmetic_words other word.now }
{
    if word == b"add".as_slice() {
        OpStart::Bin(BinOp::Add)
    } else if word == b"sub".as_slice() {
        OpStart::Bin(BinOp::Sub)
    } else if word == b"mul".as_slice() {
        OpStart::Bin(BinOp::Mul)
    } else if word == b"udiv".as_slice() {
        OpStart::Bin(BinOp::UDiv)
    } else if word == b"sdiv".as_slice() {
        OpStart::Bin(BinOp::SDiv)
    } else if word == b"urem".as_slice() {
        OpStart::Bin(BinOp::URem)
    } else if word == b"srem".as_slice() {
        OpStart::Bin(BinOp::SRem)
    } else if word == b"shl".as_slice() {
        OpStart::Bin(BinOp::Shl)
    } else if word == b"lshr".as_slice() {
        OpStart::Bin(BinOp::LShr)
    } else if word == b"ashr".as_slice() {
        OpStart::Bin(BinOp::AShr)
    } else if word == b"and".as_slice() {
        OpStart::Bin(BinOp::And)
    } else if word == b"or".as_slice() {
        OpStart::Bin(BinOp::Or)
    } else if word == b"xor".as_slice() {
        OpStart::Bin(BinOp::Xor)
    } else {
        other
    }
}

fn value_word(word: &[u8], other: OpStart) -> OpStart
    ensures { result ≡ words.meaning spec.value_words other word.now }
{
    if word == b"icmp".as_slice() {
        OpStart::Cmp
    } else if word == b"select".as_slice() {
        OpStart::Select
    } else if word == b"trunc".as_slice() {
        OpStart::Cast(Cast::Trunc)
    } else if word == b"zext".as_slice() {
        OpStart::Cast(Cast::ZExt)
    } else if word == b"sext".as_slice() {
        OpStart::Cast(Cast::SExt)
    } else if word == b"ptrtoint".as_slice() {
        OpStart::Cast(Cast::PtrToInt)
    } else if word == b"inttoptr".as_slice() {
        OpStart::Cast(Cast::IntToPtr)
    } else if word == b"freeze".as_slice() {
        OpStart::Freeze
    } else {
        other
    }
}

fn memory_word(word: &[u8], other: OpStart) -> OpStart
    ensures { result ≡ words.meaning spec.memory_words other word.now }
{
    if word == b"alloca".as_slice() {
        OpStart::Alloca
    } else if word == b"load".as_slice() {
        OpStart::Load
    } else if word == b"store".as_slice() {
        OpStart::Store
    } else if word == b"getelementptr".as_slice() {
        OpStart::Get
    } else {
        other
    }
}

fn control_word(word: &[u8]) -> OpStart
    ensures { result ≡ words.meaning spec.control_words start.Nothing word.now }
{
    if word == b"phi".as_slice() {
        OpStart::Phi
    } else if word == b"tail".as_slice() {
        OpStart::TailCall
    } else if word == b"musttail".as_slice() {
        OpStart::TailCall
    } else if word == b"notail".as_slice() {
        OpStart::TailCall
    } else if word == b"call".as_slice() {
        OpStart::Call
    } else if word == b"br".as_slice() {
        OpStart::Branch
    } else if word == b"switch".as_slice() {
        OpStart::Switch
    } else if word == b"ret".as_slice() {
        OpStart::Ret
    } else if word == b"unreachable".as_slice() {
        OpStart::Unreachable
    } else {
        OpStart::Nothing
    }
}

/// The instruction that a word starts.
#[tactic(auto, using(crate::proofs::OpWords::op_word_parts))]
pub fn op_word(word: &[u8]) -> OpStart
    ensures { result ≡ spec.op_word word.now }
{
    let memory = memory_word(word, control_word(word));
    arithmetic_word(word, value_word(word, memory))
}

/// The instruction that a token starts, by the kind and the spelling of the token.
pub fn op_at(kind: Option<TokenKind>, text: &[u8]) -> OpStart
    ensures { result ≡ spec.op_at kind text.now }
{
    match kind {
        Some(TokenKind::Word) => op_word(text),
        _ => OpStart::Nothing,
    }
}

/// Whether it starts an instruction.
pub fn is_op(start: OpStart) -> bool
    ensures { result ≡ spec.is_op start }
{
    !matches!(start, OpStart::Nothing)
}

/// The item that a word starts.
#[tactic(auto, unfolding(ir_grammar::specs::Starts::item_word))]
fn item_word(word: &[u8]) -> ItemStart
    ensures { result ≡ spec.item_word word.now }
{
    if word == b"source_filename".as_slice() {
        ItemStart::Source
    } else if word == b"target".as_slice() {
        ItemStart::Target
    } else if word == b"attributes".as_slice() {
        ItemStart::Attributes
    } else if word == b"declare".as_slice() {
        ItemStart::Declare
    } else if word == b"define".as_slice() {
        ItemStart::Define
    } else {
        ItemStart::Other
    }
}

/// The item that a token starts, by the kind and the spelling of the token.
pub fn item_at(kind: Option<TokenKind>, text: &[u8]) -> ItemStart
    ensures { result ≡ spec.item_at kind text.now }
{
    match kind {
        Some(TokenKind::Word) => item_word(text),
        Some(TokenKind::Meta) => ItemStart::Meta,
        Some(TokenKind::Local) => ItemStart::Local,
        Some(TokenKind::Global) => ItemStart::Global,
        Some(TokenKind::Label) => ItemStart::Label,
        Some(TokenKind::Sign(b'}')) => ItemStart::End,
        _ => ItemStart::Other,
    }
}
