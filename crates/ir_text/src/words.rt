//! The words of widths, operations, conversions and predicates.
ghost use Rattle.ir_text.specs.Spelling as spec;
ghost use Rattle.std.specs.Prelude.{◌≡◌};

use am_base::{BinOp, Cast, Pred, Width};

/// The word of the integer type of this width.
pub fn width_word(width: Width) -> &'static [u8]
    ensures { result.now ≡ spec.width_word width }
{
    match width {
        Width::W1 => b"i1",
        Width::W8 => b"i8",
        Width::W16 => b"i16",
        Width::W32 => b"i32",
        Width::W64 => b"i64",
    }
}

/// The word of a binary operation.
pub fn binary_word(op: BinOp) -> &'static [u8]
    ensures { result.now ≡ spec.binary_word op }
{
    match op {
        BinOp::Add => b"add",
        BinOp::Sub => b"sub",
        BinOp::Mul => b"mul",
        BinOp::UDiv => b"udiv",
        BinOp::SDiv => b"sdiv",
        BinOp::URem => b"urem",
        BinOp::SRem => b"srem",
        BinOp::Shl => b"shl",
        BinOp::LShr => b"lshr",
        BinOp::AShr => b"ashr",
        BinOp::And => b"and",
        BinOp::Or => b"or",
        BinOp::Xor => b"xor",
    }
}

/// The word of a conversion.
pub fn cast_word(cast: Cast) -> &'static [u8]
    ensures { result.now ≡ spec.cast_word cast }
{
    match cast {
        Cast::Trunc => b"trunc",
        Cast::ZExt => b"zext",
        Cast::SExt => b"sext",
        Cast::PtrToInt => b"ptrtoint",
        Cast::IntToPtr => b"inttoptr",
    }
}

/// The word of a predicate of `icmp`.
pub fn predicate_word(pred: Pred) -> &'static [u8]
    ensures { result.now ≡ spec.predicate_word pred }
{
    match pred {
        Pred::Eq => b"eq",
        Pred::Ne => b"ne",
        Pred::Ugt => b"ugt",
        Pred::Uge => b"uge",
        Pred::Ult => b"ult",
        Pred::Ule => b"ule",
        Pred::Sgt => b"sgt",
        Pred::Sge => b"sge",
        Pred::Slt => b"slt",
        Pred::Sle => b"sle",
    }
}
