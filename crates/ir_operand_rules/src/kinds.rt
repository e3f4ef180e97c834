//! Tests of the integers and pointers that types stand for.
ghost use Rattle.std.specs.Prelude.{◌≡◌};
ghost use Rattle.ir_rules.specs.Operands as spec;

use am_base::Width;
use code_form::TyScalar;
use ir_scopes::same_scalar;

/// Whether a type is a pointer, where an integer is needed.
pub fn no_integer(t: Option<TyScalar>) -> bool
    ensures { result ≡ spec.no_integer t }
{
    matches!(t, Some(TyScalar::Ptr))
}

/// Whether a type is an integer or a pointer other than `t`.
pub fn not_of(t: TyScalar, u: Option<TyScalar>) -> bool
    ensures { result ≡ spec.not_of t u }
{
    match u {
        None => false,
        Some(u) => !same_scalar(t, u),
    }
}

/// Whether a type is an integer, where a pointer is needed.
pub fn no_pointer(t: Option<TyScalar>) -> bool
    ensures { result ≡ spec.no_pointer t }
{
    not_of(TyScalar::Ptr, t)
}

/// Whether a type is a pointer or an integer other than `i1`, which a condition is.
pub fn no_condition(t: Option<TyScalar>) -> bool
    ensures { result ≡ spec.no_condition t }
{
    not_of(TyScalar::Int(Width::W1), t)
}

/// Whether a number is from -2^(w-1) to 2^w - 1.
fn fits(w: Width, n: i128) -> bool
    ensures { result ≡ spec.fits w n }
{
    match w {
        Width::W1 => -1 <= n && n < 2,
        Width::W8 => -128 <= n && n < 256,
        Width::W16 => -32_768 <= n && n < 65_536,
        Width::W32 => -2_147_483_648 <= n && n < 4_294_967_296,
        Width::W64 => -9_223_372_036_854_775_808 <= n && n < 18_446_744_073_709_551_616,
    }
}

/// Whether a number doesn't fit the width of a type that is an integer.
pub fn number_out(t: Option<TyScalar>, n: i128) -> bool
    ensures { result ≡ spec.number_out t n }
{
    match t {
        Some(TyScalar::Int(w)) => !fits(w, n),
        _ => false,
    }
}
