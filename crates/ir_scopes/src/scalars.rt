//! Equality of the integers and pointers that types stand for, and of signatures.
ghost use Rattle.std.specs.Prelude.{◌≡◌};
ghost use Rattle.ir_rules.specs.Types as types;
ghost use Rattle.ir_rules.specs.Entities as entities;
ghost use Rattle.ir_rules.specs.Calls as calls;

use am_base::Width;
use code_form::TyScalar;
use ir_rules::Signature;

fn same_width(v: Width, w: Width) -> bool
    ensures { result ≡ types.same_width v w }
{
    match (v, w) {
        (Width::W1, Width::W1) => true,
        (Width::W8, Width::W8) => true,
        (Width::W16, Width::W16) => true,
        (Width::W32, Width::W32) => true,
        (Width::W64, Width::W64) => true,
        _ => false,
    }
}

/// Whether two types are one integer type, or both are pointers.
pub fn same_scalar(t: TyScalar, u: TyScalar) -> bool
    ensures { result ≡ types.same_scalar t u }
{
    match (t, u) {
        (TyScalar::Int(v), TyScalar::Int(w)) => same_width(v, w),
        (TyScalar::Ptr, TyScalar::Ptr) => true,
        _ => false,
    }
}

/// Whether two types are one integer type, both are pointers, or both are neither.
pub fn same_kind(t: Option<TyScalar>, u: Option<TyScalar>) -> bool
    ensures { result ≡ types.same_kind t u }
{
    match (t, u) {
        (None, None) => true,
        (Some(t), Some(u)) => same_scalar(t, u),
        _ => false,
    }
}

/// Whether two types of results are one. `None` is `void`.
pub fn same_result(t: Option<Option<TyScalar>>, u: Option<Option<TyScalar>>) -> bool
    ensures { result ≡ entities.same_result t u }
{
    match (t, u) {
        (None, None) => true,
        (Some(t), Some(u)) => same_kind(t, u),
        _ => false,
    }
}

fn same_kinds(ts: &[Option<TyScalar>], us: &[Option<TyScalar>]) -> bool
    ensures { result ≡ entities.same_kinds ts.now us.now }
{
    if ts.len() != us.len() {
        return false;
    }
    'each: for (i, t) in ts.iter().enumerate() {
        if !same_kind(*t, us[i]) {
            return false;
        }
    }
    true
}

/// Whether two signatures have the same types of parameters and the same type of result.
pub fn same_signature(a: &Signature, b: &Signature) -> bool
    ensures { result ≡ calls.same_signature a.now b.now }
{
    same_kinds(a.params.as_slice(), b.params.as_slice()) && same_result(a.result, b.result)
}
