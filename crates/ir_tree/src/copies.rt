//! Copies of several parts at once.
ghost use Rattle.std.specs.Prelude.{◌≡◌, IfOk};

use am_lists::TryClone;
use std::alloc::{AllocError, Global};

/// Equal copies of two parts.
pub fn two<A: TryClone, B: TryClone>(alloc: Global, a: &A, b: &B) -> Result<(A, B), AllocError>
    ensures { IfOk result (λ copies. copies ≡ (a.now, b.now)) }
{
    Ok((a.try_clone(alloc)?, b.try_clone(alloc)?))
}

/// Equal copies of three parts.
pub fn three<A: TryClone, B: TryClone, C: TryClone>(
    alloc: Global,
    a: &A,
    b: &B,
    c: &C,
) -> Result<(A, B, C), AllocError>
    ensures { IfOk result (λ copies. copies ≡ (a.now, b.now, c.now)) }
{
    Ok((
        a.try_clone(alloc)?,
        b.try_clone(alloc)?,
        c.try_clone(alloc)?,
    ))
}

/// Equal copies of four parts.
pub fn four<A: TryClone, B: TryClone, C: TryClone, D: TryClone>(
    alloc: Global,
    a: &A,
    b: &B,
    c: &C,
    d: &D,
) -> Result<(A, B, C, D), AllocError>
    ensures { IfOk result (λ copies. copies ≡ (a.now, b.now, c.now, d.now)) }
{
    let (a, b) = two(alloc, a, b)?;
    let (c, d) = two(alloc, c, d)?;
    Ok((a, b, c, d))
}
