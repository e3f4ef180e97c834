//! Which definitions contain themselves.
ghost use Rattle.std.specs.Prelude.{◌≡◌, ℕ, false, length, slice_get, unwrap_or, IfOk};
ghost use Rattle.ir_types.specs.Graph.{reaches, AreGrounded};

use crate::flags::{filled, held, set_flag, some_left};
use crate::walk::{named_by, reaches_itself};
use am_base::OutOfMemory;
use am_lists::Items;
use std::alloc::Global;

/// Grounds a definition if all that it names are grounded.
fn ground(edges: &[Items<usize>], grounded: &mut Items<bool>, d: usize)
    requires { AreGrounded edges.now grounded.old }
    ensures { AreGrounded edges.now grounded.new }
{
    if !some_left(grounded.as_slice(), named_by(edges, d)) {
        set_flag(grounded, d);
    }
}

/// Returns for each definition whether it is grounded: no way from it leads to a definition that
/// leads to itself. In which order the definitions come decides how many are found.
fn grounded_of(
    alloc: Global,
    edges: &[Items<usize>],
    order: &[usize],
) -> Result<Items<bool>, OutOfMemory>
    ensures { IfOk result (λ grounded. AreGrounded edges.now grounded) }
{
    let mut grounded = filled(alloc, edges.len(), false)?;
    'each: for d in order {
        ground(edges, &mut grounded, *d);
    }
    Ok(grounded)
}

/// Whether a definition leads to itself.
fn leads_back(
    alloc: Global,
    edges: &[Items<usize>],
    grounded: &Items<bool>,
    d: usize,
) -> Result<bool, OutOfMemory>
    requires { AreGrounded edges.now grounded.now }
    ensures { IfOk result (λ b. b ≡ reaches edges.now (length edges.now) d d) }
{
    if held(grounded.as_slice(), d) {
        Ok(false)
    } else {
        reaches_itself(alloc, edges, grounded, d)
    }
}

/// Returns for each definition whether it leads to itself: by one walk along all of them, and by
/// a walk along the others for each that isn't grounded.
pub fn recursive_of(
    alloc: Global,
    edges: &[Items<usize>],
    order: &[usize],
) -> Result<Items<bool>, OutOfMemory>
    ensures long { IfOk result (λ flags. length flags ≡ length edges.now) }
    ensures exact { IfOk result (λ flags. (d : ℕ)
        → unwrap_or (slice_get flags d) false ≡ reaches edges.now (length edges.now) d d) }
{
    let grounded = grounded_of(alloc, edges, order)?;
    let mut flags = Items::new(alloc);
    'each: for d in 0..edges.len() {
        flags.push(leads_back(alloc, edges, &grounded, d)?)?;
    }
    Ok(flags)
}
