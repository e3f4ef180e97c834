//! Types as they are written.
ghost use Rattle.std.specs.Prelude.{◌≡◌, ◌↔◌, IsTrue, IfOk};

use crate::name::Name;
use am_base::{OutOfMemory, Width};
use am_lists::{Same, TryClone};
use sqlite_items::Boxed;
use std::alloc::{AllocError, Global};

/// A type as it is written. LLVM Language Reference, "Type System".
#[derive(Drop)]
pub enum TyText {
    /// `i1`, `i8`, `i16`, `i32` or `i64`.
    Int(Width),
    /// `ptr`.
    Ptr,
    /// `void`, only allowed as the type of a result.
    Void,
    /// The number of elements, and the type of each.
    Array(u64, Boxed<TyText>),
    /// The types of the fields in order.
    Struct(sqlite_items::Items<TyText>),
    /// The name of a type definition.
    Named(Name),
}

impl TyText {
    /// An equal type.
    pub fn copy(&self, alloc: Global) -> Result<TyText, OutOfMemory>
        ensures { IfOk result (λ ty. ty ≡ self.now) }
    {
        Ok(copy_type(alloc, self)?)
    }
}

impl TryClone for TyText {
    fn try_clone(&self, alloc: Global) -> Result<TyText, AllocError> {
        copy_type(alloc, self)
    }
}

impl Same for TyText {
    fn same(&self, other: &TyText) -> bool {
        same_type(self, other)
    }
}

// A type leads back to itself, and a cycle of calls can't go through a trait: so the two
// recursions are functions.

#[cycle(copy_type)]
fn copy_type(alloc: Global, ty: &TyText) -> Result<TyText, AllocError>
    ensures { IfOk result (λ copy. copy ≡ ty.now) }
{
    match ty {
        TyText::Int(w) => Ok(TyText::Int(*w)),
        TyText::Ptr => Ok(TyText::Ptr),
        TyText::Void => Ok(TyText::Void),
        TyText::Array(n, of) => {
            let of = copy_type(alloc, of.get())?;
            Ok(TyText::Array(*n, Boxed::new(alloc, of)?))
        }
        TyText::Struct(fields) => Ok(TyText::Struct(copy_types(alloc, fields.as_slice())?)),
        TyText::Named(name) => Ok(TyText::Named(name.try_clone(alloc)?)),
    }
}

#[cycle(copy_type)]
fn copy_types(alloc: Global, types: &[TyText]) -> Result<sqlite_items::Items<TyText>, AllocError>
    ensures { IfOk result (λ copies. copies ≡ types.now) }
{
    let mut copies = sqlite_items::Items::new(alloc);
    'each: for ty in types {
        copies.push(copy_type(alloc, ty)?)?;
    }
    Ok(copies)
}

#[cycle(same_type)]
fn same_type(a: &TyText, b: &TyText) -> bool
    ensures { IsTrue result ↔ (a.now ≡ b.now) }
{
    match (a, b) {
        (TyText::Int(a), TyText::Int(b)) => a == b,
        (TyText::Ptr, TyText::Ptr) | (TyText::Void, TyText::Void) => true,
        (TyText::Array(n, of), TyText::Array(m, to)) => n == m && same_type(of.get(), to.get()),
        (TyText::Struct(fields), TyText::Struct(others)) => {
            same_types(fields.as_slice(), others.as_slice())
        }
        (TyText::Named(a), TyText::Named(b)) => a.same(b),
        _ => false,
    }
}

#[cycle(same_type)]
fn same_types(a: &[TyText], b: &[TyText]) -> bool
    ensures { IsTrue result ↔ (a.now ≡ b.now) }
{
    if a.len() != b.len() {
        return false;
    }
    'each: for (i, ty) in a.iter().enumerate() {
        if !same_type(ty, &b[i]) {
            return false;
        }
    }
    true
}
