//! Copies by one trait, and copies of lists of what has it.

ghost use Rattle.std.specs.Prelude.{◌≡◌, IfOk};

use crate::items::Items;
use std::alloc::{AllocError, Global};

/// A copy that takes memory, so that it can be refused for want of it.
pub trait TryClone: Drop {
    /// Returns an equal value.
    fn try_clone(&self, alloc: Global) -> Result<Self, AllocError>
        ensures { IfOk result (λ copy. copy ≡ self.now) };
}

/// Returns an equal list, element by element.
pub fn try_clone_list<T: TryClone>(alloc: Global, items: &[T]) -> Result<Items<T>, AllocError>
    ensures { IfOk result (λ copies. copies ≡ items.now) }
{
    let mut copies = Items::new(alloc);
    'each: for item in items {
        copies.push(item.try_clone(alloc)?)?;
    }
    Ok(copies)
}

impl<T: TryClone> TryClone for Items<T> {
    fn try_clone(&self, alloc: Global) -> Result<Items<T>, AllocError> {
        try_clone_list(alloc, self.as_slice())
    }
}

impl<T: TryClone> TryClone for Option<T> {
    fn try_clone(&self, alloc: Global) -> Result<Option<T>, AllocError> {
        match self {
            Some(value) => Ok(Some(value.try_clone(alloc)?)),
            None => Ok(None),
        }
    }
}

impl<A: TryClone, B: TryClone> TryClone for (A, B) {
    fn try_clone(&self, alloc: Global) -> Result<(A, B), AllocError> {
        Ok((self.0.try_clone(alloc)?, self.1.try_clone(alloc)?))
    }
}

impl<A: TryClone, B: TryClone, C: TryClone> TryClone for (A, B, C) {
    fn try_clone(&self, alloc: Global) -> Result<(A, B, C), AllocError> {
        Ok((
            self.0.try_clone(alloc)?,
            self.1.try_clone(alloc)?,
            self.2.try_clone(alloc)?,
        ))
    }
}

impl TryClone for u8 {
    fn try_clone(&self, _alloc: Global) -> Result<u8, AllocError> {
        Ok(*self)
    }
}

impl TryClone for u32 {
    fn try_clone(&self, _alloc: Global) -> Result<u32, AllocError> {
        Ok(*self)
    }
}

impl TryClone for u64 {
    fn try_clone(&self, _alloc: Global) -> Result<u64, AllocError> {
        Ok(*self)
    }
}

impl TryClone for i128 {
    fn try_clone(&self, _alloc: Global) -> Result<i128, AllocError> {
        Ok(*self)
    }
}
