//! Names.
ghost use Rattle.std.specs.Prelude.{◌≡◌, IfOk};

use am_base::OutOfMemory;
use am_lists::{Bytes, Same, TryClone};
use std::alloc::{AllocError, Global};

/// The name of a local, global, label or type, without the `%` or `@` before it or the `:` behind
/// it. LLVM Language Reference, "Identifiers".
///
/// A name that is a number isn't the name that is the same digits in quotes.
#[derive(Debug, PartialEq, Eq, Hash, Drop)]
pub enum Name {
    /// The bytes that the name stands for.
    Text(Bytes),
    /// A run of digits alone, by its value.
    Number(u32),
}

impl Name {
    /// An equal name.
    pub fn copy(&self, alloc: Global) -> Result<Name, OutOfMemory>
        ensures { IfOk result (λ name. name ≡ self.now) }
    {
        Ok(self.try_clone(alloc)?)
    }
}

impl TryClone for Name {
    fn try_clone(&self, alloc: Global) -> Result<Name, AllocError> {
        match self {
            Name::Text(bytes) => Ok(Name::Text(bytes.copy(alloc)?)),
            Name::Number(n) => Ok(Name::Number(*n)),
        }
    }
}

impl Same for Name {
    fn same(&self, other: &Name) -> bool {
        self == other
    }
}
