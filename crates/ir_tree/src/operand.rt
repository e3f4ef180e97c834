//! Operands and initialisers as they are written.
ghost use Rattle.std.specs.Prelude.{◌≡◌, ◌↔◌, IsTrue, IfOk};

use crate::copies::four;
use crate::name::Name;
use crate::type_text::TyText;
use am_base::OutOfMemory;
use am_lists::{Bytes, Items, Same, TryClone};
use sqlite_items::Boxed;
use std::alloc::{AllocError, Global};

/// An operand as it is written. LLVM Language Reference, "Constants" and "Identifiers".
#[derive(Drop)]
pub enum Opd {
    /// `%` and a name.
    Local(Name),
    /// `@` and a name.
    Global(Name),
    /// A decimal number.
    Number(i128),
    /// `true`.
    True,
    /// `false`.
    False,
    /// `null`.
    Null,
    /// `undef`.
    Undef,
    /// `poison`.
    Poison,
    /// `zeroinitializer`.
    Zero,
    /// A `getelementptr` constant: the type that the indices go into, the type of the base, the
    /// global that is the base, and each index with its type. It is boxed since it is rare and
    /// three times as long as any other operand.
    Get(Boxed<(TyText, TyText, Name, Items<(TyText, i128)>)>),
}

/// The initial value of a global, as it is written. LLVM Language Reference, "Global Variables"
/// and "Complex Constants".
#[derive(Drop)]
pub enum Init {
    /// A constant that is one operand.
    One(Opd),
    /// `c` and a quoted text, by the bytes that it denotes.
    Text(Bytes),
    /// The elements in `[ ]`, each with its type.
    Array(sqlite_items::Items<(TyText, Init)>),
    /// The fields in `{ }`, each with its type.
    Struct(sqlite_items::Items<(TyText, Init)>),
}

impl Opd {
    /// An equal operand.
    pub fn copy(&self, alloc: Global) -> Result<Opd, OutOfMemory>
        ensures { IfOk result (λ operand. operand ≡ self.now) }
    {
        Ok(self.try_clone(alloc)?)
    }
}

impl TryClone for Opd {
    fn try_clone(&self, alloc: Global) -> Result<Opd, AllocError> {
        match self {
            Opd::Local(name) => Ok(Opd::Local(name.try_clone(alloc)?)),
            Opd::Global(name) => Ok(Opd::Global(name.try_clone(alloc)?)),
            Opd::Number(n) => Ok(Opd::Number(*n)),
            Opd::True => Ok(Opd::True),
            Opd::False => Ok(Opd::False),
            Opd::Null => Ok(Opd::Null),
            Opd::Undef => Ok(Opd::Undef),
            Opd::Poison => Ok(Opd::Poison),
            Opd::Zero => Ok(Opd::Zero),
            Opd::Get(parts) => {
                let (of, base, name, indices) = parts.get();
                let copies = four(alloc, of, base, name, indices)?;
                Ok(Opd::Get(Boxed::new(alloc, copies)?))
            }
        }
    }
}

impl Same for Opd {
    fn same(&self, other: &Opd) -> bool {
        match (self, other) {
            (Opd::Local(a), Opd::Local(b)) | (Opd::Global(a), Opd::Global(b)) => a.same(b),
            (Opd::Number(a), Opd::Number(b)) => a == b,
            (Opd::True, Opd::True)
            | (Opd::False, Opd::False)
            | (Opd::Null, Opd::Null)
            | (Opd::Undef, Opd::Undef)
            | (Opd::Poison, Opd::Poison)
            | (Opd::Zero, Opd::Zero) => true,
            (Opd::Get(a), Opd::Get(b)) => same_constants(a.get(), b.get()),
            _ => false,
        }
    }
}

type Constant = (TyText, TyText, Name, Items<(TyText, i128)>);

fn same_constants(a: &Constant, b: &Constant) -> bool
    ensures { IsTrue result ↔ (a.now ≡ b.now) }
{
    a.0.same(&b.0) && a.1.same(&b.1) && a.2.same(&b.2) && a.3.same(&b.3)
}
