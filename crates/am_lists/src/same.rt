//! Equality by one trait, and equality of lists of what has it.

ghost use Rattle.std.specs.Prelude.{◌≡◌, ◌↔◌, IsTrue};

use crate::items::Items;

/// Equality in every part.
pub trait Same {
    /// Whether the two values are equal.
    fn same(&self, other: &Self) -> bool
        ensures { IsTrue result ↔ (self.now ≡ other.now) };
}

/// Whether the two lists are equal, element by element.
pub fn same_lists<T: Same>(xs: &[T], ys: &[T]) -> bool
    ensures { IsTrue result ↔ (xs.now ≡ ys.now) }
{
    if xs.len() != ys.len() {
        return false;
    }
    'each: for (i, x) in xs.iter().enumerate() {
        if !x.same(&ys[i]) {
            return false;
        }
    }
    true
}

impl<T: Same> Same for Items<T> {
    fn same(&self, other: &Items<T>) -> bool {
        same_lists(self.as_slice(), other.as_slice())
    }
}

impl<T: Same> Same for Option<T> {
    fn same(&self, other: &Option<T>) -> bool {
        match self {
            Some(x) => match other {
                Some(y) => x.same(y),
                None => false,
            },
            None => other.is_none(),
        }
    }
}

impl<A: Same, B: Same> Same for (A, B) {
    fn same(&self, other: &(A, B)) -> bool {
        if !self.0.same(&other.0) {
            return false;
        }
        self.1.same(&other.1)
    }
}

impl<A: Same, B: Same, C: Same> Same for (A, B, C) {
    fn same(&self, other: &(A, B, C)) -> bool {
        if !self.0.same(&other.0) || !self.1.same(&other.1) {
            return false;
        }
        self.2.same(&other.2)
    }
}

impl Same for bool {
    fn same(&self, other: &bool) -> bool {
        *self == *other
    }
}

impl Same for u8 {
    fn same(&self, other: &u8) -> bool {
        *self == *other
    }
}

impl Same for u32 {
    fn same(&self, other: &u32) -> bool {
        *self == *other
    }
}

impl Same for u64 {
    fn same(&self, other: &u64) -> bool {
        *self == *other
    }
}

impl Same for i128 {
    fn same(&self, other: &i128) -> bool {
        *self == *other
    }
}
