//! Equality of words' forms, endings and outcomes.

use crate::outcome::{Ending, Outcome, Trap};
use crate::word::{BinOp, Cast, Pred, Width};
use am_lists::Same;

impl Same for Width {
    fn same(&self, other: &Width) -> bool {
        *self == *other
    }
}

impl Same for BinOp {
    fn same(&self, other: &BinOp) -> bool {
        *self == *other
    }
}

impl Same for Pred {
    fn same(&self, other: &Pred) -> bool {
        *self == *other
    }
}

impl Same for Cast {
    fn same(&self, other: &Cast) -> bool {
        *self == *other
    }
}

impl Same for Trap {
    fn same(&self, other: &Trap) -> bool {
        *self == *other
    }
}

impl Same for Ending {
    fn same(&self, other: &Ending) -> bool {
        *self == *other
    }
}

impl Same for Outcome {
    fn same(&self, other: &Outcome) -> bool {
        if !self.ending.same(&other.ending) {
            return false;
        }
        self.output.same(&other.output)
    }
}
