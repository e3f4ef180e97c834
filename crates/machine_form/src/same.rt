//! Equality of changes.
use crate::change::{Change, Control};
use am_lists::{Same, same_lists};

impl Same for Control {
    fn same(&self, other: &Control) -> bool {
        *self == *other
    }
}

impl Same for Change {
    fn same(&self, other: &Change) -> bool {
        if !same_lists(self.writes.as_slice(), other.writes.as_slice()) {
            return false;
        }
        if !same_lists(self.bytes.as_slice(), other.bytes.as_slice()) {
            return false;
        }
        if !self.control.same(&other.control) || !self.put.same(&other.put) {
            return false;
        }
        self.top == other.top && self.took == other.took
    }
}
