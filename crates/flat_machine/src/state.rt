//! The states that the machine gives out.
use flat_state::Flat;

/// A state that a `FlatMachine` gave out. It can't be dropped or copied: the machine takes it back by
/// `release` alone.
pub struct FlatState {
    pub(crate) number: u64,
    pub(crate) flat: Flat,
}
