//! The states that the machine gives out.
use bare_state::Bare;
use shared_pages::MemId;

/// A state that a `SharedMachine` gave out. It can't be dropped or copied: the machine takes it back
/// by `release` alone.
pub struct SharedState {
    pub(crate) bare: Bare,
    pub(crate) memory: MemId,
}
