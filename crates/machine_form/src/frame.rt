//! The frame of one call.
use am_lists::Items;

/// One call that isn't over: its program counter, its registers, and what its return does.
#[derive(Debug, Drop)]
pub struct Frame {
    /// The place of the instruction that runs next.
    pub place: u32,
    /// The word of each register of the function, where it is set.
    pub registers: Items<Option<u64>>,
    /// The register of the caller's frame that gets the returned word. The first frame has none.
    pub result: Option<u32>,
    /// The stack top that the return restores, a byte address. In the first frame it is the opening
    /// stack top, and means nothing.
    pub restores: u32,
}
