//! A frame without its registers.

/// A frame: the place of the instruction that runs next, where its registers begin among those of
/// all frames, and what its return does.
#[derive(Clone, Copy, Debug, PartialEq, Eq)]
pub struct Mark {
    /// The place of the instruction that runs next.
    pub place: u32,
    /// The index of its first register among the registers of all frames.
    pub base: usize,
    /// The register of the caller's frame that gets the returned word. The first frame has none.
    pub result: Option<u32>,
    /// The stack top that the return restores, a byte address.
    pub restores: u32,
}
