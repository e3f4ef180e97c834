//! The trait of all pickers, and what a picker is shown of an execution.

ghost use Rattle.std.specs.Prelude.{◌≡◌, ℕ, ◌<◌, List, length};
ghost use Rattle.picker.specs.declared.picker.Offer.{Offer};

/// A live execution as a picker sees it: how many changes it has made, its least member and how many members it has.
#[derive(Clone, Copy, Debug, PartialEq, Eq)]
pub struct Offer {
    pub step: u64,
    pub least: u32,
    pub members: u32,
}

/// Chooses which of the live executions takes the next turn.
pub trait Picker: Drop {
    /// The bytes of its name.
    ghost named: { Self → List ℕ };

    /// Whether the picker may answer this index when it is asked with these offers. Contracts alone read it.
    ghost picks: { Self → List Offer → ℕ → Type 0 };

    /// Returns its name. A call of `pick` may change it.
    fn name(&self) -> &str
        ensures { result.now ≡ named self.now };

    /// Returns the index of the offer whose execution takes the next turn. There is at least one offer, and they are in order of `least`.
    fn pick(&mut self, live: &[Offer]) -> usize
        requires { 0 < length live.now }
        ensures within { result < length live.now }
        ensures picks { picks self.old live.now result };
}
