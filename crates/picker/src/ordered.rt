//! The pickers that go by an order of the offers: by greatest step, by least step and by fewest members.

ghost use Rattle.std.specs.Prelude.{◌≡◌, Bool, ◌<◌, length};
ghost use Rattle.std.specs.Cmp.{IsStrictWeakOrder};
ghost use Rattle.std.specs.List.{IsFirstBest};
ghost use Rattle.std.specs.Iterator.Order.{ActsAsAtTwo};
ghost use Rattle.picker.specs.declared.picker.Offer.{Offer};

use crate::picker::{Offer, Picker};

/// Takes the execution of greatest step. Ties go to the least `least`. Its name is `depth`.
#[derive(Debug, Drop)]
pub struct DepthFirst {}

/// Takes the execution of least step. Ties go to the least `least`. Its name is `breadth`.
#[derive(Debug, Drop)]
pub struct BreadthFirst {}

/// Takes the execution with the fewest members. Ties go to the least `least`. Its name is
/// `smallest`.
#[derive(Debug, Drop)]
pub struct SmallestFirst {}

impl DepthFirst {
    /// Creates the picker.
    pub fn new() -> DepthFirst {
        DepthFirst {}
    }
}

impl BreadthFirst {
    /// Creates the picker.
    pub fn new() -> BreadthFirst {
        BreadthFirst {}
    }
}

impl SmallestFirst {
    /// Creates the picker.
    pub fn new() -> SmallestFirst {
        SmallestFirst {}
    }
}

impl Picker for DepthFirst {
    ghost use Rattle.std.specs.Prelude.{codes, length};
    ghost use Rattle.std.specs.List.{IsFirstBest};
    ghost use Rattle.picker.specs.Order.{is_deeper};

    ghost named = { λ picker. codes "depth" };

    ghost picks = { λ picker live at. IsFirstBest is_deeper live (length live) at };

    fn name(&self) -> &str {
        "depth"
    }

    fn pick(&mut self, live: &[Offer]) -> usize {
        first_best(live, |a, b| {
            a.step > b.step || (a.step == b.step && a.least < b.least)
        })
    }
}

impl Picker for BreadthFirst {
    ghost use Rattle.std.specs.Prelude.{codes, length};
    ghost use Rattle.std.specs.List.{IsFirstBest};
    ghost use Rattle.picker.specs.Order.{is_shallower};

    ghost named = { λ picker. codes "breadth" };

    ghost picks = { λ picker live at. IsFirstBest is_shallower live (length live) at };

    fn name(&self) -> &str {
        "breadth"
    }

    fn pick(&mut self, live: &[Offer]) -> usize {
        first_best(live, |a, b| {
            a.step < b.step || (a.step == b.step && a.least < b.least)
        })
    }
}

impl Picker for SmallestFirst {
    ghost use Rattle.std.specs.Prelude.{codes, length};
    ghost use Rattle.std.specs.List.{IsFirstBest};
    ghost use Rattle.picker.specs.Order.{is_smaller};

    ghost named = { λ picker. codes "smallest" };

    ghost picks = { λ picker live at. IsFirstBest is_smaller live (length live) at };

    fn name(&self) -> &str {
        "smallest"
    }

    fn pick(&mut self, live: &[Offer]) -> usize {
        first_best(live, |a, b| {
            a.members < b.members || (a.members == b.members && a.least < b.least)
        })
    }
}

/// Returns the index of the first offer that no other beats, of one or more offers.
fn first_best<F: Fn(&Offer, &Offer) -> bool>(live: &[Offer], beats: F) -> usize
    requires callable { F.IsAlwaysCallable beats }
    requires some { 0 < length live.now }
    ensures within { result < length live.now }
    ensures best { (order : Offer → Offer → Bool) → ActsAsAtTwo F.FnMut beats order
        → IsStrictWeakOrder order → IsFirstBest order live.now (length live.now) result }
{
    let mut best = 0;
    let mut top = live[0];
    for at in 1..live.len() {
        if beats(&live[at], &top) {
            best = at;
            top = live[at];
        }
    }
    best
}
