//! The picker that goes by a list of numbers.

use crate::picker::{Offer, Picker};

/// Takes the execution whose index is the next number of a list modulo the number of offers, and
/// index 0 once the list is used up. Its name is `listed`.
#[derive(Debug, Drop)]
pub struct Listed {
    picks: Vec<u64>,
    next: usize,
}

impl Listed {
    ghost use Rattle.std.specs.Prelude.{◌≡◌};
    ghost use Rattle.picker.specs.Numbers.{numbers_left};

    /// Creates the picker that goes by these numbers. It takes no memory.
    pub fn new(picks: Vec<u64>) -> Listed
        ensures { numbers_left result ≡ picks.items }
    {
        Listed { picks, next: 0 }
    }
}

impl Picker for Listed {
    ghost use Rattle.std.specs.Prelude.{codes, ◌≡◌, ◌<◌, length};
    ghost use Rattle.picker.specs.Numbers.{index_from, numbers_after, numbers_left};

    ghost named = { λ picker. codes "listed" };

    ghost picks = { λ picker live at. at ≡ index_from (numbers_left picker) (length live) };

    fn name(&self) -> &str {
        "listed"
    }

    fn pick(&mut self, live: &[Offer]) -> usize
        requires { 0 < length live.now }
        ensures within { result < length live.now }
        ensures picks { result ≡ index_from (numbers_left self.old) (length live.now) }
        ensures left { numbers_left self.new ≡ numbers_after (numbers_left self.old) }
    {
        match self.picks.get(self.next) {
            Some(number) => {
                let at = *number % live.len() as u64;
                self.next += 1;
                at as usize
            }
            None => 0,
        }
    }
}
