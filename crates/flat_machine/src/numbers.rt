//! The numbers of the states that a machine has out.
ghost use Rattle.std.specs.Prelude.{◌≡◌, ℕ, [], ◌∷◌, IfOk, OnErr};
ghost use Rattle.std.specs.List.{Contains};
ghost use Rattle.std.specs.List.Sorted.{IsPermutation};
ghost use Rattle.flat_machine.specs.Taken.{taken};

use am_base::OutOfMemory;
use std::alloc::Global;

/// The numbers of the states that a machine has out. A number that was taken back is given again
/// once no higher one is out. Each call takes constant time over all calls, since a mark that is
/// dropped was set once.
#[derive(Debug, Drop)]
pub struct Numbers {
    /// For each number whether it is out. The last one is.
    pub marks: Vec<bool>,
}

impl Numbers {
    /// No number is out. It takes no memory.
    pub fn new(alloc: Global) -> Numbers
        ensures { taken result.marks.items ≡ [] }
    {
        Numbers {
            marks: Vec::new(alloc),
        }
    }

    /// Gives out a number. A refusal changes nothing.
    pub fn give(&mut self) -> Result<u64, OutOfMemory>
        ensures out { IfOk result (λ number. IsPermutation (number ∷ taken self.old.marks.items) (taken self.new.marks.items)) }
        ensures err { OnErr result (taken self.new.marks.items ≡ taken self.old.marks.items) }
    {
        let number = self.marks.len() as u64;
        self.marks.push(true)?;
        Ok(number)
    }

    /// Takes a number back.
    pub fn take_back(&mut self, number: u64)
        requires { Contains (taken self.old.marks.items) number }
        ensures { IsPermutation (taken self.old.marks.items) (number ∷ taken self.new.marks.items) }
    {
        self.marks[number as usize] = false;
        trim(&mut self.marks);
    }
}

/// Drops the marks at the end that aren't set.
fn trim(marks: &mut Vec<bool>)
    ensures { taken marks.new.items ≡ taken marks.old.items }
{
    while let Some(last) = marks.last() {
        if *last {
            return;
        }
        let _ = marks.pop();
    }
}
