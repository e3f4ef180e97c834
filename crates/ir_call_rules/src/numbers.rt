//! Sets of numbers.
ghost use Rattle.std.specs.Prelude.{◌≡◌, ◌&&◌, ◌||◌, [], IfOk, OnOk};
ghost use Rattle.std.specs.List.{list_all};
ghost use Rattle.ir_rules.specs.Blocks.{has};
ghost use Rattle.ir_rules.specs.Blocks as blocks;
ghost use Rattle.ir_call_rules.specs.Numbers.{with_number, has_word, with_word};
ghost use Rattle.ir_call_rules.specs.Numbers as spec;

use am_base::OutOfMemory;
use indexmap::IndexSet;
use std::alloc::Global;
use std::marker::Model;

/// A set of numbers, seen as the list of them in the order in which they were added first. To ask
/// for one and to add one takes O(1) expected time.
#[derive(Drop)]
pub struct Numbers {
    set: IndexSet<u64>,
}

impl Model for Numbers {
    ghost use Rattle.std.specs.Prelude.{List, ℕ};

    ghost Value = { List ℕ };

    ghost view = { λ n. n.set.keys };
}

impl Numbers {
    /// Returns the empty set. It takes no memory.
    pub fn new(alloc: Global) -> Numbers
        ensures { result ≡ [] }
    {
        Numbers {
            set: IndexSet::new(alloc),
        }
    }

    /// Whether a number is in the set.
    pub fn has(&self, n: u64) -> bool
        ensures { result ≡ has self.now n }
    {
        self.set.contains(&n)
    }

    /// Adds a number, unless it is there.
    pub fn add(&mut self, n: u64) -> Result<(), OutOfMemory>
        ensures { OnOk result (self.new ≡ with_number self.old n) }
    {
        self.set.insert(n)?;
        Ok(())
    }
}

/// Adds a word where there is one. Whether it was in the set before.
pub fn add_word(words: &mut Numbers, word: Option<u64>) -> Result<bool, OutOfMemory>
    ensures known { IfOk result (λ known. known ≡ has_word words.old word) }
    ensures added { OnOk result (words.new ≡ with_word words.old word) }
{
    match word {
        None => Ok(false),
        Some(word) => {
            let known = words.has(word);
            words.add(word)?;
            Ok(known)
        }
    }
}

fn set_of(alloc: Global, numbers: &[usize]) -> Result<Numbers, OutOfMemory>
    ensures { IfOk result (λ set. set ≡ spec.set_of numbers.now) }
{
    let mut set = Numbers::new(alloc);
    'each: for n in numbers {
        set.add(*n as u64)?;
    }
    Ok(set)
}

fn has_all(set: &Numbers, numbers: &[usize]) -> bool
    ensures { result ≡ list_all (has set.now) numbers.now }
{
    let mut all = true;
    'each: for n in numbers {
        let here = set.has(*n as u64);
        all = all && here;
    }
    all
}

/// Whether one of two tests holds.
pub fn either(a: bool, b: bool) -> bool
    ensures { result ≡ (a || b) }
{
    a || b
}

fn both(a: bool, b: bool) -> bool
    ensures { result ≡ (a && b) }
{
    a && b
}

/// Whether two lists of numbers are one set. It takes time about linear in their lengths.
pub fn same_set(alloc: Global, ms: &[usize], ns: &[usize]) -> Result<bool, OutOfMemory>
    ensures { IfOk result (λ same. same ≡ blocks.same_set ms.now ns.now) }
{
    let first = set_of(alloc, ms)?;
    let second = set_of(alloc, ns)?;
    Ok(both(has_all(&second, ms), has_all(&first, ns)))
}
