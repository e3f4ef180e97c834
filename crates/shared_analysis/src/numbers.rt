//! For each mutant the class that it is in.
ghost use Rattle.std.specs.Prelude.{◌≡◌, ◌⊎◌, ℕ, ◌*◌, ◌<◌, ◌≤◌, ◌^◌, length, slice_index, IfOk};
ghost use Rattle.std.specs.List.{All, Contains, flat_map};
ghost use Rattle.std.specs.List.Sorted.{IsPermutation};
ghost use Rattle.traces.specs.Together.{below};
ghost use Rattle.shared_analysis.specs.Ended.{IsClassOf, IsNumbered};

use crate::ended::{Ended, TestResult, Together};
use am_base::OutOfMemory;
use am_lists::Items;
use std::alloc::Global;

/// Puts the number of a class at each of its members, and changes no other entry.
fn put_number(table: &mut Vec<u32>, members: &[u32], number: u32)
    requires within { All (λ m. m < length table.old.items) members.now }
    ensures size { length table.new.items ≡ length table.old.items }
    ensures put { (m : ℕ) → Contains members.now m → slice_index table.new.items m ≡ number }
    ensures kept { (m : ℕ) → (Contains members.now m × (slice_index table.new.items m ≡ number))
        ⊎ (slice_index table.new.items m ≡ slice_index table.old.items m) }
{
    for m in members {
        table[*m as usize] = number;
    }
}

/// For each of so many mutants, from mutant 0 on, the index of the class that has it.
fn numbers_of(alloc: Global, classes: &[Ended], mutants: u32) -> Result<Items<u32>, OutOfMemory>
    requires once { IsPermutation (below mutants) (flat_map (λ e. e.members) classes.now) }
    requires few { length classes.now < 2 ^ 32 }
    ensures count { IfOk result (λ numbers. length numbers ≡ mutants) }
    ensures each { IfOk result (λ numbers. (m : ℕ) → m < mutants → IsClassOf classes.now m (slice_index numbers m)) }
{
    let mut numbers = vec![in alloc; 0u32; mutants as usize]?;
    let mut number = 0u32;
    for class in classes {
        put_number(&mut numbers, class.members.as_slice(), number);
        number += 1;
    }
    Ok(Items::from_vec(numbers))
}

/// The analysis with the class of each mutant.
pub fn numbered(alloc: Global, together: Together, mutants: u32) -> Result<TestResult, OutOfMemory>
    requires once { IsPermutation (below mutants) (flat_map (λ e. e.members) together.classes) }
    requires some { All (λ e. 0 < length e.members) together.classes }
    ensures { IfOk result (λ a. IsNumbered together mutants a) }
{
    let Together {
        classes,
        splits,
        work,
        peak,
    } = together;
    let class_of = numbers_of(alloc, classes.as_slice(), mutants)?;
    Ok(TestResult {
        classes,
        class_of,
        splits,
        work,
        peak,
    })
}
