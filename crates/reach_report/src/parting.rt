//! The first change in which each mutant differs from the original.

ghost use Rattle.std.specs.Prelude.{◌≡◌, ◌<◌, ◌^◌, length, map, drop, IfOk, None, slice_get, slice_index, slice_index_or};
ghost use Rattle.std.specs.Option.{option_map_or};
ghost use Rattle.std.specs.List.{All, range_with_len};
ghost use Rattle.exec_core.specs.Engines.{split_seen};
ghost use Rattle.flat_analysis.specs.Ended.{IsAnalysis};
ghost use Rattle.machine_form.specs.declared.change.Change.{Change};
ghost use Rattle.machine_form.specs.State.{State};
ghost use Rattle.traces.specs.Meanings.{IsSameTest};
ghost use Rattle.traces.specs.Trace.{Trial};
ghost use Rattle.reach_report.specs.Pass.{table_of, value_of, with_split, leader_of};
ghost use Rattle.reach_report.specs.Reach.{ArePartings};

use crate::table::{entry_of, lower_each};
use am_base::OutOfMemory;
use exec_core::Split;
use flat_analysis::{CaseAnalysis, Ended};
use std::alloc::Global;

/// The first number of a list, and 0 where there is none.
fn first_of(numbers: &[u32]) -> u32
    ensures { result ≡ slice_index numbers.now 0 }
{
    match numbers {
        [first, ..] => *first,
        [] => 0,
    }
}

/// When the later parts of a split have parted from mutant 0.
fn value_at(table: &[Option<u64>], split: &Split) -> Option<u64>
    requires { split.now.step < 2 ^ 63 }
    ensures { result ≡ value_of table.now (split_seen split.now) }
{
    let first = first_of(split.parts.as_slice());
    if first == 0 {
        return Some(split.step + 1);
    }
    entry_of(table, first)
}

/// The numbers behind the first.
fn later_of(numbers: &[u32]) -> &[u32]
    ensures { result.now ≡ drop 1 numbers.now }
{
    match numbers {
        [_, later @ ..] => later,
        [] => &[],
    }
}

/// Tells of the later parts of a split when they parted from mutant 0.
#[tactic(auto, unfolding(crate::specs::Pass::with_split))]
fn tell(table: &mut Vec<Option<u64>>, split: &Split)
    requires { split.now.step < 2 ^ 63 }
    ensures { table.new.items ≡ with_split table.old.items (split_seen split.now) }
{
    let value = value_at(table, split);
    lower_each(table, later_of(split.parts.as_slice()), value);
}

/// When each mutant that leads a class parted from mutant 0.
fn led(alloc: Global, mutants: usize, splits: &[Split]) -> Result<Vec<Option<u64>>, OutOfMemory>
    requires { All (λ (s : Split). s.step < 2 ^ 63) splits.now }
    ensures { IfOk result (λ table. table.items ≡ table_of mutants (map split_seen splits.now)) }
{
    let mut table = vec![in alloc; None; mutants]?;
    'splits: for split in splits {
        tell(&mut table, split);
    }
    Ok(table)
}

/// The number of a mutant's class.
fn number_of(numbers: &[u32], m: u32) -> u32
    ensures { result ≡ slice_index numbers.now m }
{
    match numbers.get(m as usize) {
        Some(number) => *number,
        None => 0,
    }
}

/// The least member of a class.
fn least_of(classes: &[Ended], number: u32) -> u32
    ensures { result ≡ option_map_or (λ class. slice_index class.members 0) (slice_get classes.now number) 0 }
{
    match classes.get(number as usize) {
        Some(class) => first_of(class.members.as_slice()),
        None => 0,
    }
}

/// The least member of a mutant's class.
#[tactic(auto, unfolding(crate::specs::Pass::leader_of))]
fn leader(classes: &[Ended], numbers: &[u32], m: u32) -> u32
    ensures { result ≡ leader_of classes.now numbers.now m }
{
    least_of(classes, number_of(numbers, m))
}

/// The entry of the least member of each mutant's class.
fn entries(
    alloc: Global,
    table: &[Option<u64>],
    classes: &[Ended],
    numbers: &[u32],
) -> Result<Vec<Option<u64>>, OutOfMemory>
    requires { length numbers.now < 2 ^ 32 }
    ensures { IfOk result (λ list. list.items
        ≡ map (λ m. slice_index_or table.now (leader_of classes.now numbers.now m) None) (range_with_len 0 (length numbers.now))) }
{
    let list = (0..numbers.len() as u32)
        .map(|m| entry_of(table, leader(classes, numbers, m)))
        .collect(alloc)?;
    Ok(list)
}

/// Returns for each mutant from 0 the number, from 1, of the first change in which its trace and that
/// of mutant 0 differ, where both have so many: none where there is none. It looks at the splits and
/// at the least members of the classes alone. Refuses for want of memory alone. O(n) in the mutants
/// and in the parts of all splits.
pub fn partings(alloc: Global, analysed: &CaseAnalysis) -> Result<Vec<Option<u64>>, OutOfMemory>
    requires few { length analysed.now.class_of < 2 ^ 32 }
    requires small { All (λ (s : Split). s.step < 2 ^ 63) analysed.now.splits }
    ensures { IfOk result (λ list. (T : Trial State Change) → IsSameTest T.meanings → IsAnalysis T analysed.now → ArePartings T list.items) }
{
    let numbers = analysed.class_of.as_slice();
    let classes = analysed.classes.as_slice();
    let table = led(alloc, numbers.len(), analysed.splits.as_slice())?;
    let list = entries(alloc, &table, classes, numbers)?;
    Ok(list)
}
