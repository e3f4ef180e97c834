//! The text of the groups of mutants at a step.

ghost use Rattle.std.specs.Prelude.{◌≡◌, ◌++◌, ◌∷◌, [], flat_map, IfOk, OnOk};
ghost use Rattle.std.specs.List.Sorted.{IsNonDecreasing, IsPermutation};
ghost use Rattle.command_texts.specs.Groups as spec;

use am_base::OutOfMemory;
use am_lists::{Bytes, Items};
use flat_analysis::Ended;
use line_parts::put_spaced;
use std::alloc::Global;

/// Appends the line of a class, if its traces have at least `step` changes.
fn put_group(out: &mut Bytes, step: u64, class: &Ended) -> Result<(), OutOfMemory>
    ensures { OnOk result (out.new ≡ out.old ++ spec.group_of step class.now) }
{
    if class.length < step {
        return Ok(());
    }
    out.extend(b"group,")?;
    put_spaced(out, class.members.as_slice())?;
    out.push(b'\n')?;
    Ok(())
}

/// Appends the lines of the classes whose traces have at least `step` changes.
#[tactic(auto, using(crate::proofs::MoreGroups::groups_more))]
fn put_groups(out: &mut Bytes, step: u64, classes: &[Ended]) -> Result<(), OutOfMemory>
    ensures { OnOk result (out.new ≡ out.old ++ flat_map (spec.group_of step) classes.now) }
{
    'classes: for class in classes {
        put_group(out, step, class)?;
    }
    Ok(())
}

/// Appends the members of a class, if its traces have fewer than `step` changes.
fn put_short(out: &mut Items<u32>, step: u64, class: &Ended) -> Result<(), OutOfMemory>
    ensures { OnOk result (out.new ≡ out.old ++ spec.short_of step class.now) }
{
    if class.length < step {
        out.extend(class.members.as_slice())?;
    }
    Ok(())
}

/// Returns the members of the classes whose traces have fewer than `step` changes.
#[tactic(auto, using(crate::proofs::MoreGroups::short_more))]
fn short_members(alloc: Global, step: u64, classes: &[Ended]) -> Result<Items<u32>, OutOfMemory>
    ensures { IfOk result (λ short. short ≡ flat_map (spec.short_of step) classes.now) }
{
    let mut short = Items::new(alloc);
    'classes: for class in classes {
        put_short(&mut short, step, class)?;
    }
    Ok(short)
}

/// Returns numbers in rising order.
fn rising(numbers: Items<u32>) -> Result<Vec<u32>, OutOfMemory>
    ensures same { IfOk result (λ list. IsPermutation numbers list.items) }
    ensures rising { IfOk result (λ list. IsNonDecreasing list.items) }
{
    let mut list = numbers.into_vec();
    list.sort()?;
    Ok(list)
}

/// Returns the text of the groups at a step, from the classes of an analysis whose traces have at
/// most `step` changes: a line `group,MEMBERS` for each class whose traces have `step` changes, in
/// the order of the classes, and then the line `short,MEMBERS` with the mutants whose traces have
/// fewer, rising. MEMBERS are separated by one blank. O(n log n) in the mutants.
pub fn groups_text(alloc: Global, step: u64, classes: &[Ended]) -> Result<Bytes, OutOfMemory>
    ensures { IfOk result (λ text. spec.IsGroupsText step classes.now text) }
{
    let mut text = Bytes::new(alloc);
    put_groups(&mut text, step, classes)?;
    let short = rising(short_members(alloc, step, classes)?)?;
    text.extend(b"short,")?;
    put_spaced(&mut text, short.as_slice())?;
    text.push(b'\n')?;
    Ok(text)
}
