//! Flags of definitions.
ghost use Rattle.std.specs.Prelude.{◌≡◌, false, replicate, slice_get, unwrap_or, IfOk};
ghost use Rattle.std.specs.List.{list_all};
ghost use Rattle.ir_types.specs.Graph as spec;
ghost use Rattle.ir_types.specs.Graph.{SetsFlag};

use am_base::OutOfMemory;
use am_lists::Items;
use std::alloc::Global;

/// Whether the flag of a definition is set; `false` where there is no such definition.
pub fn flag_at(flags: &[bool], number: usize) -> bool
    ensures { result ≡ unwrap_or (slice_get flags.now number) false }
{
    flags.get(number).copied().unwrap_or(false)
}

/// Whether the flag of a definition is set; `true` where there is no such definition.
pub fn held(flags: &[bool], number: usize) -> bool
    ensures { result ≡ spec.held flags.now number }
{
    flags.get(number).copied().unwrap_or(true)
}

/// Whether one of some definitions has a flag that isn't set.
pub fn some_left(flags: &[bool], list: &[usize]) -> bool
    ensures { result ≡ spec.some_left flags.now list.now }
{
    let mut left = false;
    'each: for number in list {
        let here = !held(flags, *number);
        left = left || here;
    }
    left
}

/// Whether all flags are set.
pub fn all_set(flags: &[bool]) -> bool
    ensures { result ≡ list_all (λ b. b) flags.now }
{
    let mut all = true;
    'each: for flag in flags {
        let here = *flag;
        all = all && here;
    }
    all
}

/// Sets the flag of a definition, where there is such a definition.
pub fn set_flag(flags: &mut Items<bool>, number: usize)
    ensures { SetsFlag flags.old number flags.new }
{
    if number < flags.len() {
        flags.set(number, true);
    }
}

/// Returns so many of the same item.
pub fn filled<T: Copy>(alloc: Global, count: usize, item: T) -> Result<Items<T>, OutOfMemory>
    ensures { IfOk result (λ list. list ≡ replicate count item) }
{
    let mut list = Items::new(alloc);
    'each: for _number in 0..count {
        list.push(item)?;
    }
    Ok(list)
}
