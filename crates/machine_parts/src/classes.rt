//! Changes by the first equal one.
ghost use Rattle.std.specs.Prelude.{◌≡◌, ◌<◌, ◌^◌, length, map, IfOk};
ghost use Rattle.change_classes.specs.First.{first_equal};
ghost use Rattle.machine_form.specs.Same.{same_change};
ghost use Rattle.machine_parts.specs.Keys.{change_key};

use crate::keys::key_of;
use am_base::OutOfMemory;
use am_lists::Items;
use change_classes::classes_keyed;
use change_set::{Change, same};
use std::alloc::Global;

/// Whether two changes are equal.
fn equal(a: &Change, b: &Change) -> bool
    ensures { result ≡ same_change a.now b.now }
{
    same(a, b)
}

/// The key of each change.
fn keys_of(alloc: Global, changes: &[Change]) -> Result<Vec<u64>, OutOfMemory>
    ensures { IfOk result (λ keys. keys.items ≡ map change_key changes.now) }
{
    let keys = changes.iter().map(|change| key_of(change)).collect(alloc)?;
    Ok(keys)
}

/// For each change the number of the first change that is equal to it. Only changes of one key are
/// compared.
pub fn group(alloc: Global, changes: &[Change]) -> Result<Items<u32>, OutOfMemory>
    requires { length changes.now < 2 ^ 32 }
    ensures { IfOk result (λ numbers. numbers ≡ first_equal same_change changes.now) }
{
    let keys = keys_of(alloc, changes)?;
    classes_keyed(alloc, &keys, changes, |a, b| equal(a, b))
}
