//! Numbers the items of a slice by the first equal one, and compares only items of equal keys.
ghost use Rattle.std.specs.Prelude.{◌≡◌, ℕ, List, Bool, ◌<◌, ◌^◌, length, All, IfOk};
ghost use Rattle.std.specs.List.{position_or_len};
ghost use Rattle.std.specs.Iterator.Order.{ActsAsAtTwo};
ghost use Rattle.change_classes.specs.First.{first_equal};
ghost use Rattle.change_classes.specs.Keyed.{HasEqualKeys, IsOrderOf, IsRunOf, HoldsNumbers};

use am_base::OutOfMemory;
use am_lists::Items;
use std::alloc::Global;

/// For each item the number, from 0, of the first item that is equal to it by `same`, of which there
/// are fewer than 2^32: the list of `classes_by`, where equal items have equal keys.
///
/// An item is compared only with those of its key, in order, up to the first that is equal to it: n
/// items with keys of their own cost n·log n. It is refused only for want of memory.
pub fn classes_keyed<T, F: Fn(&T, &T) -> bool>(
    alloc: Global,
    keys: &[u64],
    items: &[T],
    same: F,
) -> Result<Items<u32>, OutOfMemory>
    requires callable { F.IsAlwaysCallable same }
    requires few { length items.now < 2 ^ 32 }
    requires keyed { length keys.now ≡ length items.now }
    ensures { IfOk result (λ numbers. (equal : T → T → Bool) → ActsAsAtTwo F.FnMut same equal → HasEqualKeys equal keys.now items.now → numbers ≡ first_equal equal items.now) }
{
    let order = in_order(alloc, keys)?;
    let mut numbers = Vec::with_capacity(alloc, items.len())?;
    for (at, item) in items.iter().enumerate() {
        let run = run_of(&order, keys[at]);
        numbers.push(first_in(run, items, item, &same))?;
    }
    Ok(Items::from_vec(numbers))
}

/// The keys, each with its number, in order of key and among equal keys in order of number.
fn in_order(alloc: Global, keys: &[u64]) -> Result<Vec<(u64, u32)>, OutOfMemory>
    requires { length keys.now < 2 ^ 32 }
    ensures { IfOk result (λ order. IsOrderOf keys.now order.items) }
{
    let mut order = Vec::with_capacity(alloc, keys.len())?;
    let mut number = 0;
    for key in keys {
        order.push((*key, number))?;
        number += 1;
    }
    order.sort_unstable();
    Ok(order)
}

/// The part of the order that has this key.
fn run_of(order: &[(u64, u32)], key: u64) -> &[(u64, u32)]
    ensures { (keys : List ℕ) → IsOrderOf keys order.now → IsRunOf keys key result.now }
{
    let rest = &order[order.partition_point(|entry| entry.0 < key)..];
    &rest[..rest.partition_point(|entry| entry.0 <= key)]
}

/// The number of the first item that is equal to this one, where a run has the numbers of all that
/// are; that of how many items there are, where none is equal.
fn first_in<T, F: Fn(&T, &T) -> bool>(run: &[(u64, u32)], items: &[T], item: &T, same: &F) -> u32
    requires callable { F.IsAlwaysCallable same.now }
    requires few { length items.now < 2 ^ 32 }
    requires within { All (λ entry. entry.1 < length items.now) run.now }
    ensures { (equal : T → T → Bool) → ActsAsAtTwo F.FnMut same.now equal → HoldsNumbers (λ other. equal other item.now) run.now items.now → result ≡ position_or_len (λ other. equal other item.now) items.now }
{
    for entry in run {
        if same(&items[entry.1 as usize], item) {
            return entry.1;
        }
    }
    items.len() as u32
}

#[cfg(test)]
mod tests {
    use super::*;
    use std::test::Fail;

    #[test]
    fn keys_of_tens(rt: HostRuntime) -> Result<(), Fail> {
        let items = [41u8, 7, 48, 41, 3, 7, 48];
        let keys = [4u64, 0, 4, 4, 0, 0, 4];
        let numbers = classes_keyed(rt.alloc(), &keys, &items, |a, b| a == b)?;
        assert_eq!(rt; numbers.as_slice(), [0, 1, 2, 0, 4, 1, 2].as_slice());
        let none = classes_keyed(rt.alloc(), &[0u64; 0], &[0u8; 0], |a, b| a == b)?;
        assert_eq!(rt; none.len(), 0);
        Ok(())
    }
}
