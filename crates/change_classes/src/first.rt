//! Numbers the items of a slice by the first equal one.
ghost use Rattle.std.specs.Prelude.{◌≡◌, Bool, ◌<◌, ◌^◌, length, IfOk};
ghost use Rattle.std.specs.List.{position_or_len};
ghost use Rattle.std.specs.Iterator.Order.{ActsAsAtTwo};
ghost use Rattle.change_classes.specs.First.{first_equal};

use am_base::OutOfMemory;
use am_lists::Items;
use std::alloc::Global;

/// For each item the number, from 0, of the first item that is equal to it by `same`, of which there are fewer than 2^32. Where the test is an
/// equivalence, equal items have one number and different ones two.
///
/// An item that the test finds equal to none, itself included, has the number of how many items there are. It is refused only for want of memory.
pub fn classes_by<T, F: Fn(&T, &T) -> bool>(
    alloc: Global,
    items: &[T],
    same: F,
) -> Result<Items<u32>, OutOfMemory>
    requires callable { F.IsAlwaysCallable same }
    requires few { length items.now < 2 ^ 32 }
    ensures { IfOk result (λ numbers. (equal : T → T → Bool) → ActsAsAtTwo F.FnMut same equal → numbers ≡ first_equal equal items.now) }
{
    let mut numbers = Vec::with_capacity(alloc, items.len())?;
    for item in items {
        numbers.push(first_number(items, item, &same))?;
    }
    Ok(Items::from_vec(numbers))
}

/// The number of the first item that is equal to this one, or that of how many items there are.
fn first_number<T, F: Fn(&T, &T) -> bool>(items: &[T], item: &T, same: &F) -> u32
    requires callable { F.IsAlwaysCallable same.now }
    requires few { length items.now < 2 ^ 32 }
    ensures { (equal : T → T → Bool) → ActsAsAtTwo F.FnMut same.now equal → result ≡ position_or_len (λ other. equal other item.now) items.now }
{
    let mut number = 0;
    for other in items {
        if same(other, item) {
            return number;
        }
        number += 1;
    }
    number
}

#[cfg(test)]
mod tests {
    use super::*;
    use std::test::Fail;

    #[test]
    fn numbers_by_first_item(rt: HostRuntime) -> Result<(), Fail> {
        let numbers = classes_by(rt.alloc(), &[5u8, 7, 5, 9, 7, 5], |a, b| a == b)?;
        assert_eq!(rt; numbers.as_slice(), [0, 1, 0, 3, 1, 0].as_slice());
        let by_tens = classes_by(rt.alloc(), &[41u8, 7, 48, 3], |a, b| a / 10 == b / 10)?;
        assert_eq!(rt; by_tens.as_slice(), [0, 1, 0, 1].as_slice());
        let none = classes_by(rt.alloc(), &[0u8; 0], |a, b| a == b)?;
        assert_eq!(rt; none.len(), 0);
        Ok(())
    }
}
