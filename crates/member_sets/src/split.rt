//! Files the members of a set by class.

ghost use Rattle.std.specs.Prelude.{◌≡◌, ℕ, ◌+◌, ◌==◌, ◌<◌, ◌≤◌, ◌^◌, ◌++◌, ◌∷◌, [], false, List, length, map, slice_index, slice_index_or, slice_set, IfOk};
ghost use Rattle.std.specs.Prelude.{IfSome, IfNone, OnOk, vec_len};
ghost use Rattle.std.specs.List.{list_any};
ghost use Rattle.member_sets.specs.Filed.{AreFiled};
ghost use Rattle.member_sets.specs.Marks.{AreMarked};
ghost use Rattle.member_sets.specs.Members.{IsMemberList, parts_by};

use crate::marks::{is_marked, mark};
use am_base::OutOfMemory;
use am_lists::Items;
use std::alloc::Global;

/// Returns the index of a class among these, each of which has its index in the table of marks.
/// `None` iff it isn't there. O(1).
fn index_of(marks: &[u32], classes: &[u32], class: u32) -> Option<usize>
    requires { AreMarked classes.now marks.now }
    ensures within { IfSome result (λ at. at < length classes.now) }
    ensures there { IfSome result (λ at. slice_index classes.now at ≡ class) }
    ensures none { IfNone result (list_any (λ c. c == class) classes.now ≡ false) }
{
    if !is_marked(marks, classes, class) {
        return None;
    }
    Some(marks[class as usize] as usize)
}

/// Appends a member to the list at an index.
fn push_at(lists: &mut Vec<Items<u32>>, at: usize, m: u32) -> Result<(), OutOfMemory>
    requires { at < vec_len lists.old }
    ensures { OnOk result (lists.new.items ≡ slice_set lists.old.items at (slice_index_or lists.old.items at [] ++ m ∷ [])) }
{
    let list = &mut lists[at];
    list.push(m)?;
    Ok(())
}

/// Appends a list of one member.
fn push_list(alloc: Global, lists: &mut Vec<Items<u32>>, m: u32) -> Result<(), OutOfMemory>
    ensures { OnOk result (lists.new.items ≡ lists.old.items ++ (m ∷ []) ∷ []) }
{
    let mut list = Items::new(alloc);
    list.push(m)?;
    lists.push(list)?;
    Ok(())
}

/// Files a member: appends it to the list of its class, or begins one. O(1) amortized.
fn file(
    alloc: Global,
    marks: &mut Vec<u32>,
    classes: &mut Vec<u32>,
    lists: &mut Vec<Items<u32>>,
    class: u32,
    m: u32,
) -> Result<(), OutOfMemory>
    requires marked { AreMarked classes.old.items marks.old.items }
    requires as_many { length lists.old.items ≡ length classes.old.items }
    requires few { length classes.old.items < 2 ^ 32 }
    ensures marked { OnOk result (AreMarked classes.new.items marks.new.items) }
    ensures as_many { OnOk result (length lists.new.items ≡ length classes.new.items) }
    ensures few { OnOk result (length classes.new.items ≤ length classes.old.items + 1) }
    ensures filed { OnOk result ((class_of : ℕ → ℕ) (members : List ℕ) (i : ℕ) → IsMemberList members → i < length members
        → slice_index members i ≡ m → class_of m ≡ class → AreFiled class_of members i classes.old.items lists.old.items
        → AreFiled class_of members (i + 1) classes.new.items lists.new.items) }
{
    match index_of(marks, classes, class) {
        Some(at) => push_at(lists, at, m),
        None => {
            mark(marks, classes, class)?;
            push_list(alloc, lists, m)
        }
    }
}

/// Returns the members of each class, in order of the least member of each, where `classes` has the
/// class of each member. O(n).
pub fn lists_by(
    alloc: Global,
    members: &[u32],
    classes: &[u32],
) -> Result<Vec<Items<u32>>, OutOfMemory>
    requires as_many { length classes.now ≡ length members.now }
    requires members { IsMemberList members.now }
    ensures { IfOk result (λ lists. (class_of : ℕ → ℕ) → classes.now ≡ map class_of members.now
        → lists.items ≡ parts_by class_of members.now) }
{
    let mut marks = Vec::new(alloc);
    let mut met = Vec::new(alloc);
    let mut lists = Vec::new(alloc);
    for (at, m) in members.iter().enumerate() {
        file(alloc, &mut marks, &mut met, &mut lists, classes[at], *m)?;
    }
    Ok(lists)
}
