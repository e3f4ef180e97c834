//! The mutants of an execution as a set of numbers.
ghost use Rattle.std.specs.Prelude.{◌≡◌, ◌≢◌, ℕ, ◌<◌, ◌≤◌, ◌↔◌, [], List, length, map, slice_index, slice_index_or, IsTrue, IfOk, IfSome, IfNone};
ghost use Rattle.std.specs.List.{All, Contains};
ghost use Rattle.std.specs.List.Sorted.{IsStrictlyIncreasing};
ghost use Rattle.traces.specs.Together.{below};
ghost use Rattle.code_form.specs.Variant.{variant_of};
ghost use Rattle.member_sets.specs.Members.{IsMemberList, class_at, parts_by};
ghost use Rattle.member_sets.specs.Seen.{seen};

use crate::form::{Form, from_members, from_words};
use crate::plane::Plane;
use crate::split::lists_by;
use crate::words::{have_bit, list_of};
use am_base::{MAX_MUTANTS, OutOfMemory};
use am_lists::Items;
use code_form::{Place, Variants};
use std::alloc::Global;
use std::marker::Model;
use std::rc::Rc;

/// A set of mutant numbers that isn't empty, seen as the rising list of them. It has at most
/// `MAX_MUTANTS` members, each below `MAX_MUTANTS`.
///
/// A set of many members for the numbers that they lie between is kept as a plane of bits, another
/// as a list.
#[derive(Debug, Drop)]
pub struct Members {
    form: Form,
}

impl Model for Members {
    ghost Value = { List ℕ };

    ghost view = { λ members. seen members.form };

    ghost invariant = { λ members. IsMemberList (seen members.form) };
}

impl Members {
    /// The set of the numbers below `n`, which is from 1 to `MAX_MUTANTS`. Refuses for want of memory
    /// alone. O(n).
    pub fn all(alloc: Global, n: u32) -> Result<Members, OutOfMemory>
        requires some { 1 ≤ n }
        requires few { n ≤ MAX_MUTANTS }
        ensures { IfOk result (λ members. members ≡ below n) }
    {
        let mut list = Vec::with_capacity(alloc, n as usize)?;
        for m in 0..n {
            list.push(m)?;
        }
        set_of(alloc, &list)
    }

    /// The parts of the set by the classes of its members, in order of their least members.
    ///
    /// Entry v of `class_of` is the class of variant number v, for each that a member has at the
    /// place. The set itself is unchanged. Refuses for want of memory alone. O(n log n).
    pub fn split_by(
        &self,
        alloc: Global,
        table: &Variants,
        place: Place,
        class_of: &[u32],
    ) -> Result<Items<Members>, OutOfMemory>
        requires { All (λ m. variant_of table.now m place.0 < length class_of.now) self.now }
        ensures { IfOk result (λ parts. parts ≡ parts_by (class_at (variant_of table.now) place.0 class_of.now) self.now) }
    {
        let parts = match &self.form {
            Form::Single(m) => parts_of(alloc, &[*m], table, place, class_of)?,
            Form::Listed(list) => parts_of(alloc, list.as_slice(), table, place, class_of)?,
            Form::Bits(plane) => plane_parts(alloc, plane, table, place, class_of)?,
        };
        Ok(Items::from_vec(parts))
    }

    /// The least member. O(1).
    pub fn least(&self) -> u32
        ensures member { Contains self.now result }
        ensures least { All (λ m. result ≤ m) self.now }
        ensures first { result ≡ slice_index self.now 0 }
    {
        match &self.form {
            Form::Single(m) => *m,
            Form::Listed(list) => list.as_slice()[0],
            Form::Bits(plane) => plane.least(),
        }
    }

    /// How many members there are. O(1).
    pub fn len(&self) -> u32
        ensures value { result ≡ length self.now }
        ensures some { 1 ≤ result }
        ensures few { result ≤ MAX_MUTANTS }
        ensures list { IsMemberList self.now }
    {
        match &self.form {
            Form::Single(_) => 1,
            Form::Listed(list) => list.len() as u32,
            Form::Bits(plane) => plane.len(),
        }
    }

    /// Whether a number is a member. O(1) of a plane, O(log n) of a list.
    pub fn has(&self, m: u32) -> bool
        ensures { IsTrue result ↔ Contains self.now m }
    {
        match &self.form {
            Form::Single(own) => *own == m,
            Form::Listed(list) => has_number(list.as_slice(), m),
            Form::Bits(plane) => plane.has(m),
        }
    }

    /// Returns how many members are lower than a member, which is its index in the rising list.
    /// `None` iff it is no member. O(1) of a plane, O(log n) of a list.
    pub fn index_of(&self, m: u32) -> Option<usize>
        ensures within { IfSome result (λ at. at < length self.now) }
        ensures there { IfSome result (λ at. slice_index self.now at ≡ m) }
        ensures none { IfNone result ((k : ℕ) → k < length self.now → slice_index self.now k ≢ m) }
    {
        match &self.form {
            Form::Single(own) => index_in(&[*own], m),
            Form::Listed(list) => index_in(list.as_slice(), m),
            Form::Bits(plane) => plane.index_of(m),
        }
    }

    /// Returns the same set once more. It takes no memory, but is refused where the count of those
    /// that share the set is at its greatest. O(1).
    pub fn share(&self) -> Result<Members, OutOfMemory>
        ensures { IfOk result (λ members. members ≡ self.now) }
    {
        let form = match &self.form {
            Form::Single(m) => Form::Single(*m),
            Form::Listed(list) => Form::Listed(list.clone()?),
            Form::Bits(plane) => Form::Bits(plane.clone()?),
        };
        Ok(Members { form })
    }

    /// The members, rising. Refuses for want of memory alone. O(n), and O(64 words) of a plane.
    pub fn list(&self, alloc: Global) -> Result<Items<u32>, OutOfMemory>
        ensures members { IfOk result (λ list. list ≡ self.now) }
        ensures rising { IsStrictlyIncreasing self.now }
    {
        match &self.form {
            Form::Single(m) => Ok(Items::from_slice(alloc, &[*m])?),
            Form::Listed(list) => Ok(list.copy(alloc)?),
            Form::Bits(plane) => plane.list(alloc),
        }
    }
}

/// Whether a number stands in a rising list.
fn has_number(list: &[u32], m: u32) -> bool
    requires { IsStrictlyIncreasing list.now }
    ensures { IsTrue result ↔ Contains list.now m }
{
    list.binary_search(&m).is_ok()
}

/// Returns the index of a number in a rising list. `None` iff it isn't there.
fn index_in(list: &[u32], m: u32) -> Option<usize>
    requires { IsStrictlyIncreasing list.now }
    ensures within { IfSome result (λ at. at < length list.now) }
    ensures there { IfSome result (λ at. slice_index list.now at ≡ m) }
    ensures none { IfNone result ((k : ℕ) → k < length list.now → slice_index list.now k ≢ m) }
{
    match list.binary_search(&m) {
        Ok(at) => Some(at),
        Err(_) => None,
    }
}

/// Returns the set of these numbers.
fn set_of(alloc: Global, list: &[u32]) -> Result<Members, OutOfMemory>
    requires { IsMemberList list.now }
    ensures { IfOk result (λ members. members ≡ list.now) }
{
    Ok(Members {
        form: from_members(alloc, list)?,
    })
}

/// The class of each member's variant at the place.
fn classes_at(
    alloc: Global,
    members: &[u32],
    table: &Variants,
    place: Place,
    class_of: &[u32],
) -> Result<Vec<u32>, OutOfMemory>
    requires { All (λ m. variant_of table.now m place.0 < length class_of.now) members.now }
    ensures { IfOk result (λ classes. classes.items ≡ map (class_at (variant_of table.now) place.0 class_of.now) members.now) }
{
    let mut classes = Vec::with_capacity(alloc, members.len())?;
    for m in members {
        let variant = table.variant(*m, place);
        classes.push(class_of[variant as usize])?;
    }
    Ok(classes)
}

/// Returns the sets of these lists of members.
fn sets_of(alloc: Global, lists: &[Items<u32>]) -> Result<Vec<Members>, OutOfMemory>
    requires { All IsMemberList lists.now }
    ensures { IfOk result (λ sets. sets.items ≡ lists.now) }
{
    let mut sets = Vec::with_capacity(alloc, lists.len() + 1)?;
    for list in lists {
        sets.push(set_of(alloc, list.as_slice())?)?;
    }
    Ok(sets)
}

/// The parts of the members of a rising list, in order of their least members: none where the list
/// is empty. There is room for one more.
fn parts_of(
    alloc: Global,
    members: &[u32],
    table: &Variants,
    place: Place,
    class_of: &[u32],
) -> Result<Vec<Members>, OutOfMemory>
    requires members { 0 < length members.now → IsMemberList members.now }
    requires within { All (λ m. variant_of table.now m place.0 < length class_of.now) members.now }
    ensures { IfOk result (λ parts. parts.items ≡ parts_by (class_at (variant_of table.now) place.0 class_of.now) members.now) }
{
    if members.is_empty() {
        return Ok(Vec::with_capacity(alloc, 1)?);
    }
    let classes = classes_at(alloc, members, table, place, class_of)?;
    let lists = lists_by(alloc, members, &classes)?;
    sets_of(alloc, &lists)
}

/// The index of the first set whose least member is above a number.
fn place_of(sets: &[Members], m: u32) -> usize
    ensures within { result ≤ length sets.now }
    ensures low { (k : ℕ) → k < result → slice_index (slice_index_or sets.now k []) 0 ≤ m }
    ensures high { result < length sets.now → m < slice_index (slice_index_or sets.now result []) 0 }
{
    for (at, set) in sets.iter().enumerate() {
        if set.least() > m {
            return at;
        }
    }
    sets.len()
}

/// The parts of a plane, in order of their least members. The members of the class of variant 0 are
/// those that are left where the others are taken out, and only the others are looked at one by one.
fn plane_parts(
    alloc: Global,
    plane: &Plane,
    table: &Variants,
    place: Place,
    class_of: &[u32],
) -> Result<Vec<Members>, OutOfMemory>
    requires list { IsMemberList plane.now }
    requires within { All (λ m. variant_of table.now m place.0 < length class_of.now) plane.now }
    ensures { IfOk result (λ parts. parts.items ≡ parts_by (class_at (variant_of table.now) place.0 class_of.now) plane.now) }
{
    let parted = plane.parted(alloc, table, place, class_of)?;
    let away = list_of(alloc, parted.first, &parted.away, 0)?;
    let mut parts = parts_of(alloc, &away, table, place, class_of)?;
    if !have_bit(&parted.home) {
        return Ok(parts);
    }
    let form = from_words(alloc, parted.first, &parted.home)?;
    let home = Members { form };
    let at = place_of(&parts, home.least());
    parts.insert(at, home)?;
    Ok(parts)
}
