//! How the members of a set are kept.

ghost use Rattle.std.specs.Prelude.{◌≡◌, ◌↔◌, ℕ, ◌+◌, ◌*◌, ◌<◌, ◌≤◌, length, slice_index, IfOk, IsTrue};
ghost use Rattle.am_base.specs.declared.limits.TheConstants.{MAX_MUTANTS};
ghost use Rattle.member_sets.specs.Members.{IsMemberList};
ghost use Rattle.member_sets.specs.Planes.{numbers_in};
ghost use Rattle.member_sets.specs.Seen.{seen};

use crate::plane::Plane;
use crate::words::{count, end_of, list_of, words_of, zeros_before};
use am_base::OutOfMemory;
use am_lists::Items;
use std::alloc::Global;
use std::rc::Rc;

/// One member, a rising list, or a plane of bits: of the last two the one that takes fewer bytes.
#[derive(Debug, Drop)]
pub enum Form {
    Single(u32),
    Listed(Rc<Items<u32>>),
    Bits(Rc<Plane>),
}

/// Whether a list of so many members takes no more bytes than a plane of so many words: 4 a member,
/// and 10 a word and some 40 more.
fn is_list_leaner(members: usize, words: usize) -> bool
    requires members { members ≤ MAX_MUTANTS }
    requires words { words ≤ MAX_MUTANTS }
    ensures { IsTrue result ↔ 4 * members ≤ 10 * words + 40 }
{
    4 * members <= 10 * words + 40
}

/// Keeps a list.
fn listed(alloc: Global, list: Items<u32>) -> Result<Form, OutOfMemory>
    ensures { IfOk result (λ form. seen form ≡ list) }
{
    if list.len() == 1 {
        return Ok(Form::Single(list.as_slice()[0]));
    }
    Ok(Form::Listed(Rc::new(alloc, list)?))
}

/// Keeps these members.
pub fn from_members(alloc: Global, members: &[u32]) -> Result<Form, OutOfMemory>
    requires { IsMemberList members.now }
    ensures { IfOk result (λ form. seen form ≡ members.now) }
{
    if members.len() == 1 {
        return Ok(Form::Single(members[0]));
    }
    let first = members[0] / 64;
    let words = (members[members.len() - 1] / 64 - first) as usize + 1;
    if is_list_leaner(members.len(), words) {
        return listed(alloc, Items::from_slice(alloc, members)?);
    }
    let words = words_of(alloc, first, words, members)?;
    Ok(Form::Bits(Rc::new(alloc, Plane::new(alloc, first, words)?)?))
}

/// Keeps the numbers of the bits of these words, of which the first isn't 0.
fn from_first(alloc: Global, first: u32, words: &[u64]) -> Result<Form, OutOfMemory>
    requires few { 64 * (first + length words.now) ≤ MAX_MUTANTS }
    requires some { 0 < slice_index words.now 0 }
    ensures { IfOk result (λ form. seen form ≡ numbers_in first words.now) }
{
    let len = count(words) as usize;
    if is_list_leaner(len, words.len()) {
        return listed(alloc, Items::from_vec(list_of(alloc, first, words, len)?));
    }
    let words = Vec::from_slice(alloc, words)?;
    Ok(Form::Bits(Rc::new(alloc, Plane::new(alloc, first, words)?)?))
}

/// Keeps the numbers of the bits of these words, one at least. Words of 0 at the ends are left out.
pub fn from_words(alloc: Global, first: u32, words: &[u64]) -> Result<Form, OutOfMemory>
    requires few { 64 * (first + length words.now) ≤ MAX_MUTANTS }
    requires some { 0 < length (numbers_in first words.now) }
    ensures { IfOk result (λ form. seen form ≡ numbers_in first words.now) }
{
    let zeros = zeros_before(words);
    let end = end_of(words, zeros);
    let kept = &words[zeros..end];
    from_first(alloc, first + zeros as u32, kept)
}
