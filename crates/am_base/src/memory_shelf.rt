//! A shelf in memory, with calls that fail by number.

ghost use Rattle.std.specs.Prelude.{◌≡◌, ℕ, ◌+◌, ◌-◌, ◌^◌, ◌<◌, ◌≤◌, ◌↔◌, List, [], length, take, drop, min, Some, None, IsSome, IfOk, OnOk, OnErr, IsTrue, not, string_bytes};
ghost use Rattle.std.specs.Option.{option_copied};
ghost use Rattle.am_base.specs.Cause.{Rose};
ghost use Rattle.am_base.specs.Files.{calls_after, fault_count, file_in, file_list, is_next_listed, option_bytes};

use crate::shelf::{Shelf, ShelfFault};
use std::marker::Model;

/// A shelf in memory, whose calls of chosen numbers fail. It tells its files. The faults of a name
/// are the calls so far that were to fail, and for a name that isn't held all calls so far.
#[derive(Drop)]
pub struct MemoryShelf {
    files: Vec<(String, Vec<u8>)>,
    failing: Vec<u64>,
    calls: u64,
}

impl Model for MemoryShelf {
    ghost use Rattle.am_base.specs.Files.{MemoryFiles, file_list};

    ghost Value = { MemoryFiles };

    ghost view = { λ shelf. record {
      files = file_list shelf.files.items;
      failing = shelf.failing.items;
      calls = shelf.calls;
    } };
}

impl MemoryShelf {
    /// A shelf of these files, of which the first of a name is held. Its calls are numbered from 1,
    /// and those whose number is in `failing` fail. It takes no memory.
    #[tactic(auto, unfolding(crate::specs::Files::listed_calls))]
    pub fn new(files: Vec<(String, Vec<u8>)>, failing: Vec<u64>) -> MemoryShelf
        ensures files { result.files ≡ file_list files.items }
        ensures failing { result.failing ≡ failing.items }
        ensures calls { result.calls ≡ 0 }
        ensures counts { (name : List ℕ) → fault_count result name ≡ 0 }
    {
        MemoryShelf {
            files,
            failing,
            calls: 0,
        }
    }

    /// Counts a call, and says whether it is to fail. A call past the number 2^64 - 1 has no number
    /// and doesn't.
    fn count_call(&mut self) -> bool
        ensures fits { self.old.calls < 2 ^ 64 }
        ensures listed { result ≡ is_next_listed self.old }
        ensures call { self.new ≡ record self.old { calls = calls_after self.old } }
    {
        match self.calls.checked_add(1) {
            None => false,
            Some(number) => {
                self.calls = number;
                self.failing.contains(&number)
            }
        }
    }
}

/// The bytes of the first file of a name.
fn find_file<'a>(files: &'a [(String, Vec<u8>)], name: &str) -> Option<&'a Vec<u8>>
    ensures { option_bytes (option_copied result) ≡ file_in (file_list files.now) name.now }
{
    for (key, file) in files {
        if key.as_str() == name {
            return Some(file);
        }
    }
    None
}

/// Copies a file's bytes from a place into the front of a buffer, as many as there are and have
/// room, and answers how many.
fn copy_piece(file: &[u8], from: u64, into: &mut [u8]) -> usize
    ensures count { result ≡ min (length into.old) (length file.now - from) }
    ensures bytes { take result into.new ≡ take result (drop from file.now) }
{
    let start = file.len().min(from as usize);
    let rest = &file[start..];
    let count = into.len().min(rest.len());
    into[..count].copy_from_slice(&rest[..count]);
    count
}

impl Shelf for MemoryShelf {
    ghost files = { λ memory. Some (file_in memory.files) };

    ghost faults = { fault_count };

    /// Fails exactly in the calls that are to fail. Of the others exactly those with a name that
    /// isn't held miss.
    fn read_at(&mut self, name: &str, from: u64, into: &mut [u8]) -> Result<usize, ShelfFault>
        ensures within { IfOk result (λ count. count ≤ length into.old) }
        ensures held { OnOk result (IsSome (file_in self.old.files name.now)) }
        ensures bytes { IfOk result (λ count. (file : List ℕ) →
            file_in self.old.files name.now ≡ Some file → take count into.new ≡ take count (drop from file)) }
        ensures some { IfOk result (λ count. (file : List ℕ) →
            file_in self.old.files name.now ≡ Some file →
            from < length file → 0 < length into.old → 0 < count) }
        ensures missing { result ≡ Err ShelfFault.Missing → file_in self.old.files name.now ≡ None }
        ensures cause { OnErr result
            (Rose (fault_count self.old name.now) (fault_count self.new name.now)) }
        ensures kept { Some (file_in self.new.files) ≡ Some (file_in self.old.files) }
        ensures counts { (other : List ℕ) → fault_count self.old other ≤ fault_count self.new other }

        // Each outcome exactly.
        ensures failed { (result ≡ Err ShelfFault.Failed) ↔ IsTrue (is_next_listed self.old) }
        ensures missed { (result ≡ Err ShelfFault.Missing) ↔
            (IsTrue (not (is_next_listed self.old)) × (file_in self.old.files name.now ≡ None)) }
        ensures count { IfOk result (λ count. (file : List ℕ) →
            file_in self.old.files name.now ≡ Some file →
            count ≡ min (length into.old) (length file - from)) }
        ensures call { self.new ≡ record self.old { calls = calls_after self.old } }
    {
        if self.count_call() {
            return Err(ShelfFault::Failed);
        }
        match find_file(&self.files, name) {
            None => Err(ShelfFault::Missing),
            Some(file) => Ok(copy_piece(file, from, into)),
        }
    }
}
