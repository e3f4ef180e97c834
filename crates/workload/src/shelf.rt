//! The files of a workload, as a shelf.

ghost use Rattle.std.specs.Prelude.{◌≡◌, ◌-◌, length, take, drop, min, IfOk, Some};
ghost use Rattle.std.specs.Option.{option_copied};
ghost use Rattle.workload.specs.Workload.{fault_count, file_in, texts_of};

use crate::module::module_text;
use crate::mutants::mutants_text;
use am_base::{OutOfMemory, Shelf, ShelfFault};
use am_lists::Bytes;
use std::alloc::Global;
use std::marker::Model;

/// The name of the module.
pub const MODULE: &str = "module";
/// The name of the list of mutants.
pub const MUTANTS: &str = "mutants";
/// The name of the suite.
pub const TESTS: &str = "tests";

/// A shelf that holds a module, a list of its mutants and a suite, by the names `MODULE`, `MUTANTS`
/// and `TESTS`. It tells its files, and no read of one of them fails; other names are missing.
#[derive(Drop)]
pub struct Workload {
    module: Bytes,
    mutants: Bytes,
    tests: Bytes,
}

impl Model for Workload {
    ghost use Rattle.workload.specs.Workload.{Texts};

    ghost Value = { Texts };

    ghost view = { λ w. record { «module» = w.module; mutants = w.mutants; tests = w.tests } };
}

impl Workload {
    /// The workload of a number: a module with a function `l` of 1,004 instructions in a loop of 99
    /// rounds, 2,000 mutants, and one test `load` with a budget of 100,000 changes.
    ///
    /// Of the mutants of the masks `%x0` to `%x999` each second one takes a remainder by 1000, which
    /// changes no value, and by 10 for the masks whose number plus `n` is a multiple of 100. `n` is
    /// any number; refuses for want of memory alone.
    pub fn of(alloc: Global, n: u64) -> Result<Workload, OutOfMemory>
        ensures { IfOk result (λ w. w ≡ texts_of n) }
    {
        Ok(Workload {
            module: module_text(alloc)?,
            mutants: mutants_text(alloc, n)?,
            tests: Bytes::from_slice(
                alloc,
                b"name;function;arguments;input;budget;expected\nload;l;;;100000;\n",
            )?,
        })
    }

    /// The bytes of the file of a name.
    fn file(&self, name: &str) -> Option<&[u8]>
        ensures { option_copied result ≡ file_in self.now name.now }
    {
        if name == MODULE {
            Some(self.module.as_slice())
        } else if name == MUTANTS {
            Some(self.mutants.as_slice())
        } else if name == TESTS {
            Some(self.tests.as_slice())
        } else {
            None
        }
    }
}

/// Copies a file's bytes from an offset into the front of a buffer, as many as there are and have
/// room, and returns how many.
fn copy_piece(file: &[u8], from: u64, into: &mut [u8]) -> usize
    ensures count { result ≡ min (length into.old) (length file.now - from) }
    ensures bytes { take result into.new ≡ take result (drop from file.now) }
{
    let start = file.len().min(from as usize);
    let rest = &file[start..];
    let count = into.len().min(rest.len());
    into[..count].copy_from_slice(&rest[..count]);
    count
}

impl Shelf for Workload {
    ghost files = { λ w. Some (file_in w) };

    ghost faults = { fault_count };

    fn read_at(&mut self, name: &str, from: u64, into: &mut [u8]) -> Result<usize, ShelfFault> {
        match self.file(name) {
            None => Err(ShelfFault::Missing),
            Some(file) => Ok(copy_piece(file, from, into)),
        }
    }
}
