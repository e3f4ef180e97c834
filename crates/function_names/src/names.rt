//! The map from names to functions.

ghost use Rattle.std.specs.Prelude.{◌≡◌, ℕ, ◌<◌, List, length, slice_get, Some, IfOk, IfSome, OnOk};
ghost use Rattle.std.specs.Option.{option_copied};
ghost use Rattle.code_form.specs.Sound.{IsSound};
ghost use Rattle.function_names.specs.Names.{Adds, function_named, number_in};

use am_base::OutOfMemory;
use am_lists::Bytes;
use code_form::Code;
use indexmap::IndexMap;
use std::alloc::Global;
use std::marker::Model;

/// The number of each function of a code, by its name. Contracts see the names with their numbers.
#[derive(Drop)]
pub struct FunctionNames {
    map: IndexMap<Bytes, u32>,
}

impl Model for FunctionNames {
    ghost use Rattle.function_names.specs.Names.{Numbers};

    ghost Value = { Numbers };

    ghost view = { λ t. t.map.entries };
}

impl FunctionNames {
    /// Returns the names of the functions of a code.
    pub fn new(alloc: Global, code: &Code) -> Result<FunctionNames, OutOfMemory>
        requires { IsSound code.now }
        ensures { IfOk result (λ names. (name : List ℕ) → number_in names name ≡ function_named code.now name) }
    {
        let mut map = IndexMap::new(alloc);
        'each: for (number, f) in code.funcs.as_slice().iter().enumerate() {
            add_name(alloc, &mut map, &f.name, number as u32)?;
        }
        Ok(FunctionNames { map })
    }

    /// Returns the number of the function with a name; `None` iff there is none. O(1) but for the
    /// hashing.
    pub fn find(&self, name: &Bytes) -> Option<u32>
        ensures { result ≡ number_in self.now name.now }
    {
        self.map.get(name).copied()
    }
}

/// Gives a name its number, unless it has one.
fn add_name(
    alloc: Global,
    map: &mut IndexMap<Bytes, u32>,
    name: &Bytes,
    number: u32,
) -> Result<(), OutOfMemory>
    ensures { OnOk result (Adds map.old.entries name.now number map.new.entries) }
{
    if map.contains_key(name) {
        return Ok(());
    }
    map.insert(name.copy(alloc)?, number)?;
    Ok(())
}
