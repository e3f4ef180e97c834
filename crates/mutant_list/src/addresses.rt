//! The addresses of the globals of a module.
ghost use Rattle.std.specs.Prelude.{◌≤◌, All, IfOk};
ghost use Rattle.am_base.specs.declared.limits.TheConstants.{MEMORY_BYTES};
ghost use Rattle.ir_rules.specs.Memory as memory;
ghost use Rattle.ir_rules.specs.Types.{type_defs};
ghost use Rattle.ir_memory.specs.Inits.{ItemIsSmall};
ghost use Rattle.ir_op_codes.specs.Alone.{AreSame};

use am_base::OutOfMemory;
use ir_memory::{addresses_of, places_of};
use ir_names::NameTable;
use ir_tree::Item;
use ir_types::Types;
use std::alloc::Global;

/// Returns the addresses of the globals of a module, by their names. O(n) in the items.
pub(crate) fn addresses_in(alloc: Global, items: &[Item]) -> Result<NameTable<u64>, OutOfMemory>
    requires small { All (ItemIsSmall (type_defs items.now)) items.now }
    requires room { memory.globals_end (type_defs items.now) items.now ≤ MEMORY_BYTES }
    ensures { IfOk result (λ table. AreSame table (memory.addresses_of (type_defs items.now) items.now)) }
{
    let mut types = Types::of(alloc, items)?;
    let places = places_of(alloc, &mut types, items)?;
    let table = addresses_of(alloc, places.list.as_slice())?;
    Ok(table)
}
