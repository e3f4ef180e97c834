//! The bytes of a memory before a run.
ghost use Rattle.std.specs.Prelude.{◌≡◌, ◌≤◌, All, List, [], map, IfOk, OnOk};
ghost use Rattle.std.specs.List.{fold};
ghost use Rattle.am_base.specs.declared.limits.TheConstants.{MEMORY_BYTES};
ghost use Rattle.ir_tree.specs.declared.item.Item.{Item};
ghost use Rattle.ir_tree.specs.declared.name.Name.{Name};
ghost use Rattle.ir_rules.specs.Memory.{with_global, address_in, globals_end};
ghost use Rattle.ir_rules.specs.Memory as memory;
ghost use Rattle.ir_memory.specs.Places.{placed};
ghost use Rattle.ir_memory.specs.Inits.{PlacedIsSmall};

use crate::bytes::pad_to;
use crate::inits::write_init;
use crate::places::{Placed, Places, stack_base_of};
use am_base::OutOfMemory;
use am_lists::{Bytes, Items};
use ir_op_codes::Names;
use ir_types::Types;
use std::alloc::Global;

/// Appends zeros up to the address of a global, and the bytes that it begins with.
fn write_global(
    alloc: Global,
    types: &mut Types<'_>,
    names: &Names<'_>,
    buffer: &mut Bytes,
    global: &Placed<'_>,
) -> Result<(), OutOfMemory>
    requires { PlacedIsSmall types.old.defs global.now }
    ensures defs { types.new.defs ≡ types.old.defs }
    ensures bytes { OnOk result (buffer.new
        ≡ with_global types.old.defs names.now.addresses.now buffer.old (placed global.now)) }
{
    pad_to(buffer, 0, global.at)?;
    write_init(alloc, types, names, buffer, global.ty, global.init)?;
    Ok(())
}

fn write_globals(
    alloc: Global,
    types: &mut Types<'_>,
    names: &Names<'_>,
    list: &[Placed<'_>],
) -> Result<Bytes, OutOfMemory>
    requires { All (PlacedIsSmall types.old.defs) list.now }
    ensures defs { types.new.defs ≡ types.old.defs }
    ensures bytes { IfOk result (λ bytes. bytes
        ≡ fold (with_global types.old.defs names.now.addresses.now) [] (map placed list.now)) }
{
    let mut buffer = Items::new(alloc);
    'each: for global in list {
        write_global(alloc, types, names, &mut buffer, global)?;
    }
    Ok(buffer)
}

/// Returns the bytes of the memory of a module before a run, from address 0 to below the stack,
/// where its globals stand in these places and names have their addresses. O(n) expected in what is
/// written and in the bytes.
pub fn opening_bytes(
    alloc: Global,
    types: &mut Types<'_>,
    names: &Names<'_>,
    places: &Places<'_>,
) -> Result<Bytes, OutOfMemory>
    requires small { All (PlacedIsSmall types.old.defs) places.now.list }
    requires room { places.now.end ≤ MEMORY_BYTES }
    ensures defs { types.new.defs ≡ types.old.defs }
    ensures bytes { (items : List Item) → map placed places.now.list ≡ memory.places_of types.old.defs items
        → places.now.end ≡ globals_end types.old.defs items
        → ((n : Name) → address_in names.now.addresses.now n
        ≡ address_in (memory.addresses_of types.old.defs items) n)
        → IfOk result (λ bytes. bytes ≡ memory.opening_bytes types.old.defs items) }
{
    let mut buffer = write_globals(alloc, types, names, places.list.as_slice())?;
    pad_to(&mut buffer, 0, stack_base_of(places.end))?;
    Ok(buffer)
}
