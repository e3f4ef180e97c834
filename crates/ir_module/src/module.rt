//! The code of a module.
ghost use Rattle.std.specs.Prelude.{◌≡◌, ◌<◌, ◌≤◌, ◌^◌, All, List, None, false, length, map, IfOk, OnOk};
ghost use Rattle.am_base.specs.declared.limits.TheConstants.{MAX_FILE_BYTES, MEMORY_BYTES};
ghost use Rattle.ir_tree.specs.declared.item.Item.{Item};
ghost use Rattle.ir_names.specs.Names.{firsts};
ghost use Rattle.ir_rules.specs.Entities as entities;
ghost use Rattle.ir_rules.specs.Memory as memory;
ghost use Rattle.ir_rules.specs.Modules as spec;
ghost use Rattle.ir_rules.specs.Rules.{fault};
ghost use Rattle.ir_rules.specs.Types.{type_defs, kind_of};
ghost use Rattle.ir_scopes.specs.Kinds.{kind_in};
ghost use Rattle.ir_pass.specs.Frames.{no_frame};
ghost use Rattle.ir_pass.specs.Heads.{opened};
ghost use Rattle.ir_sound.specs.Whole.{AreWhole};
ghost use Rattle.ir_memory.specs.Places.{placed};
ghost use Rattle.ir_memory.specs.Inits.{PlacedIsSmall};
ghost use Rattle.ir_module.specs.Parts.{no_parts, with_memory};

use crate::parts::{Parts, add_item, nothing};
use crate::signs::copies;
use crate::tables::Tables;
use am_base::OutOfMemory;
use am_lists::Bytes;
use code_form::{Code, PortSign};
use ir_call_rules::Ports;
use ir_memory::{Places, addresses_of, opening_bytes, places_of, stack_base_of};
use ir_names::NameTable;
use ir_op_codes::Names;
use ir_pass::{Frame, closed_frame, enter, is_end, is_head, leave, step};
use ir_rules::Entity;
use ir_scopes::{KindTable, entities_of};
use ir_tree::Item;
use ir_types::Types;
use std::alloc::Global;

fn opens(inside: bool, item: &Item) -> bool
    ensures { result ≡ opened inside item.now }
{
    is_head(item) || (inside && !is_end(item))
}

/// Appends the functions and the instructions of a module without a fault. `frame` knows of no item
/// yet, and there are no `parts`; they are lent, so that no way out of the pass lets them go.
fn add_items(
    alloc: Global,
    types: &mut Types<'_>,
    tables: &Tables<'_>,
    frame: &mut Frame,
    parts: &mut Parts,
    items: &[Item],
) -> Result<(), OutOfMemory>
    requires whole { AreWhole false items.now }
    requires few { length items.now ≤ MAX_FILE_BYTES }
    requires faultless { fault items.now tables.now.ports.now ≡ None }
    requires types { types.old.defs ≡ type_defs items.now }
    requires kinds { kind_in tables.now.kinds.now.names ≡ kind_of (type_defs items.now) }
    requires entities { tables.now.entities.now
        ≡ firsts (entities.entities_of (kind_of (type_defs items.now)) items.now) }
    requires addresses { tables.now.addresses.now
        ≡ firsts (memory.addresses_of (type_defs items.now) items.now) }
    requires frame { frame.old ≡ no_frame }
    requires parts { parts.old ≡ no_parts }
    ensures defs { types.new.defs ≡ types.old.defs }
    ensures funcs { OnOk result (parts.new.funcs ≡ spec.functions_from (type_defs items.now) 0 items.now) }
    ensures instrs { let addresses = memory.addresses_of (type_defs items.now) items.now in
        OnOk result (parts.new.instrs ≡ spec.instrs_from items.now tables.now.ports.now addresses 0 items.now) }
    ensures results { OnOk result (parts.new.results ≡ spec.results_from items.now tables.now.ports.now 0 items.now) }
{
    let mut inside = false;
    'each: for (i, item) in items.iter().enumerate() {
        enter(alloc, tables.kinds, frame, &items[i..])?;
        add_item(alloc, types, tables, parts, frame, item)?;
        step(alloc, tables.kinds, frame, item)?;
        inside = opens(inside, item);
        leave(alloc, frame, inside, item);
    }
    Ok(())
}

/// Returns the functions and the instructions of a module without a fault. It takes time about
/// linear in the items.
fn parts_of(
    alloc: Global,
    types: &mut Types<'_>,
    tables: &Tables<'_>,
    items: &[Item],
) -> Result<Parts, OutOfMemory>
    requires whole { AreWhole false items.now }
    requires few { length items.now ≤ MAX_FILE_BYTES }
    requires faultless { fault items.now tables.now.ports.now ≡ None }
    requires types { types.old.defs ≡ type_defs items.now }
    requires kinds { kind_in tables.now.kinds.now.names ≡ kind_of (type_defs items.now) }
    requires entities { tables.now.entities.now
        ≡ firsts (entities.entities_of (kind_of (type_defs items.now)) items.now) }
    requires addresses { tables.now.addresses.now
        ≡ firsts (memory.addresses_of (type_defs items.now) items.now) }
    ensures defs { types.new.defs ≡ types.old.defs }
    ensures funcs { IfOk result (λ p. p.funcs ≡ spec.functions_from (type_defs items.now) 0 items.now) }
    ensures instrs { let addresses = memory.addresses_of (type_defs items.now) items.now in
        IfOk result (λ p. p.instrs ≡ spec.instrs_from items.now tables.now.ports.now addresses 0 items.now) }
    ensures results { IfOk result (λ p. p.results ≡ spec.results_from items.now tables.now.ports.now 0 items.now) }
{
    let mut frame = closed_frame(alloc);
    let mut parts = nothing(alloc);
    add_items(alloc, types, tables, &mut frame, &mut parts, items)?;
    Ok(parts)
}

/// Returns the bytes that a module begins with, where its globals stand in these places.
fn memory_of(
    alloc: Global,
    types: &mut Types<'_>,
    tables: &Tables<'_>,
    places: &Places<'_>,
) -> Result<Bytes, OutOfMemory>
    requires small { All (PlacedIsSmall types.old.defs) places.now.list }
    requires room { places.now.end ≤ MEMORY_BYTES }
    ensures defs { types.new.defs ≡ types.old.defs }
    ensures bytes { (items : List Item) → map placed places.now.list ≡ memory.places_of types.old.defs items
        → places.now.end ≡ memory.globals_end types.old.defs items
        → tables.now.addresses.now ≡ firsts (memory.addresses_of types.old.defs items)
        → IfOk result (λ bytes. bytes ≡ memory.opening_bytes types.old.defs items) }
{
    let locals = NameTable::new(alloc);
    let names = Names {
        locals: &locals,
        entities: tables.entities,
        ports: tables.ports,
        addresses: tables.addresses,
    };
    let bytes = opening_bytes(alloc, types, &names, places);
    let Names {
        locals: _,
        entities: _,
        ports: _,
        addresses: _,
    } = names;
    bytes
}

/// Returns a code that has these parts, where the globals stand in these places.
fn joined(
    alloc: Global,
    parts: Parts,
    memory: Bytes,
    places: &Places<'_>,
    signs: &[PortSign],
) -> Result<Code, OutOfMemory>
    requires constants { places.now.const_end ≤ MEMORY_BYTES }
    requires room { places.now.end ≤ MEMORY_BYTES }
    ensures { IfOk result (λ code. code ≡ with_memory parts memory places.now signs.now) }
{
    let signs = copies(alloc, signs)?;
    let stack_base = stack_base_of(places.end);
    Ok(Code {
        funcs: parts.funcs,
        instrs: parts.instrs,
        results: parts.results,
        memory,
        const_end: places.const_end as u32,
        stack_base: stack_base as u32,
        signs,
    })
}

/// Returns the code of a module without a fault by what its names stand for and where its globals
/// stand. It takes time about linear in the module and in the bytes of its globals.
fn code_by(
    alloc: Global,
    types: &mut Types<'_>,
    tables: &Tables<'_>,
    places: &Places<'_>,
    items: &[Item],
    signs: &[PortSign],
) -> Result<Code, OutOfMemory>
    requires whole { AreWhole false items.now }
    requires few { length items.now ≤ MAX_FILE_BYTES }
    requires faultless { fault items.now signs.now ≡ None }
    requires ports { tables.now.ports.now ≡ signs.now }
    requires types { types.old.defs ≡ type_defs items.now }
    requires kinds { kind_in tables.now.kinds.now.names ≡ kind_of (type_defs items.now) }
    requires entities { tables.now.entities.now
        ≡ firsts (entities.entities_of (kind_of (type_defs items.now)) items.now) }
    requires addresses { tables.now.addresses.now
        ≡ firsts (memory.addresses_of (type_defs items.now) items.now) }
    requires small { All (PlacedIsSmall (type_defs items.now)) places.now.list }
    requires list { map placed places.now.list ≡ memory.places_of (type_defs items.now) items.now }
    requires constants { places.now.const_end ≡ memory.constants_end (type_defs items.now) items.now }
    requires end { places.now.end ≡ memory.globals_end (type_defs items.now) items.now }
    ensures { IfOk result (λ code. code ≡ spec.code_of items.now signs.now) }
{
    let memory = memory_of(alloc, types, tables, places)?;
    let parts = parts_of(alloc, types, tables, items)?;
    joined(alloc, parts, memory, places, signs)
}

/// Returns the code of a module without a fault by its types and by what its global names are. It
/// takes time about linear in the module and in the bytes of its globals.
fn placed_code(
    alloc: Global,
    types: &mut Types<'_>,
    kinds: &KindTable,
    globals: &NameTable<Entity>,
    ports: &Ports<'_>,
    items: &[Item],
    signs: &[PortSign],
) -> Result<Code, OutOfMemory>
    requires whole { AreWhole false items.now }
    requires few { length items.now ≤ MAX_FILE_BYTES }
    requires faultless { fault items.now signs.now ≡ None }
    requires ports { ports.now ≡ signs.now }
    requires types { types.old.defs ≡ type_defs items.now }
    requires kinds { kind_in kinds.now.names ≡ kind_of (type_defs items.now) }
    requires globals { globals.now
        ≡ firsts (entities.entities_of (kind_of (type_defs items.now)) items.now) }
    ensures { IfOk result (λ code. code ≡ spec.code_of items.now signs.now) }
{
    let places = places_of(alloc, types, items)?;
    let addresses = addresses_of(alloc, places.list.as_slice())?;
    let tables = Tables {
        kinds,
        entities: globals,
        ports,
        addresses: &addresses,
    };
    code_by(alloc, types, &tables, &places, items, signs)
}

/// Returns the code of a module without a fault: each name in it is replaced by the number of a
/// register, a block, a function or a port, or by an address. It takes time about linear in the
/// module and in the bytes of its globals.
///
/// The items are those that are read from a text, of which there are at most as many as the text
/// has bytes.
pub fn module_code(alloc: Global, items: &[Item], signs: &[PortSign]) -> Result<Code, OutOfMemory>
    requires whole { AreWhole false items.now }
    requires few { length items.now ≤ MAX_FILE_BYTES }
    requires signs { length signs.now < 2 ^ 32 }
    requires faultless { fault items.now signs.now ≡ None }
    ensures { IfOk result (λ code. code ≡ spec.code_of items.now signs.now) }
{
    let mut types = Types::of(alloc, items)?;
    let kinds = types.kinds(alloc)?;
    let entities = entities_of(alloc, &kinds, items)?;
    let ports = Ports::new(alloc, signs)?;
    placed_code(alloc, &mut types, &kinds, &entities, &ports, items, signs)
}
