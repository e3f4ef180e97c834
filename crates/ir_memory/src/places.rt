//! Where the globals of a module stand.
ghost use Rattle.std.specs.Prelude.{◌≡◌, ◌+◌, ◌<◌, ◌≤◌, ◌^◌, ◌++◌, ◌∷◌, [], All, List, map, false, IfOk, OnOk};
ghost use Rattle.am_base.specs.declared.limits.TheConstants.{MEMORY_BYTES};
ghost use Rattle.type_layout.specs.Layout as layout;
ghost use Rattle.type_layout.specs.Types.{size_of};
ghost use Rattle.ir_tree.specs.declared.item.Item.{Item};
ghost use Rattle.ir_names.specs.Names.{firsts};
ghost use Rattle.ir_rules.specs.Types.{expanded};
ghost use Rattle.ir_rules.specs.Memory.{place_of, end_from, places_from, constants_end, globals_end};
ghost use Rattle.ir_rules.specs.Memory as memory;
ghost use Rattle.ir_memory.specs.Places.{globals_by, named, one, placed};
ghost use Rattle.ir_memory.specs.Inits.{IsSmall, ItemIsSmall, PlacedIsSmall};

use crate::rooms::room_of;
use am_base::{FIRST_ADDRESS, OutOfMemory};
use am_lists::Items;
use ir_names::NameTable;
use ir_tree::{Init, Item, Name, TyText};
use ir_types::Types;
use std::alloc::Global;

/// A global with its address in bytes.
#[derive(Clone, Copy)]
pub struct Placed<'a> {
    pub at: u64,
    pub name: &'a Name,
    pub ty: &'a TyText,
    pub init: &'a Init,
}

/// Where the globals of a module stand. Addresses are in bytes.
#[derive(Drop)]
pub struct Places<'a> {
    /// The globals: the constants first, and both kinds in text order.
    pub list: Items<Placed<'a>>,
    /// Where the last constant ends.
    pub const_end: u64,
    /// Where the last global ends.
    pub end: u64,
}

/// Returns the least multiple of an alignment that is not below an address.
fn round_up(at: u64, align: u64) -> u64
    requires some { 0 < align }
    requires small { at + align < 2 ^ 64 }
    ensures value { result ≡ layout.round_up at align }
    ensures near { result < at + align }
{
    at + (align - at % align) % align
}

/// Appends a global at the first place for it that is not below an address; returns its end.
fn add_global<'a>(
    alloc: Global,
    types: &mut Types<'_>,
    list: &mut Items<Placed<'a>>,
    at: u64,
    global: (&'a Name, &'a TyText, &'a Init),
) -> Result<u64, OutOfMemory>
    requires small { IsSmall types.old.defs global.1.now global.2.now }
    requires room { at ≤ MEMORY_BYTES }
    requires before { All (PlacedIsSmall types.old.defs) list.old }
    ensures defs { types.new.defs ≡ types.old.defs }
    ensures small { OnOk result (All (PlacedIsSmall types.old.defs) list.new) }
    ensures list { let g = one global.entry.0.now global.entry.1.now global.entry.2.now in
        OnOk result (map placed list.new ≡ map placed list.old ++ (place_of types.old.defs at g, g) ∷ []) }
    ensures end { let g = one global.entry.0.now global.entry.1.now global.entry.2.now in
        IfOk result (λ e. e ≡ place_of types.old.defs at g + size_of (expanded types.old.defs global.entry.1.now)) }
{
    let (name, ty, init) = global;
    let room = room_of(alloc, types, ty)?;
    let at = round_up(at, room.1);
    list.push(Placed { at, name, ty, init })?;
    Ok(at + room.0)
}

/// Appends an item that is a global and constant or not, as it is asked for; returns its end.
fn add_item<'a>(
    alloc: Global,
    types: &mut Types<'_>,
    list: &mut Items<Placed<'a>>,
    at: u64,
    item: &'a Item,
    constant: bool,
) -> Result<u64, OutOfMemory>
    requires small { ItemIsSmall types.old.defs item.now }
    requires room { at ≤ MEMORY_BYTES }
    requires before { All (PlacedIsSmall types.old.defs) list.old }
    ensures defs { types.new.defs ≡ types.old.defs }
    ensures small { OnOk result (All (PlacedIsSmall types.old.defs) list.new) }
    ensures list { IfOk result (λ e. (rest : List Item) →
        map placed list.new ++ places_from types.old.defs e (globals_by constant rest)
        ≡ map placed list.old ++ places_from types.old.defs at (globals_by constant (item.now ∷ rest))) }
    ensures end { IfOk result (λ e. (rest : List Item) → end_from types.old.defs e (globals_by constant rest)
        ≡ end_from types.old.defs at (globals_by constant (item.now ∷ rest))) }
{
    if let Item::Global(name, is_constant, ty, init) = item {
        if *is_constant == constant {
            return add_global(alloc, types, list, at, (name, ty, init));
        }
    }
    Ok(at)
}

/// Appends the globals among some items that are constant or not, as it is asked for, from an
/// address on; returns where they end. O(n) expected in what is written.
fn add_globals<'a>(
    alloc: Global,
    types: &mut Types<'_>,
    list: &mut Items<Placed<'a>>,
    at: u64,
    items: &'a [Item],
    constant: bool,
) -> Result<u64, OutOfMemory>
    requires small { All (ItemIsSmall types.old.defs) items.now }
    requires room { end_from types.old.defs at (globals_by constant items.now) ≤ MEMORY_BYTES }
    requires before { All (PlacedIsSmall types.old.defs) list.old }
    ensures defs { types.new.defs ≡ types.old.defs }
    ensures small { OnOk result (All (PlacedIsSmall types.old.defs) list.new) }
    ensures list { OnOk result (map placed list.new
        ≡ map placed list.old ++ places_from types.old.defs at (globals_by constant items.now)) }
    ensures end { IfOk result (λ e. e ≡ end_from types.old.defs at (globals_by constant items.now)) }
{
    let mut end = at;
    'each: for item in items {
        end = add_item(alloc, types, list, end, item, constant)?;
    }
    Ok(end)
}

/// Returns where the globals of a module stand, which need no more than the memory. No type that is
/// written in one of its items is larger than `MAX_TYPE_BYTES`. O(n) expected in what is written.
pub fn places_of<'a>(
    alloc: Global,
    types: &mut Types<'_>,
    items: &'a [Item],
) -> Result<Places<'a>, OutOfMemory>
    requires small { All (ItemIsSmall types.old.defs) items.now }
    requires room { globals_end types.old.defs items.now ≤ MEMORY_BYTES }
    ensures defs { types.new.defs ≡ types.old.defs }
    ensures small { IfOk result (λ ps. All (PlacedIsSmall types.old.defs) ps.list) }
    ensures list { IfOk result (λ ps. map placed ps.list ≡ memory.places_of types.old.defs items.now) }
    ensures constants { IfOk result (λ ps. ps.const_end ≡ constants_end types.old.defs items.now) }
    ensures end { IfOk result (λ ps. ps.end ≡ globals_end types.old.defs items.now) }
{
    let mut list = Items::new(alloc);
    let start = u64::from(FIRST_ADDRESS);
    let const_end = add_globals(alloc, types, &mut list, start, items, true)?;
    let end = add_globals(alloc, types, &mut list, const_end, items, false)?;
    Ok(Places {
        list,
        const_end,
        end,
    })
}

/// Returns the addresses of globals by name; of a name that is defined twice the first one counts.
/// O(n) expected.
pub fn addresses_of(alloc: Global, list: &[Placed<'_>]) -> Result<NameTable<u64>, OutOfMemory>
    ensures { IfOk result (λ table. table ≡ firsts (map named (map placed list.now))) }
{
    let mut table = NameTable::new(alloc);
    'each: for global in list {
        table.add(alloc, global.name, global.at)?;
    }
    Ok(table)
}

/// Returns where the stack begins: at the next multiple of 16 behind the globals.
pub fn stack_base_of(end: u64) -> u64
    requires { end ≤ MEMORY_BYTES }
    ensures { result ≡ layout.round_up end 16 }
{
    round_up(end, 16)
}
