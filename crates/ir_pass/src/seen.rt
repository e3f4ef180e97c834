//! What the items before an item define in the module, and how many there are.
ghost use Rattle.std.specs.Prelude.{◌≡◌, ◌<◌, ◌^◌, ◌-◌, ◌+◌, IfOk, OnOk};
ghost use Rattle.ir_pass.specs.Seen as spec;

use am_base::{
    MAX_FUNCTION_REGISTERS, MAX_FUNCTIONS, MAX_INSTRUCTIONS, MAX_TYPE_DEFINITIONS, OutOfMemory,
};
use ir_call_rules::name_bytes;
use ir_names::NameTable;
use ir_tree::{Item, Name};
use std::alloc::Global;

/// What some items define in their module, and how many there are.
#[derive(Drop)]
pub struct Seen {
    /// The names of types.
    pub types: NameTable<()>,
    /// The names of variables and functions, each by its bytes.
    pub globals: NameTable<()>,
    pub definitions: usize,
    pub functions: usize,
    pub instructions: usize,
}

/// Returns what no items define. It takes no memory.
pub fn nothing_seen(alloc: Global) -> Seen
    ensures { result ≡ spec.no_seen }
{
    Seen {
        types: NameTable::new(alloc),
        globals: NameTable::new(alloc),
        definitions: 0,
        functions: 0,
        instructions: 0,
    }
}

/// The name with the bytes of another one.
fn text_name(alloc: Global, name: &Name) -> Result<Name, OutOfMemory>
    ensures { IfOk result (λ text. text ≡ spec.text_name name.now) }
{
    Ok(Name::Text(name_bytes(alloc, name)?))
}

fn has_global(alloc: Global, seen: &Seen, name: &Name) -> Result<bool, OutOfMemory>
    ensures { IfOk result (λ known. known ≡ spec.has_global seen.now name.now) }
{
    let text = text_name(alloc, name)?;
    Ok(seen.globals.get(&text).is_some())
}

/// Whether the item defines a type, a variable or a function whose name is defined before: by
/// `seen`, what the items before it define.
pub fn outer_double(alloc: Global, seen: &Seen, item: &Item) -> Result<bool, OutOfMemory>
    ensures { IfOk result (λ double. double ≡ spec.outer_double_in seen.now item.now) }
{
    match item {
        Item::TypeDef(name, _) => Ok(seen.types.get(name).is_some()),
        Item::Global(name, _, _, _) => has_global(alloc, seen, name),
        Item::Declare(name, _, _) => has_global(alloc, seen, name),
        Item::Head(name, _, _) => has_global(alloc, seen, name),
        _ => Ok(false),
    }
}

fn passes_registers(before: usize, after: usize) -> bool
    ensures { result ≡ spec.more_registers before after }
{
    before < after && (MAX_FUNCTION_REGISTERS as usize) < after
}

/// Whether with the item there are more functions, type definitions, instructions or registers of a
/// function than a module may have. Its function has `before` registers before it and `after`
/// behind it. `full` says of a global whether there is no room for it.
pub fn passes_limit(seen: &Seen, before: usize, after: usize, full: bool, item: &Item) -> bool
    ensures { result ≡ spec.limit_in seen.now before after full item.now }
{
    match item {
        Item::TypeDef(_, _) => MAX_TYPE_DEFINITIONS <= seen.definitions,
        Item::Head(_, _, _) => {
            MAX_FUNCTIONS <= seen.functions || passes_registers(before, after)
        }
        Item::Instr(_, _) => {
            MAX_INSTRUCTIONS <= seen.instructions || passes_registers(before, after)
        }
        Item::Global(_, _, _, _) => full,
        _ => false,
    }
}

fn note_global(alloc: Global, seen: &mut Seen, name: &Name) -> Result<(), OutOfMemory>
    ensures { OnOk result (seen.new ≡ spec.with_global seen.old name.now) }
{
    let text = text_name(alloc, name)?;
    seen.globals.add(alloc, &text, ())
}

/// Adds an item to those that are seen.
pub fn note(alloc: Global, seen: &mut Seen, item: &Item) -> Result<(), OutOfMemory>
    requires definitions { seen.old.definitions < 2 ^ 64 - 1 }
    requires functions { seen.old.functions < 2 ^ 64 - 1 }
    requires instructions { seen.old.instructions < 2 ^ 64 - 1 }
    ensures { OnOk result (seen.new ≡ spec.with_seen seen.old item.now) }
{
    match item {
        Item::TypeDef(name, _) => {
            seen.types.add(alloc, name, ())?;
            seen.definitions += 1;
        }
        Item::Global(name, _, _, _) => note_global(alloc, seen, name)?,
        Item::Declare(name, _, _) => note_global(alloc, seen, name)?,
        Item::Head(name, _, _) => {
            note_global(alloc, seen, name)?;
            seen.functions += 1;
        }
        Item::Instr(_, _) => seen.instructions += 1,
        _ => {}
    }
    Ok(())
}
