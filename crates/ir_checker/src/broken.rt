//! What is known of an item before its rules are asked in their order.
ghost use Rattle.std.specs.Prelude.{◌≡◌};
ghost use Rattle.ir_checker.specs.Judged as spec;

use ir_block_rules::{block_open, phi_place};
use ir_call_rules::Ports;
use ir_names::NameTable;
use ir_rules::{Entity, Scope};
use ir_scopes::KindTable;
use ir_tree::Item;

/// What the names of a module stand for.
#[derive(Clone, Copy)]
pub struct Known<'a> {
    /// The integers and pointers that types stand for.
    pub kinds: &'a KindTable,
    /// What the global names stand for, each by its first definition.
    pub entities: &'a NameTable<Entity>,
    /// The ports that are handed in.
    pub ports: &'a Ports<'a>,
}

/// What the rules say of an item by what its function defines before it.
#[derive(Clone, Copy)]
pub struct Notes {
    pub phi_place: bool,
    pub block_open: bool,
    /// The block in which the item stands.
    pub own_block: usize,
    /// How many registers the function has before the item.
    pub registers: usize,
}

/// What the rules say of an item that ask for the types of its module.
#[derive(Clone, Copy)]
pub struct TypeBreaks {
    pub unknown_type: bool,
    pub recursive_type: bool,
    pub type_too_large: bool,
    pub scalar_wanted: bool,
    pub get_path: bool,
    pub init_differs: bool,
    /// Of an item that is no instruction.
    pub unknown_name: bool,
    /// Of an item that is no instruction.
    pub type_differs: bool,
    /// Of an item that is no instruction.
    pub literal_range: bool,
    /// Of a global: whether the memory has no room for it.
    pub full: bool,
}

/// Returns what the rules say of an item by what its function defines before it.
pub fn notes_of(before: &Scope, item: &Item) -> Notes
    ensures { result ≡ spec.notes_of before.now item.now }
{
    Notes {
        phi_place: phi_place(before, item),
        block_open: block_open(before, item),
        own_block: before.starts.len().saturating_sub(1),
        registers: before.types.len(),
    }
}
