//! What the names of a module stand for.
ghost use Rattle.std.specs.Prelude.{◌<◌, ◌^◌};
ghost use Rattle.ir_names.specs.Names.{defined};
ghost use Rattle.ir_tree.specs.declared.name.Name.{Name};
ghost use Rattle.ir_op_codes.specs.Alone.{function_number};

use ir_call_rules::Ports;
use ir_names::NameTable;
use ir_rules::Entity;
use ir_scopes::KindTable;

/// What the names of a module stand for.
#[derive(Clone, Copy)]
pub struct Tables<'a> {
    /// The integers and pointers that types stand for.
    pub kinds: &'a KindTable,
    /// The global names.
    pub entities: &'a NameTable<Entity>,
    /// The ports that are handed in.
    pub ports: &'a Ports<'a>,
    /// The addresses of the globals.
    pub addresses: &'a NameTable<u64>,
    ghost functions: { (n : Name) → function_number (defined entities.now n) < 2 ^ 32 },
}
