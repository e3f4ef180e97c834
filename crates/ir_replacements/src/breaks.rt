//! The rules that are asked of a replacement.
ghost use Rattle.std.specs.Prelude.{◌≡◌, IfOk};
ghost use Rattle.ir_rules.specs.Paths.{get_path as path_rule};
ghost use Rattle.ir_scopes.specs.Kinds.{kind_in};
ghost use Rattle.ir_block_rules.specs.Alone.{locals_alone};
ghost use Rattle.ir_rules.specs.Blocks as blocks;
ghost use Rattle.ir_replacements.specs.Breaks as spec;

use am_base::OutOfMemory;
use code_form::TyScalar;
use ir_block_rules::{cast_width, entry_target, return_differs, unknown_label};
use ir_call_rules::{Ports, call_differs, switch_case, unknown_callee};
use ir_names::NameTable;
use ir_operand_rules::{Tables, literal_range, type_differs, unknown_name};
use ir_rules::{Entity, Local};
use ir_scopes::KindTable;
use ir_tree::{Item, Op};
use ir_type_rules::{get_path, scalar_wanted, type_too_large, unknown_type};
use ir_types::Types;
use std::alloc::Global;

/// What the names in an instruction stand for, and the type of its function's result.
#[derive(Clone, Copy)]
pub struct Around<'a> {
    /// The integers and pointers that types stand for.
    pub kinds: &'a KindTable,
    /// The global names, each by its first definition.
    pub entities: &'a NameTable<Entity>,
    /// The ports that are handed in.
    pub ports: &'a Ports<'a>,
    /// The names of the function.
    pub locals: &'a NameTable<Local>,
    /// The type of the function's result. `None` for `void`.
    pub result: Option<Option<TyScalar>>,
}

fn either(a: bool, b: bool) -> bool
    ensures { result ≡ spec.either a b }
{
    a || b
}

/// The rules on types, and whether a later rule is broken.
fn type_rules(
    alloc: Global,
    types: &mut Types<'_>,
    kinds: &KindTable,
    item: &Item,
    later: bool,
) -> Result<bool, OutOfMemory>
    ensures defs { types.new.defs ≡ types.old.defs }
    ensures broken { IfOk result (λ b. b ≡ spec.type_rules types.old.defs (kind_in kinds.now.names) item.now later) }
{
    let unknown = unknown_type(alloc, types, item)?;
    let large = type_too_large(alloc, types, item)?;
    let scalars = scalar_wanted(alloc, kinds, item)?;
    Ok(either(unknown, either(large, either(scalars, later))))
}

/// The rules on operands, and whether a later rule is broken.
fn operand_rules(around: &Around<'_>, op: &Op, later: bool) -> bool
    ensures { let kind = kind_in around.now.kinds.now.names in
        result ≡ spec.operand_rules kind around.now.entities.now around.now.locals.now op.now later }
{
    let tables = Tables {
        kinds: around.kinds,
        entities: around.entities,
        locals: around.locals,
    };
    let names = unknown_name(&tables, op);
    let differ = type_differs(&tables, op);
    let out = literal_range(&tables, op);
    either(names, either(differ, either(out, later)))
}

/// The rules on calls, results and cases, and whether a later rule is broken.
fn call_rules(
    alloc: Global,
    around: &Around<'_>,
    item: &Item,
    later: bool,
) -> Result<bool, OutOfMemory>
    ensures { let kind = kind_in around.now.kinds.now.names in IfOk result (λ b.
        b ≡ spec.call_rules kind around.now.entities.now around.now.ports.now around.now.result item.now later) }
{
    let unknown = unknown_callee(alloc, around.ports, around.entities, item)?;
    let differs = call_differs(alloc, around.kinds, around.entities, item)?;
    let returned = return_differs(around.kinds, around.result, item);
    let cases = switch_case(alloc, around.kinds, item)?;
    Ok(either(
        unknown,
        either(differs, either(returned, either(cases, later))),
    ))
}

/// The rules on paths, branches to the first block, and conversions.
fn last_rules(around: &Around<'_>, path: bool, item: &Item) -> bool
    ensures { let kind = kind_in around.now.kinds.now.names in
        result ≡ spec.last_rules kind around.now.locals.now path item.now }
{
    let entry = entry_target(around.locals, item);
    let width = cast_width(around.kinds, item);
    either(path, either(entry, either(width, false)))
}

/// Whether an instruction, by itself `op` and `item` as an item, breaks a rule on what stands in an
/// instruction. It takes time about linear in what is written.
pub fn breaks_rule(
    alloc: Global,
    types: &mut Types<'_>,
    around: &Around<'_>,
    item: &Item,
    op: &Op,
) -> Result<bool, OutOfMemory>
    ensures defs { types.new.defs ≡ types.old.defs }
    ensures broken { let kind = kind_in around.now.kinds.now.names in IfOk result (λ b.
        b ≡ spec.breaks_by types.old.defs kind around.now.entities.now around.now.ports.now around.now.locals.now around.now.result item.now op.now) }
{
    let path = get_path(alloc, types, item)?;
    let last = last_rules(around, path, item);
    let calls = call_rules(alloc, around, item, last)?;
    let labels = either(unknown_label(around.locals, item), calls);
    let operands = operand_rules(around, op, labels);
    type_rules(alloc, types, around.kinds, item, operands)
}
