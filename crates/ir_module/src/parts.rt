//! The functions and the instructions of a code, one item after another.
ghost use Rattle.std.specs.Prelude.{◌≡◌, ◌+◌, ◌<◌, ◌≤◌, ◌^◌, All, length, true, IfOk, OnOk};
ghost use Rattle.ir_rules.specs.Types.{TypeDefs, kind_of};
ghost use Rattle.ir_rules.specs.Scopes as scopes;
ghost use Rattle.ir_scopes.specs.Kinds.{kind_in};
ghost use Rattle.ir_op_codes.specs.Settings.{OpFits};
ghost use Rattle.ir_module.specs.Parts.{no_parts, with_function, with_instruction, with_code, code_in, IsSmall, CanCode};

use crate::tables::Tables;
use am_base::OutOfMemory;
use am_lists::Items;
use code_form::{Func, Instr};
use ir_call_rules::name_bytes;
use ir_codegen::function_code;
use ir_op_codes::{Names, op_code};
use ir_pass::Frame;
use ir_rules::Scope;
use ir_scopes::{KindTable, has_value};
use ir_tree::{Item, Name, Op, TyText};
use ir_types::Types;
use std::alloc::Global;

/// The functions and the instructions of a code so far.
#[derive(Drop)]
pub struct Parts {
    pub funcs: Items<Func>,
    /// The instructions of all functions, by place.
    pub instrs: Items<Instr>,
    /// For each of them the register that it writes, if it has a value.
    pub results: Items<Option<u32>>,
}

/// Returns no functions and no instructions. It takes no memory.
pub fn nothing(alloc: Global) -> Parts
    ensures { result ≡ no_parts }
{
    Parts {
        funcs: Items::new(alloc),
        instrs: Items::new(alloc),
        results: Items::new(alloc),
    }
}

/// Appends a function, whose first instruction is the next one. `scope` is what its items define.
fn add_function(
    alloc: Global,
    kinds: &KindTable,
    parts: &mut Parts,
    scope: &Scope,
    name: &Name,
    ty: &TyText,
    params: &[(TyText, Option<Name>)],
) -> Result<(), OutOfMemory>
    requires room { length parts.old.instrs + length scope.now.results < 2 ^ 32 }
    requires registers { length scope.now.types < 2 ^ 32 }
    requires within { All (λ start. start ≤ length scope.now.results) scope.now.starts }
    ensures { OnOk result ((defs : TypeDefs) → kind_in kinds.now.names ≡ kind_of defs
        → parts.new ≡ with_function defs parts.old scope.now name.now ty.now params.now) }
{
    let at = parts.instrs.len() as u32;
    let name = name_bytes(alloc, name)?;
    let function = function_code(alloc, kinds, at, name, ty, params, scope)?;
    parts.funcs.push(function)?;
    Ok(())
}

/// Returns the register of an instruction's value: the next one of its function. `before` is what
/// the items before it in the function define.
fn register_of(before: &Scope, op: &Op) -> Option<u32>
    requires { scopes.has_value op.now ≡ true → length before.now.types < 2 ^ 32 }
    ensures { result ≡ scopes.value_register before.now op.now }
{
    if has_value(op) {
        Some(before.types.len() as u32)
    } else {
        None
    }
}

/// Returns the code of an instruction of a function. `frame` is what is known before it.
fn instruction_of(
    alloc: Global,
    types: &mut Types<'_>,
    tables: &Tables<'_>,
    frame: &Frame,
    op: &Op,
) -> Result<Instr, OutOfMemory>
    requires fits { OpFits types.old.defs op.now }
    requires small { IsSmall frame.now.function }
    ensures defs { types.new.defs ≡ types.old.defs }
    ensures code { IfOk result (λ i. i ≡ code_in types.old.defs tables.now frame.now op.now) }
{
    let names = Names {
        locals: &frame.function.table,
        entities: tables.entities,
        ports: tables.ports,
        addresses: tables.addresses,
    };
    let code = op_code(alloc, types, &names, op);
    let Names {
        locals: _,
        entities: _,
        ports: _,
        addresses: _,
    } = names;
    code
}

/// Appends an instruction of a function. `frame` is what is known before it.
fn add_instruction(
    alloc: Global,
    types: &mut Types<'_>,
    tables: &Tables<'_>,
    parts: &mut Parts,
    frame: &Frame,
    op: &Op,
) -> Result<(), OutOfMemory>
    requires fits { OpFits types.old.defs op.now }
    requires register { scopes.has_value op.now ≡ true → length frame.now.before.types < 2 ^ 32 }
    requires small { IsSmall frame.now.function }
    ensures defs { types.new.defs ≡ types.old.defs }
    ensures parts { OnOk result (parts.new
        ≡ with_instruction parts.old (code_in types.old.defs tables.now frame.now op.now)
        (scopes.value_register frame.now.before op.now)) }
{
    let instruction = instruction_of(alloc, types, tables, frame, op)?;
    parts.instrs.push(instruction)?;
    parts.results.push(register_of(&frame.before, op))?;
    Ok(())
}

/// Appends what an item is in the code: a head is a function, and an instruction is one. `frame` is
/// what is known before it. It takes time about linear in the item, and at a head in what its
/// function defines.
pub fn add_item(
    alloc: Global,
    types: &mut Types<'_>,
    tables: &Tables<'_>,
    parts: &mut Parts,
    frame: &Frame,
    item: &Item,
) -> Result<(), OutOfMemory>
    requires can { CanCode types.old.defs parts.old frame.now item.now }
    requires kinds { kind_in tables.now.kinds.now.names ≡ kind_of types.old.defs }
    ensures defs { types.new.defs ≡ types.old.defs }
    ensures parts { OnOk result (parts.new
        ≡ with_code types.old.defs tables.now parts.old frame.now item.now) }
{
    match item {
        Item::Head(name, ty, params) => {
            let list = params.as_slice();
            add_function(alloc, tables.kinds, parts, &frame.function, name, ty, list)
        }
        Item::Instr(_, op) => add_instruction(alloc, types, tables, parts, frame, op.get()),
        _ => Ok(()),
    }
}
