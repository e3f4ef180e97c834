//! The pass over a function's items that gathers what they define.
ghost use Rattle.std.specs.Prelude.{◌≡◌, OnOk, IfOk, fold, length, if◌then◌else◌};
ghost use Rattle.ir_rules.specs.Scopes as spec;
ghost use Rattle.ir_scopes.specs.Kinds.{kind_in};

use crate::kinds::KindTable;
use am_base::{OutOfMemory, Width};
use am_lists::Items;
use code_form::TyScalar;
use ir_names::NameTable;
use ir_rules::{Local, Scope};
use ir_tree::{Item, Name, Op, TyText};
use std::alloc::Global;

/// Returns the scope before the items of a function. It takes no memory.
pub fn empty_scope(alloc: Global) -> Scope
    ensures { result ≡ spec.empty_scope }
{
    Scope {
        table: NameTable::new(alloc),
        types: Items::new(alloc),
        starts: Items::new(alloc),
        results: Items::new(alloc),
        counter: 0,
        terminated: false,
        mixed: false,
        again: false,
        low: false,
    }
}

fn counter_after(name: &Name, counter: u64) -> u64
    ensures { result ≡ spec.counter_after name.now counter }
{
    match name {
        Name::Text(_) => counter,
        Name::Number(n) => *n as u64 + 1,
    }
}

fn is_low(counter: u64, name: &Name) -> bool
    ensures { result ≡ spec.is_low counter name.now }
{
    match name {
        Name::Text(_) => false,
        Name::Number(n) => (*n as u64) < counter,
    }
}

fn add_name(alloc: Global, scope: &mut Scope, name: &Name, what: Local) -> Result<(), OutOfMemory>
    ensures { OnOk result (scope.new ≡ spec.with_name scope.old name.now what) }
{
    let known = scope.table.get(name).is_some();
    let low = is_low(scope.counter, name);
    scope.table.add(alloc, name, what)?;
    scope.again = scope.again || known;
    scope.low = scope.low || low;
    scope.counter = counter_after(name, scope.counter);
    Ok(())
}

fn add_number(alloc: Global, scope: &mut Scope, what: Local) -> Result<(), OutOfMemory>
    ensures { OnOk result (scope.new ≡ spec.with_number scope.old what) }
{
    if scope.counter < 4_294_967_296 {
        let name = Name::Number(scope.counter as u32);
        add_name(alloc, scope, &name, what)?;
    }
    Ok(())
}

fn add_name_or_number(
    alloc: Global,
    scope: &mut Scope,
    name: &Option<Name>,
    what: Local,
) -> Result<(), OutOfMemory>
    ensures { OnOk result (scope.new ≡ spec.with_name_or_number scope.old name.now what) }
{
    match name {
        Some(name) => add_name(alloc, scope, name, what),
        None => add_number(alloc, scope, what),
    }
}

fn add_parameter(
    alloc: Global,
    kinds: &KindTable,
    scope: &mut Scope,
    param: &(TyText, Option<Name>),
) -> Result<(), OutOfMemory>
    ensures { let kind = kind_in kinds.now.names in
        OnOk result (scope.new ≡ spec.with_parameter kind scope.old param.now) }
{
    let kind = kinds.of(&param.0);
    let register = scope.types.len();
    add_name_or_number(alloc, scope, &param.1, Local::Value(kind, register))?;
    scope.types.push(kind)?;
    Ok(())
}

fn add_parameters(
    alloc: Global,
    kinds: &KindTable,
    scope: &mut Scope,
    params: &[(TyText, Option<Name>)],
) -> Result<(), OutOfMemory>
    ensures { let kind = kind_in kinds.now.names in
        OnOk result (scope.new ≡ fold (spec.with_parameter kind) scope.old params.now) }
{
    'each: for param in params {
        add_parameter(alloc, kinds, scope, param)?;
    }
    Ok(())
}

fn add_start(scope: &mut Scope) -> Result<(), OutOfMemory>
    ensures { OnOk result (scope.new ≡ spec.with_start scope.old) }
{
    scope.starts.push(scope.results.len())?;
    scope.terminated = false;
    scope.mixed = false;
    Ok(())
}

fn add_block(alloc: Global, scope: &mut Scope, label: &Name) -> Result<(), OutOfMemory>
    ensures { OnOk result (scope.new ≡ spec.with_block scope.old (Some label.now)) }
{
    let number = scope.starts.len();
    add_name(alloc, scope, label, Local::Block(number))?;
    add_start(scope)
}

fn add_first_block(alloc: Global, scope: &mut Scope) -> Result<(), OutOfMemory>
    ensures { OnOk result (scope.new ≡ spec.with_first_block scope.old) }
{
    let number = scope.starts.len();
    if number == 0 {
        add_number(alloc, scope, Local::Block(number))?;
        add_start(scope)?;
    }
    Ok(())
}

/// The type of an instruction's value. `None` for an instruction without a value.
fn value_kind(kinds: &KindTable, op: &Op) -> Option<Option<TyScalar>>
    ensures { result ≡ spec.value_kind (kind_in kinds.now.names) op.now }
{
    match op {
        Op::Bin(_, t, _, _) => Some(kinds.of(t)),
        Op::Cmp(_, _, _, _) => Some(Some(TyScalar::Int(Width::W1))),
        Op::Select(_, _, t, _, _, _) => Some(kinds.of(t)),
        Op::Cast(_, _, _, to) => Some(kinds.of(to)),
        Op::Freeze(t, _) => Some(kinds.of(t)),
        Op::Alloca(_, _) => Some(Some(TyScalar::Ptr)),
        Op::Load(t, _, _) => Some(kinds.of(t)),
        Op::Get(_, _, _, _) => Some(Some(TyScalar::Ptr)),
        Op::Phi(t, _) => Some(kinds.of(t)),
        Op::Call(TyText::Void, _, _) => None,
        Op::Call(t, _, _) => Some(kinds.of(t)),
        _ => None,
    }
}

fn add_value_name(
    alloc: Global,
    scope: &mut Scope,
    name: &Option<Name>,
    call: bool,
    what: Local,
) -> Result<(), OutOfMemory>
    ensures { OnOk result (scope.new ≡ spec.with_value_name scope.old name.now call what) }
{
    match name {
        Some(name) => add_name(alloc, scope, name, what),
        None if call => add_number(alloc, scope, what),
        None => Ok(()),
    }
}

fn add_value(
    alloc: Global,
    scope: &mut Scope,
    name: &Option<Name>,
    call: bool,
    kind: Option<TyScalar>,
) -> Result<(), OutOfMemory>
    ensures { OnOk result (scope.new ≡ spec.with_value scope.old name.now call kind) }
{
    let register = scope.types.len();
    add_value_name(alloc, scope, name, call, Local::Value(kind, register))?;
    scope.types.push(kind)?;
    Ok(())
}

fn add_result(
    alloc: Global,
    scope: &mut Scope,
    name: &Option<Name>,
    call: bool,
    kind: Option<Option<TyScalar>>,
) -> Result<(), OutOfMemory>
    ensures { OnOk result (scope.new ≡ spec.with_result scope.old name.now call kind) }
{
    match kind {
        Some(kind) => add_value(alloc, scope, name, call, kind),
        None => match name {
            Some(name) => add_name(alloc, scope, name, Local::NoType),
            None => Ok(()),
        },
    }
}

/// Whether an instruction has a value.
pub fn has_value(op: &Op) -> bool
    ensures { result ≡ spec.has_value op.now }
{
    match op {
        Op::Store(_, _, _, _) | Op::Call(TyText::Void, _, _) => false,
        _ => !is_terminator(op),
    }
}

/// Whether an instruction ends its block.
pub fn is_terminator(op: &Op) -> bool
    ensures { result ≡ spec.is_terminator op.now }
{
    matches!(
        op,
        Op::Jump(_) | Op::Branch(_, _, _, _) | Op::Switch(_, _, _, _) | Op::Ret(_) | Op::Unreachable
    )
}

/// Whether an instruction is a `call`.
pub fn is_call(op: &Op) -> bool
    ensures { result ≡ spec.is_call op.now }
{
    matches!(op, Op::Call(_, _, _))
}

/// Whether an instruction is a `phi`.
pub fn is_phi(op: &Op) -> bool
    ensures { result ≡ spec.is_phi op.now }
{
    matches!(op, Op::Phi(_, _))
}

/// The register of an instruction's value: the next one of its function.
fn value_register(scope: &Scope, has_value: bool) -> Option<usize>
    ensures { result ≡ (if has_value then Some (length scope.now.types) else None) }
{
    if has_value {
        Some(scope.types.len())
    } else {
        None
    }
}

fn add_instruction(scope: &mut Scope, register: Option<usize>, op: &Op) -> Result<(), OutOfMemory>
    ensures { OnOk result (scope.new ≡ spec.with_instruction scope.old register op.now) }
{
    scope.results.push(register)?;
    scope.terminated = scope.terminated || is_terminator(op);
    scope.mixed = scope.mixed || !is_phi(op);
    Ok(())
}

fn add_op(
    alloc: Global,
    kinds: &KindTable,
    scope: &mut Scope,
    name: &Option<Name>,
    op: &Op,
) -> Result<(), OutOfMemory>
    ensures { let kind = kind_in kinds.now.names in
        OnOk result (scope.new ≡ spec.with_op kind scope.old name.now op.now) }
{
    let kind = value_kind(kinds, op);
    let register = value_register(scope, has_value(op));
    add_first_block(alloc, scope)?;
    add_result(alloc, scope, name, is_call(op), kind)?;
    add_instruction(scope, register, op)
}

/// Adds what an item defines to what the items before it in its function do.
pub fn add_item(
    alloc: Global,
    kinds: &KindTable,
    scope: &mut Scope,
    item: &Item,
) -> Result<(), OutOfMemory>
    ensures { let kind = kind_in kinds.now.names in
        OnOk result (scope.new ≡ spec.with_item kind scope.old item.now) }
{
    scope.again = false;
    scope.low = false;
    match item {
        Item::Head(_, _, params) => add_parameters(alloc, kinds, scope, params.as_slice()),
        Item::Label(name) => add_block(alloc, scope, name),
        Item::Instr(name, op) => add_op(alloc, kinds, scope, name, op.get()),
        _ => Ok(()),
    }
}

/// Returns what the items of a function, from its head on, define. It takes time about linear in
/// the items.
pub fn scope_of(alloc: Global, kinds: &KindTable, items: &[Item]) -> Result<Scope, OutOfMemory>
    ensures { let kind = kind_in kinds.now.names in
        IfOk result (λ scope. scope ≡ spec.scope_of kind items.now) }
{
    let mut scope = empty_scope(alloc);
    'each: for item in items {
        add_item(alloc, kinds, &mut scope, item)?;
    }
    Ok(scope)
}
