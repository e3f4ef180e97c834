//! The rules in their order, a few at a time from the last ones on.
ghost use Rattle.std.specs.Prelude.{◌≡◌, IfOk};
ghost use Rattle.ir_scopes.specs.Kinds.{kind_in};
ghost use Rattle.ir_checker.specs.Judged as spec;

use crate::broken::{Known, Notes, TypeBreaks};
use am_base::OutOfMemory;
use ir_block_rules::{cast_width, entry_target, result_misplaced, return_differs, unknown_label};
use ir_call_rules::{call_differs, declare_differs, phi_entries, switch_case, unknown_callee};
use ir_operand_rules::{Tables, literal_range, type_differs, unknown_name};
use ir_pass::{Frame, Seen, outer_double, passes_limit};
use ir_rules::Rule;
use ir_tree::Item;
use std::alloc::Global;

/// The rule where it is broken, and a later one else.
fn pick(broken: bool, rule: Rule, later: Option<Rule>) -> Option<Rule>
    ensures { result ≡ spec.pick broken rule later }
{
    if broken { Some(rule) } else { later }
}

fn either(a: bool, b: bool) -> bool
    ensures { result ≡ spec.either a b }
{
    a || b
}

/// The rules on names and types.
pub fn name_rules(
    alloc: Global,
    frame: &Frame,
    seen: &Seen,
    typed: &TypeBreaks,
    item: &Item,
    later: Option<Rule>,
) -> Result<Option<Rule>, OutOfMemory>
    ensures { IfOk result (λ rule.
        rule ≡ spec.name_rules frame.now seen.now typed.now item.now later) }
{
    let double = either(outer_double(alloc, seen, item)?, frame.before.again);
    let scalar = pick(typed.scalar_wanted, Rule::ScalarWanted, later);
    let large = pick(typed.type_too_large, Rule::TypeTooLarge, scalar);
    let recursive = pick(typed.recursive_type, Rule::RecursiveType, large);
    let unknown = pick(typed.unknown_type, Rule::UnknownType, recursive);
    let order = pick(frame.before.low, Rule::NumberOrder, unknown);
    Ok(pick(double, Rule::DoubleName, order))
}

fn names_unknown(tables: &Tables<'_>, otherwise: bool, item: &Item) -> bool
    ensures { let kind = kind_in tables.now.kinds.now.names in result ≡ spec.names_unknown
        kind tables.now.entities.now tables.now.locals.now otherwise item.now }
{
    match item {
        Item::Instr(_, op) => unknown_name(tables, op.get()),
        _ => otherwise,
    }
}

fn types_differ(tables: &Tables<'_>, otherwise: bool, item: &Item) -> bool
    ensures { let kind = kind_in tables.now.kinds.now.names in result ≡ spec.types_differ
        kind tables.now.entities.now tables.now.locals.now otherwise item.now }
{
    match item {
        Item::Instr(_, op) => type_differs(tables, op.get()),
        _ => otherwise,
    }
}

fn numbers_out(tables: &Tables<'_>, otherwise: bool, item: &Item) -> bool
    ensures { let kind = kind_in tables.now.kinds.now.names in result ≡ spec.numbers_out
        kind tables.now.entities.now tables.now.locals.now otherwise item.now }
{
    match item {
        Item::Instr(_, op) => literal_range(tables, op.get()),
        _ => otherwise,
    }
}

/// The rules on operands.
pub fn operand_rules(
    tables: &Tables<'_>,
    typed: &TypeBreaks,
    item: &Item,
    later: Option<Rule>,
) -> Option<Rule>
    ensures { let kind = kind_in tables.now.kinds.now.names in
        result ≡ spec.operand_rules kind tables.now.entities.now tables.now.locals.now
        typed.now item.now later }
{
    let unknown = names_unknown(tables, typed.unknown_name, item);
    let differ = types_differ(tables, typed.type_differs, item);
    let out = numbers_out(tables, typed.literal_range, item);
    let numbers = pick(out, Rule::LiteralRange, later);
    let types = pick(differ, Rule::TypeDiffers, numbers);
    pick(unknown, Rule::UnknownName, types)
}

/// The rules on labels and blocks.
pub fn block_rules(
    alloc: Global,
    frame: &Frame,
    notes: &Notes,
    item: &Item,
    later: Option<Rule>,
) -> Result<Option<Rule>, OutOfMemory>
    ensures { IfOk result (λ rule. rule ≡ spec.block_rules frame.now notes.now item.now later) }
{
    let locals = &frame.function.table;
    let sources = frame.sources.of(notes.own_block);
    let entries = phi_entries(alloc, locals, sources, item)?;
    let unended = pick(notes.block_open, Rule::BlockOpen, later);
    let entry = pick(entries, Rule::PhiEntries, unended);
    let place = pick(notes.phi_place, Rule::PhiPlace, entry);
    Ok(pick(unknown_label(locals, item), Rule::UnknownLabel, place))
}

/// The rules on calls, results and cases.
pub fn call_rules(
    alloc: Global,
    known: &Known<'_>,
    frame: &Frame,
    item: &Item,
    later: Option<Rule>,
) -> Result<Option<Rule>, OutOfMemory>
    ensures { let kind = kind_in known.now.kinds.now.names in IfOk result (λ rule. rule ≡
        spec.call_rules kind known.now.entities.now known.now.ports.now frame.now item.now later) }
{
    let unknown = unknown_callee(alloc, known.ports, known.entities, item)?;
    let differs = call_differs(alloc, known.kinds, known.entities, item)?;
    let cases = switch_case(alloc, known.kinds, item)?;
    let case = pick(cases, Rule::SwitchCase, later);
    let returned = return_differs(known.kinds, frame.result, item);
    let result = pick(returned, Rule::ReturnDiffers, case);
    let call = pick(differs, Rule::CallDiffers, result);
    Ok(pick(unknown, Rule::UnknownCallee, call))
}

/// The last rules.
pub fn last_rules(
    alloc: Global,
    known: &Known<'_>,
    frame: &Frame,
    seen: &Seen,
    notes: &Notes,
    typed: &TypeBreaks,
    item: &Item,
) -> Result<Option<Rule>, OutOfMemory>
    ensures { let kind = kind_in known.now.kinds.now.names in IfOk result (λ rule. rule ≡
        spec.last_rules kind known.now.ports.now frame.now seen.now notes.now typed.now item.now) }
{
    let declared = declare_differs(alloc, known.kinds, known.ports, item)?;
    let after = frame.before.types.len();
    let passed = passes_limit(seen, notes.registers, after, typed.full, item);
    let limit = pick(passed, Rule::Limit, None);
    let declare = pick(declared, Rule::DeclareDiffers, limit);
    let width = pick(cast_width(known.kinds, item), Rule::CastWidth, declare);
    let entry = entry_target(&frame.function.table, item);
    let target = pick(entry, Rule::EntryTarget, width);
    let init = pick(typed.init_differs, Rule::InitDiffers, target);
    let named = pick(result_misplaced(item), Rule::ResultName, init);
    Ok(pick(typed.get_path, Rule::GetPath, named))
}
