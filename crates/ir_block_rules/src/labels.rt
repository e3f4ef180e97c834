//! The rules on labels.
ghost use Rattle.std.specs.Prelude.{◌≡◌, map, not};
ghost use Rattle.std.specs.List.{list_any};
ghost use Rattle.ir_names.specs.Names.{defined};
ghost use Rattle.ir_rules.specs.Blocks as spec;
ghost use Rattle.ir_rules.specs.Parts.{op_labels, branch_labels};
ghost use Rattle.ir_block_rules.specs.Alone.{locals_alone};

use ir_names::NameTable;
use ir_rules::Local;
use ir_tree::{Item, Name, Op, Opd, TyText};

fn is_block(locals: &NameTable<Local>, name: &Name) -> bool
    ensures { result ≡ spec.is_block (defined locals.now name.now) }
{
    matches!(locals.get(name), Some(Local::Block(_)))
}

fn is_first(locals: &NameTable<Local>, name: &Name) -> bool
    ensures { result ≡ spec.is_first (defined locals.now name.now) }
{
    match locals.get(name) {
        Some(Local::Block(number)) => *number == 0,
        _ => false,
    }
}

fn has_unknown_case(locals: &NameTable<Local>, cases: &[(TyText, Opd, Name)]) -> bool
    ensures { let labels = map (λ c. c.2) cases.now in
        result ≡ list_any (λ n. not (spec.is_block (defined locals.now n))) labels }
{
    let mut found = false;
    'each: for case in cases {
        let known = is_block(locals, &case.2);
        found = found || !known;
    }
    found
}

fn has_unknown_entry(locals: &NameTable<Local>, entries: &[(Opd, Name)]) -> bool
    ensures { let labels = map (λ e. e.1) entries.now in
        result ≡ list_any (λ n. not (spec.is_block (defined locals.now n))) labels }
{
    let mut found = false;
    'each: for entry in entries {
        let known = is_block(locals, &entry.1);
        found = found || !known;
    }
    found
}

fn has_first_case(locals: &NameTable<Local>, cases: &[(TyText, Opd, Name)]) -> bool
    ensures { let labels = map (λ c. c.2) cases.now in
        result ≡ list_any (λ n. spec.is_first (defined locals.now n)) labels }
{
    let mut found = false;
    'each: for case in cases {
        let first = is_first(locals, &case.2);
        found = found || first;
    }
    found
}

fn has_unknown_label(locals: &NameTable<Local>, op: &Op) -> bool
    ensures { let labels = op_labels op.now in
        result ≡ list_any (λ n. not (spec.is_block (defined locals.now n))) labels }
{
    match op {
        Op::Jump(to) => !is_block(locals, to),
        Op::Branch(_, _, chosen, other) => !is_block(locals, chosen) || !is_block(locals, other),
        Op::Switch(_, _, other, cases) => {
            !is_block(locals, other) || has_unknown_case(locals, cases.as_slice())
        }
        Op::Phi(_, entries) => has_unknown_entry(locals, entries.as_slice()),
        _ => false,
    }
}

fn goes_to_first(locals: &NameTable<Local>, op: &Op) -> bool
    ensures { result ≡ list_any (λ n. spec.is_first (defined locals.now n)) (branch_labels op.now) }
{
    match op {
        Op::Jump(to) => is_first(locals, to),
        Op::Branch(_, _, chosen, other) => is_first(locals, chosen) || is_first(locals, other),
        Op::Switch(_, _, other, cases) => {
            is_first(locals, other) || has_first_case(locals, cases.as_slice())
        }
        _ => false,
    }
}

/// Whether a label of the item is no block of the function, whose names are `locals`.
pub fn unknown_label(locals: &NameTable<Local>, item: &Item) -> bool
    ensures { result ≡ spec.unknown_label (locals_alone locals.now) item.now }
{
    match item {
        Item::Instr(_, op) => has_unknown_label(locals, op.get()),
        _ => false,
    }
}

/// Whether the item branches to the first block of the function, whose names are `locals`.
pub fn entry_target(locals: &NameTable<Local>, item: &Item) -> bool
    ensures { result ≡ spec.entry_target (locals_alone locals.now) item.now }
{
    match item {
        Item::Instr(_, op) => goes_to_first(locals, op.get()),
        _ => false,
    }
}
