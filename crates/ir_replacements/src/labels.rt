//! The labels of a branch, and whether another one goes to these alone.
ghost use Rattle.std.specs.Prelude.{◌≡◌, map, fold, is_some, IfOk, OnOk};
ghost use Rattle.std.specs.List.{list_all};
ghost use Rattle.ir_names.specs.Names.{defined};
ghost use Rattle.ir_rules.specs.Parts.{branch_labels};
ghost use Rattle.ir_replacements.specs.Labels.{with_label, label_table};

use am_base::OutOfMemory;
use ir_names::NameTable;
use ir_tree::{Name, Op, Opd, TyText};
use std::alloc::Global;

fn add_cases(
    alloc: Global,
    table: &mut NameTable<()>,
    cases: &[(TyText, Opd, Name)],
) -> Result<(), OutOfMemory>
    ensures { OnOk result (table.new ≡ fold with_label table.old (map (λ c. c.2) cases.now)) }
{
    'each: for case in cases {
        table.add(alloc, &case.2, ())?;
    }
    Ok(())
}

/// Returns the labels that an instruction may go to. O(n) expected in them.
pub fn labels_of(alloc: Global, op: &Op) -> Result<NameTable<()>, OutOfMemory>
    ensures { IfOk result (λ table. table ≡ label_table (branch_labels op.now)) }
{
    let mut table = NameTable::new(alloc);
    match op {
        Op::Jump(to) => table.add(alloc, to, ())?,
        Op::Branch(_, _, chosen, other) => {
            table.add(alloc, chosen, ())?;
            table.add(alloc, other, ())?;
        }
        Op::Switch(_, _, other, cases) => {
            table.add(alloc, other, ())?;
            add_cases(alloc, &mut table, cases.as_slice())?;
        }
        _ => {}
    }
    Ok(table)
}

fn has(labels: &NameTable<()>, name: &Name) -> bool
    ensures { result ≡ is_some (defined labels.now name.now) }
{
    labels.get(name).is_some()
}

fn has_cases(labels: &NameTable<()>, cases: &[(TyText, Opd, Name)]) -> bool
    ensures { let names = map (λ c. c.2) cases.now in
        result ≡ list_all (λ n. is_some (defined labels.now n)) names }
{
    let mut all = true;
    'each: for case in cases {
        let known = has(labels, &case.2);
        all = all && known;
    }
    all
}

/// Whether an instruction goes to these labels alone. O(n) expected in its labels.
pub fn goes_within(labels: &NameTable<()>, op: &Op) -> bool
    ensures { result ≡ list_all (λ n. is_some (defined labels.now n)) (branch_labels op.now) }
{
    match op {
        Op::Jump(to) => has(labels, to),
        Op::Branch(_, _, chosen, other) => has(labels, chosen) && has(labels, other),
        Op::Switch(_, _, other, cases) => {
            has(labels, other) && has_cases(labels, cases.as_slice())
        }
        _ => true,
    }
}
