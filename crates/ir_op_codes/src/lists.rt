//! The lists in instructions: the indices of a path, the entries of a `phi`, the cases of a `switch`.
ghost use Rattle.std.specs.Prelude.{◌≡◌, ◌++◌, All, map, flat_map, fold, unwrap_or, IfOk, OnOk, []};
ghost use Rattle.ir_rules.specs.Blocks as blocks;
ghost use Rattle.ir_rules.specs.Codes as codes;
ghost use Rattle.ir_rules.specs.Paths as rules;
ghost use Rattle.ir_op_codes.specs.Paths.{moves, meant};
ghost use Rattle.ir_op_codes.specs.Words.{IsFit};
ghost use Rattle.ir_op_codes.specs.Settings.{setting_by};

use crate::names::Names;
use crate::paths::{Move, Step};
use crate::reads::typed;
use crate::words::kind_width;
use am_base::{OutOfMemory, Width};
use am_lists::Items;
use code_form::Operand;
use indexmap::IndexSet;
use ir_scopes::word_of;
use ir_tree::{Name, Opd, TyText};
use ir_types::Types;
use std::alloc::Global;

fn case_word(w: Width, a: &Opd) -> u64
    ensures { result ≡ unwrap_or (rules.case_word w a.now) 0 }
{
    match a {
        Opd::Number(n) => word_of(w, *n),
        Opd::True => 1,
        _ => 0,
    }
}

/// Returns the words of cases of a type, and the blocks that they go to. O(n).
pub fn cases(
    alloc: Global,
    types: &Types<'_>,
    names: &Names<'_>,
    ty: &TyText,
    list: &[(TyText, Opd, Name)],
) -> Result<Items<(u64, u32)>, OutOfMemory>
    ensures { IfOk result (λ cs. cs ≡ map (codes.case_code (setting_by types.now.defs names.now) ty.now) list.now) }
{
    let w = kind_width(types.kind(ty));
    let mut cases = Items::new(alloc);
    'each: for case in list {
        cases.push((case_word(w, &case.1), names.block(&case.2)))?;
    }
    Ok(cases)
}

/// Appends an entry, unless one of its block is there.
fn add_entry(
    list: &mut Items<(u32, Operand)>,
    known: &mut IndexSet<u32>,
    entry: (u32, Operand),
) -> Result<(), OutOfMemory>
    requires { known.old.keys ≡ map (λ e. e.0) list.old }
    ensures known { OnOk result (known.new.keys ≡ map (λ e. e.0) list.new) }
    ensures added { OnOk result (list.new ≡ codes.entry_once list.old entry) }
{
    if known.contains(&entry.0) {
        return Ok(());
    }
    known.insert(entry.0)?;
    list.push(entry)?;
    Ok(())
}

/// Returns for each block, by its number, what a `phi` of a type reads where it is come from. It
/// takes time about linear in what is written.
pub fn entries(
    alloc: Global,
    types: &mut Types<'_>,
    names: &Names<'_>,
    ty: &TyText,
    list: &[(Opd, Name)],
) -> Result<Items<(u32, Operand)>, OutOfMemory>
    requires { All (λ e. IsFit types.old.defs e.0) list.now }
    ensures defs { types.new.defs ≡ types.old.defs }
    ensures entries { let s = setting_by types.old.defs names.now in
        IfOk result (λ es. es ≡ codes.entries_code s names.now.addresses.now ty.now list.now) }
{
    let mut entries = Items::new(alloc);
    let mut known = IndexSet::new(alloc);
    'each: for e in list {
        let a = typed(alloc, types, names, ty, &e.0)?;
        add_entry(&mut entries, &mut known, (names.block(&e.1), a))?;
    }
    Ok(entries)
}

/// Appends an index that is no number, with its scale and width.
fn add_index(
    alloc: Global,
    types: &mut Types<'_>,
    names: &Names<'_>,
    list: &mut Items<(u64, Width, Operand)>,
    index: &(TyText, Opd),
    step: Step,
) -> Result<(), OutOfMemory>
    requires { IsFit types.old.defs index.now.1 }
    ensures defs { types.new.defs ≡ types.old.defs }
    ensures added { let s = setting_by types.old.defs names.now in OnOk result (list.new
        ≡ list.old ++ codes.index_code s names.now.addresses.now (index.now, meant step)) }
{
    if let Step::Scaled(size) = step {
        match index.1 {
            Opd::Number(_) => {}
            _ => {
                let w = kind_width(types.kind(&index.0));
                let a = typed(alloc, types, names, &index.0, &index.1)?;
                list.push((size, w, a))?;
            }
        }
    }
    Ok(())
}

/// Returns the indices of a path that are no numbers, each with its scale and width.
pub fn indices(
    alloc: Global,
    types: &mut Types<'_>,
    names: &Names<'_>,
    path: &[Move<'_>],
) -> Result<Items<(u64, Width, Operand)>, OutOfMemory>
    requires { All (λ m. IsFit types.old.defs m.0.now.1) path.now }
    ensures defs { types.new.defs ≡ types.old.defs }
    ensures indices { let s = setting_by types.old.defs names.now in IfOk result (λ is.
        is ≡ flat_map (codes.index_code s names.now.addresses.now) (moves path.now)) }
{
    let mut indices = Items::new(alloc);
    'each: for m in path {
        add_index(alloc, types, names, &mut indices, m.0, m.1)?;
    }
    Ok(indices)
}
