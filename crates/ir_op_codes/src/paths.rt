//! The paths of `getelementptr`: what each of their indices does.
ghost use Rattle.std.specs.Prelude.{◌≡◌, ◌++◌, ◌∷◌, [], List, false, slice_get, unwrap_or, IfOk, OnOk};
ghost use Rattle.std.specs.Option.{option_copied};
ghost use Rattle.ir_rules.specs.Parts.{Typed as Pair};
ghost use Rattle.ir_rules.specs.Paths as rules;
ghost use Rattle.ir_rules.specs.Types.{kind_of, is_large};
ghost use Rattle.ir_rules.specs.Memory as memory;
ghost use Rattle.ir_op_codes.specs.Paths.{moves, with_step, rest_of, IsRoomy};
ghost use Rattle.ir_op_codes.specs.Paths as spec;

use am_base::{OutOfMemory, Width};
use am_lists::Items;
use code_form::TyScalar;
use ir_scopes::same_kind;
use ir_tree::{Opd, TyText};
use ir_types::Types;
use std::alloc::Global;
use type_table::{Extent, Shape, TypeTable};

/// What an index of a path does.
#[derive(Clone, Copy, Debug, PartialEq, Eq)]
pub enum Step {
    /// It is multiplied by this size, in bytes.
    Scaled(u64),
    /// It is a field, and this is the field's offset in bytes.
    Field(u64),
}

/// An index of a path with its type, and what it does.
pub type Move<'a> = (&'a (TyText, Opd), Step);

/// Where a path has come to.
#[derive(Clone, Copy)]
pub enum Place {
    /// Before values of the type with a number, over which the next index goes.
    Before(usize),
    /// At a value of the type with a number.
    At(usize),
    /// At nothing that an index can go into.
    Lost,
}

fn size_in(extent: Option<&Extent>) -> u64
    ensures { result ≡ spec.size_in (option_copied extent.entry) }
{
    match extent {
        None => 0,
        Some(extent) => extent.size,
    }
}

/// Returns the element at an index; `None` iff there is none.
fn at(list: &[usize], k: u128) -> Option<usize>
    ensures { result ≡ slice_get list.now k }
{
    if k < list.len() as u128 {
        list.get(k as usize).copied()
    } else {
        None
    }
}

fn offset_at(list: &[u64], k: u128) -> u64
    ensures { result ≡ unwrap_or (slice_get list.now k) 0 }
{
    if k < list.len() as u128 {
        match list.get(k as usize) {
            Some(offset) => *offset,
            None => 0,
        }
    } else {
        0
    }
}

fn offset_in(extent: Option<&Extent>, k: Option<u128>) -> u64
    ensures { result ≡ spec.offset_in (option_copied extent.entry) k }
{
    let k = k.unwrap_or(0);
    match extent {
        None => 0,
        Some(extent) => offset_at(extent.offsets.as_slice(), k),
    }
}

/// Returns the number of the field that an index is; `None` iff the index isn't an `i32` number.
fn field_number(types: &Types<'_>, index: &(TyText, Opd)) -> Option<u128>
    ensures { result ≡ rules.field_number (kind_of types.now.defs index.now.0) index.now.1 }
{
    let kind = types.kind(&index.0);
    match index.1 {
        Opd::Number(n) => {
            if n >= 0 && same_kind(kind, Some(TyScalar::Int(Width::W32))) {
                Some(n as u128)
            } else {
                None
            }
        }
        _ => None,
    }
}

/// Returns the number of the type of the part that an index goes into.
fn part_in(shape: Option<&Shape>, k: Option<u128>) -> Option<usize>
    ensures { result ≡ spec.part_in (option_copied shape.entry) k }
{
    match shape {
        Some(Shape::Array(_, of)) => Some(*of),
        Some(Shape::Struct(fields)) => match k {
            None => None,
            Some(k) => at(fields.as_slice(), k),
        },
        _ => None,
    }
}

fn place_in(part: Option<usize>) -> Place
    ensures { result ≡ spec.place_in part }
{
    match part {
        None => Place::Lost,
        Some(n) => Place::At(n),
    }
}

/// What an index does at a value of the type with number `n` and this level.
fn step_in(table: &TypeTable, n: usize, shape: Option<&Shape>, k: Option<u128>) -> Option<Step>
    ensures { result ≡ spec.step_in table.now n (option_copied shape.entry) k }
{
    match shape {
        None => None,
        Some(Shape::Array(_, of)) => Some(Step::Scaled(size_in(table.extent(*of)))),
        Some(Shape::Struct(_)) => Some(Step::Field(offset_in(table.extent(n), k))),
        Some(_) => Some(Step::Field(0)),
    }
}

/// Returns what the index does at a place of its path, if it does something, and where the path
/// comes to.
fn advance(types: &Types<'_>, place: Place, index: &(TyText, Opd)) -> (Option<Step>, Place)
    requires { IsRoomy types.now.types place }
    ensures here { (is : List Pair) → rest_of types.now.defs types.now.types place (index.now ∷ is)
        ≡ with_step index.now result.0 (rest_of types.now.defs types.now.types result.1 is) }
    ensures roomy { IsRoomy types.now.types result.1 }
{
    let table = types.table();
    match place {
        Place::Before(n) => match table.extent(n) {
            None => (None, Place::Lost),
            Some(extent) => (Some(Step::Scaled(extent.size)), Place::At(n)),
        },
        Place::At(n) => {
            let k = field_number(types, index);
            let shape = table.shape(n);
            (step_in(table, n, shape, k), place_in(part_in(shape, k)))
        }
        Place::Lost => (None, Place::Lost),
    }
}

/// Appends an index and what it does, if it does something.
fn add_move<'a>(
    list: &mut Items<Move<'a>>,
    index: &'a (TyText, Opd),
    step: Option<Step>,
) -> Result<(), OutOfMemory>
    ensures { OnOk result (moves list.new ≡ moves list.old ++ with_step index.now step []) }
{
    if let Some(step) = step {
        list.push((index, step))?;
    }
    Ok(())
}

/// Returns the indices of a path that begins at a place, each with what it does. O(n) in them.
fn steps_from<'a>(
    alloc: Global,
    types: &Types<'_>,
    start: Place,
    indices: &'a [(TyText, Opd)],
) -> Result<Items<Move<'a>>, OutOfMemory>
    requires { IsRoomy types.now.types start }
    ensures { IfOk result (λ list. moves list ≡ rest_of types.now.defs types.now.types start indices.now) }
{
    let mut list = Items::new(alloc);
    let mut place = start;
    'each: for index in indices {
        let (step, next) = advance(types, place, index);
        add_move(&mut list, index, step)?;
        place = next;
    }
    Ok(list)
}

/// Returns the indices of a path into a type, each with what it does. It takes O(n) expected time
/// in the indices and the length of the type.
pub fn steps_of<'a>(
    alloc: Global,
    types: &mut Types<'_>,
    of: &TyText,
    indices: &'a [(TyText, Opd)],
) -> Result<Items<Move<'a>>, OutOfMemory>
    requires { is_large types.old.defs of.now ≡ false }
    ensures defs { types.new.defs ≡ types.old.defs }
    ensures steps { IfOk result (λ list. moves list ≡ memory.steps_of types.old.defs of.now indices.now) }
{
    let number = types.number(alloc, of)?;
    steps_from(alloc, types, Place::Before(number), indices)
}
