//! The records of a list of mutants, one by one.

ghost use Rattle.std.specs.Prelude.{◌≡◌, ◌≤◌, ◌<◌, ◌^◌, ℕ, List, length, IfOk, IfSome};
ghost use Rattle.csv.specs.Records.{fields_of};
ghost use Rattle.code_form.specs.Places.{function_at};
ghost use Rattle.code_form.specs.Sound.{IsSound};
ghost use Rattle.function_names.specs.Names.{function_named, number_in};
ghost use Rattle.list_records.specs.Records.{field_of};
ghost use Rattle.mutant_records.specs.Lists as spec;
ghost use Rattle.mutant_records.specs.Progress.{Keeps};

use crate::error::MutantError;
use crate::list::{ListForm, Made, Replacement};
use crate::progress::Progress;
use am_base::{MAX_FILE_BYTES, MAX_LISTED_MUTANTS, OutOfMemory};
use am_lists::Bytes;
use code_form::{Code, Func, Place};
use csv::ByteRecord;
use function_names::FunctionNames;
use list_records::{field, number_within};
use std::alloc::Global;

/// What decides whether the instruction that a text spells can stand in the place of another. It is
/// made once for a module, since each record of a list asks it.
pub trait Replaces {
    ghost use Rattle.code_form.specs.declared.code.Code.{Code};
    ghost use Rattle.mutant_records.specs.Lists.{Reading};

    /// What it decides over. Contracts alone read it.
    ghost Subject: { Type 0 };

    ghost subject: { Self → Subject };

    /// The code in whose places the replacements stand.
    ghost code: { Subject → Code };

    /// What a text is as a replacement in a place.
    ghost Reads: { Subject → Reading };

    /// Returns what a text of at most `MAX_FILE_BYTES` bytes is as a replacement in a place of the
    /// code. It decides over the same afterwards, also after an error.
    fn replacement(
        &mut self,
        alloc: Global,
        place: Place,
        text: &[u8],
    ) -> Result<Replacement, OutOfMemory>
        requires within { place.0 < length (code (subject self.old)).instrs }
        requires short { length text.now ≤ MAX_FILE_BYTES }
        ensures value { IfOk result (λ found. Reads (subject self.old) place.0 text.now found) }
        ensures kept { subject self.new ≡ subject self.old };
}

/// Whether the three fields from a number on have the names that each header has.
fn names_fields(row: &ByteRecord, from: usize) -> bool
    requires { from < 2 }
    ensures { result ≡ spec.names_fields (fields_of row.now) from }
{
    field(row, from) == b"function".as_slice()
        && field(row, from + 1) == b"instruction".as_slice()
        && field(row, from + 2) == b"replacement".as_slice()
}

/// The form of the list whose record 0 this is; `None` where it is no header.
pub(crate) fn form_of(row: &ByteRecord) -> Option<ListForm>
    ensures { result ≡ spec.form_of (fields_of row.now) }
{
    if row.len() == 3 && names_fields(row, 0) {
        return Some(ListForm::Plain);
    }
    if row.len() == 4 && field(row, 0) == b"mutant".as_slice() && names_fields(row, 1) {
        return Some(ListForm::Numbered);
    }
    None
}

/// The place of a function's first instruction.
fn first_place(f: &Func) -> u32
    ensures { result ≡ spec.first_place f.now }
{
    match f.blocks.as_slice().first() {
        Some(b) => b.first,
        None => 0,
    }
}

/// The place behind a function's last instruction.
fn end_place(f: &Func) -> u32
    requires { spec.end_place f.now < 2 ^ 32 }
    ensures { result ≡ spec.end_place f.now }
{
    match f.blocks.as_slice().last() {
        Some(b) => b.first + b.len,
        None => 0,
    }
}

/// The place of the instruction that a text numbers, from 1 in the function.
fn place_named(f: &Func, text: &[u8]) -> Option<u32>
    requires rising { spec.first_place f.now ≤ spec.end_place f.now }
    requires few { spec.end_place f.now ≤ 65536 }
    ensures value { result ≡ spec.place_named f.now text.now }
    ensures within { IfSome result (λ place. place < spec.end_place f.now) }
{
    let first = first_place(f);
    let count = end_place(f) - first;
    match number_within(u64::from(count), text) {
        Some(number) => Some((u64::from(first) + number - 1) as u32),
        None => None,
    }
}

/// What a record names before its replacement.
#[derive(Clone, Copy)]
struct Target {
    mutant: u32,
    function: u32,
    place: u32,
}

/// What a replacement gives: it fits its place, unless there are too many mutants, or it has a fault.
fn made_of(target: Target, number: u32, found: Replacement) -> Result<Made, MutantError>
    ensures { result ≡ spec.made_of target.mutant target.function target.place number found }
{
    match found {
        Replacement::NoInstruction => Err(MutantError::NotAnInstruction { row: number }),
        Replacement::Misfit => Err(MutantError::NotOfItsType { row: number }),
        Replacement::Fits(with) => {
            if target.mutant > MAX_LISTED_MUTANTS {
                return Err(MutantError::Limit { row: number });
            }
            Ok(Made {
                mutant: target.mutant,
                function: target.function,
                place: Place(target.place),
                with,
            })
        }
    }
}

/// Reads the replacement of a record.
fn read_replacement<C: Replaces>(
    alloc: Global,
    checker: &mut C,
    target: Target,
    number: u32,
    text: &[u8],
) -> Result<Result<Made, MutantError>, OutOfMemory>
    requires within { target.place < length (C.code (C.subject checker.old)).instrs }
    requires short { length text.now ≤ MAX_FILE_BYTES }
    ensures value { IfOk result (λ made. spec.GivesAt (C.Reads (C.subject checker.old)) target.mutant target.function target.place number text.now made) }
    ensures kept { C.subject checker.new ≡ C.subject checker.old }
{
    let found = checker.replacement(alloc, Place(target.place), text)?;
    Ok(made_of(target, number, found))
}

/// Reads the record of a number behind those that gave the replacements so far.
pub(crate) fn read_record<C: Replaces>(
    alloc: Global,
    code: &Code,
    functions: &FunctionNames,
    checker: &mut C,
    so_far: &Progress,
    number: u32,
    row: &ByteRecord,
) -> Result<Result<Made, MutantError>, OutOfMemory>
    requires sound { IsSound code.now }
    requires named { (name : List ℕ) → number_in functions.now name ≡ function_named code.now name }
    requires over { C.code (C.subject checker.old) ≡ code.now }
    requires keeps { Keeps so_far.now }
    requires next { so_far.now.mutant ≤ number }
    requires short { (i : ℕ) → length (field_of (fields_of row.now) i) ≤ MAX_FILE_BYTES }
    ensures value { IfOk result (λ made.
        spec.RecordGives code.now (C.Reads (C.subject checker.old)) so_far.now.form so_far.now.all number (fields_of row.now) made) }
    ensures kept { C.subject checker.new ≡ C.subject checker.old }
{
    let from = so_far.fields_before();
    if row.len() != from + 3 {
        return Ok(Err(MutantError::Lengths { row: number }));
    }
    let Some(mutant) = so_far.mutant_of(number, row) else {
        return Ok(Err(MutantError::Numbering { row: number }));
    };
    let name = Bytes::from_slice(alloc, field(row, from))?;
    let Some(function) = functions.find(&name) else {
        return Ok(Err(MutantError::UnknownFunction { row: number }));
    };
    let f = function_at(code, function);
    let Some(place) = place_named(f, field(row, from + 1)) else {
        return Ok(Err(MutantError::NoPlace { row: number }));
    };
    if so_far.is_taken(mutant, place) {
        return Ok(Err(MutantError::SamePlace { row: number }));
    }
    let target = Target {
        mutant,
        function,
        place,
    };
    read_replacement(alloc, checker, target, number, field(row, from + 2))
}

/// The function with a number.
fn function_at(code: &Code, number: u32) -> &Func
    requires { number < length code.now.funcs }
    ensures { result.now ≡ function_at code.now number }
{
    match code.funcs.get(number as usize) {
        Some(f) => f,
        None => unreachable!(),
    }
}
