//! How a list of mutants is read.

ghost use Rattle.std.specs.Prelude.{◌≡◌, ◌≤◌, ℕ, List, [], ◌∷◌, length, Ok, IfOk};
ghost use Rattle.code_form.specs.Fit.{FitsPlace, FitsTable};
ghost use Rattle.code_form.specs.Sound.{IsSound};
ghost use Rattle.list_records.specs.Records.{Fields, Gave, rows_of};
ghost use Rattle.mutant_records.specs.Lists as spec;
ghost use Rattle.mutant_records.specs.Tables.{Answers};
ghost use Rattle.code_form.specs.declared.instr.Instr.{Instr};

use crate::error::MutantError;
use crate::list::{ListForm, Made, MutantList, Replacement};
use crate::progress::Progress;
use crate::records::{Replaces, form_of, read_record};
use crate::table::list_of;
use am_base::{MAX_FILE_BYTES, MAX_LISTED_RECORDS, OutOfMemory};
use am_lists::Items;
use code_form::Code;
use csv::{ByteRecord, Reader};
use function_names::FunctionNames;
use list_records::{next_record, reader_of};
use std::alloc::Global;

/// Reads the records behind the header.
fn read_records<C: Replaces>(
    alloc: Global,
    code: &Code,
    checker: &mut C,
    form: ListForm,
    reader: &mut Reader<&[u8]>,
    row: &mut ByteRecord,
) -> Result<Result<Items<Made>, MutantError>, OutOfMemory>
    requires sound { IsSound code.now }
    requires over { C.code (C.subject checker.old) ≡ code.now }
    requires short { spec.IsShort reader.old }
    ensures { (text : List ℕ) (header : Fields) (records : List Fields) → Gave text reader.old (header ∷ []) → rows_of text ≡ header ∷ records
        → IfOk result (λ all. spec.RecordsGive code.now (C.Reads (C.subject checker.old)) form [] records all) }
{
    let functions = FunctionNames::new(alloc, code)?;
    let mut so_far = Progress::new(alloc, form);
    'each: for number in 1..MAX_LISTED_RECORDS + 2 {
        if !next_record(reader, row)? {
            return Ok(Ok(so_far.into_all()));
        }
        match read_record(alloc, code, &functions, checker, &so_far, number, row)? {
            Err(fault) => return Ok(Err(fault)),
            Ok(made) => so_far.push(made)?,
        }
    }
    unreachable!()
}

/// Reads the replacements of a list.
fn read_list<C: Replaces>(
    alloc: Global,
    text: &[u8],
    code: &Code,
    checker: &mut C,
) -> Result<Result<Items<Made>, MutantError>, OutOfMemory>
    requires sound { IsSound code.now }
    requires short { length text.now ≤ MAX_FILE_BYTES }
    requires over { C.code (C.subject checker.old) ≡ code.now }
    ensures { IfOk result (λ all. spec.ListGives code.now (C.Reads (C.subject checker.old)) (rows_of text.now) all) }
{
    let mut reader = reader_of(alloc, text);
    let mut row = ByteRecord::new(alloc);
    if !next_record(&mut reader, &mut row)? {
        return Ok(Err(MutantError::Header { row: 0 }));
    }
    let Some(form) = form_of(&row) else {
        return Ok(Err(MutantError::Header { row: 0 }));
    };
    read_records(alloc, code, checker, form, &mut reader, &mut row)
}

/// Reads the replacements of a list and makes their table.
fn read_whole<C: Replaces>(
    alloc: Global,
    text: &[u8],
    code: &Code,
    checker: &mut C,
) -> Result<Result<MutantList, MutantError>, OutOfMemory>
    requires sound { IsSound code.now }
    requires short { length text.now ≤ MAX_FILE_BYTES }
    requires over { C.code (C.subject checker.old) ≡ code.now }
    requires fit { (at : ℕ) (spelled : List ℕ) (with : Instr) → C.Reads (C.subject checker.old) at spelled (Replacement.Fits with) → FitsPlace code.now at with }
    ensures answer { IfOk result (λ list. Answers code.now (C.Reads (C.subject checker.old)) (rows_of text.now) list) }
    ensures fits { IfOk result (λ list. IfOk list (λ l. FitsTable code.now l.variants)) }
{
    match read_list(alloc, text, code, checker)? {
        Err(fault) => Ok(Err(fault)),
        Ok(all) => Ok(Ok(list_of(alloc, code, all)?)),
    }
}

/// Reads a list of mutants for a code. The text is read as `csv` reads it with `;` between fields.
/// Where its first record is `function;instruction;replacement`, each further one is a mutant, from
/// 1 on; where it is `mutant;function;instruction;replacement`, each further one adds a replacement
/// to the mutant of its first field. The first record with a fault is refused, with its first fault in the order of
/// `MutantError`. What an instruction is, and whether it fits its place, `checker` decides.
pub fn read_mutants_over<C: Replaces>(
    alloc: Global,
    text: &[u8],
    code: &Code,
    checker: &mut C,
) -> Result<MutantList, MutantError>
    requires sound { IsSound code.now }
    requires short { length text.now ≤ MAX_FILE_BYTES }
    requires over { C.code (C.subject checker.old) ≡ code.now }
    requires fit { (at : ℕ) (spelled : List ℕ) (with : Instr) → C.Reads (C.subject checker.old) at spelled (Replacement.Fits with) → FitsPlace code.now at with }
    ensures answer { Answers code.now (C.Reads (C.subject checker.old)) (rows_of text.now) result }
    ensures fits { IfOk result (λ list. FitsTable code.now list.variants) }
{
    match read_whole(alloc, text, code, checker) {
        Ok(answer) => answer,
        Err(OutOfMemory) => Err(MutantError::OutOfMemory),
    }
}
