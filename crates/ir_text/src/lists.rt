//! The text of lists in instructions and heads.
ghost use Rattle.ir_text.specs.Parts as parts;
ghost use Rattle.ir_text.specs.Printing.{with_tokens};
ghost use Rattle.std.specs.Prelude.{◌≡◌, map, OnOk};

use crate::operands::{put_operand, put_typed};
use crate::sheet::Sheet;
use crate::types::{put_comma, put_type};
use am_base::OutOfMemory;
use ir_tree::{Name, Opd, TyText};

/// Writes `label` and the name of a block.
#[tactic(auto, using(crate::proofs::Steps::step, crate::proofs::Steps::last))]
pub fn put_target(sheet: &mut Sheet, name: &Name) -> Result<(), OutOfMemory>
    ensures { OnOk result (sheet.new ≡ with_tokens sheet.old (parts.target name.now)) }
{
    sheet.word(b"label")?;
    sheet.local(name)?;
    Ok(())
}

/// Writes the indices of a `getelementptr`, each after a comma.
#[tactic(auto, using(crate::proofs::Steps::done))]
pub fn put_indices(sheet: &mut Sheet, indices: &[(TyText, Opd)]) -> Result<(), OutOfMemory>
    ensures { OnOk result
        (sheet.new ≡ with_tokens sheet.old
        (parts.behind_commas (map parts.typed_operand indices.now))) }
{
    'each: for index in indices {
        sheet.sign(b',')?;
        put_typed(sheet, &index.0, &index.1)?;
    }
    Ok(())
}

/// Writes the arguments of a call, with commas between.
#[tactic(auto, using(crate::proofs::Steps::done))]
pub fn put_arguments(sheet: &mut Sheet, arguments: &[(TyText, Opd)]) -> Result<(), OutOfMemory>
    ensures { OnOk result
        (sheet.new ≡ with_tokens sheet.old
        (parts.with_commas (map parts.typed_operand arguments.now))) }
{
    'each: for (i, argument) in arguments.iter().enumerate() {
        put_comma(sheet, i)?;
        put_typed(sheet, &argument.0, &argument.1)?;
    }
    Ok(())
}

#[tactic(auto, using(crate::proofs::Steps::step, crate::proofs::Steps::part, crate::proofs::Steps::last))]
fn put_entry(sheet: &mut Sheet, entry: &(Opd, Name)) -> Result<(), OutOfMemory>
    ensures { OnOk result (sheet.new ≡ with_tokens sheet.old (parts.entry entry.now)) }
{
    sheet.sign(b'[')?;
    put_operand(sheet, &entry.0)?;
    sheet.sign(b',')?;
    sheet.local(&entry.1)?;
    sheet.sign(b']')?;
    Ok(())
}

/// Writes the entries of a `phi`, with commas between.
#[tactic(auto, using(crate::proofs::Steps::done))]
pub fn put_entries(sheet: &mut Sheet, entries: &[(Opd, Name)]) -> Result<(), OutOfMemory>
    ensures { OnOk result
        (sheet.new ≡ with_tokens sheet.old (parts.with_commas (map parts.entry entries.now))) }
{
    'each: for (i, entry) in entries.iter().enumerate() {
        put_comma(sheet, i)?;
        put_entry(sheet, entry)?;
    }
    Ok(())
}

#[tactic(auto, using(crate::proofs::Steps::step, crate::proofs::Steps::part))]
fn put_case(sheet: &mut Sheet, case: &(TyText, Opd, Name)) -> Result<(), OutOfMemory>
    ensures { OnOk result (sheet.new ≡ with_tokens sheet.old (parts.case case.now)) }
{
    put_typed(sheet, &case.0, &case.1)?;
    sheet.sign(b',')?;
    put_target(sheet, &case.2)?;
    Ok(())
}

/// Writes the cases of a `switch`.
#[tactic(auto, using(crate::proofs::Steps::done))]
pub fn put_cases(sheet: &mut Sheet, cases: &[(TyText, Opd, Name)]) -> Result<(), OutOfMemory>
    ensures { OnOk result
        (sheet.new ≡ with_tokens sheet.old (parts.joined (map parts.case cases.now))) }
{
    'each: for case in cases {
        put_case(sheet, case)?;
    }
    Ok(())
}

/// Writes the local of a parameter that has a name.
#[tactic(auto, using(crate::proofs::Steps::last, crate::proofs::Steps::done))]
fn put_some_local(sheet: &mut Sheet, name: &Option<Name>) -> Result<(), OutOfMemory>
    ensures { OnOk result (sheet.new ≡ with_tokens sheet.old (parts.some_local name.now)) }
{
    match name {
        None => Ok(()),
        Some(name) => {
            sheet.local(name)?;
            Ok(())
        }
    }
}

#[tactic(auto, using(crate::proofs::Steps::part))]
fn put_parameter(sheet: &mut Sheet, parameter: &(TyText, Option<Name>)) -> Result<(), OutOfMemory>
    ensures { OnOk result (sheet.new ≡ with_tokens sheet.old (parts.parameter parameter.now)) }
{
    put_type(sheet, &parameter.0)?;
    put_some_local(sheet, &parameter.1)?;
    Ok(())
}

/// Writes the parameters of a function, with commas between.
#[tactic(auto, using(crate::proofs::Steps::done))]
pub fn put_parameters(
    sheet: &mut Sheet,
    parameters: &[(TyText, Option<Name>)],
) -> Result<(), OutOfMemory>
    ensures { OnOk result
        (sheet.new ≡ with_tokens sheet.old
        (parts.with_commas (map parts.parameter parameters.now))) }
{
    'each: for (i, parameter) in parameters.iter().enumerate() {
        put_comma(sheet, i)?;
        put_parameter(sheet, parameter)?;
    }
    Ok(())
}
