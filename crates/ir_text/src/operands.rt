//! The text of operands.
ghost use Rattle.ir_text.specs.Parts as parts;
ghost use Rattle.ir_text.specs.Printing.{with_tokens};
ghost use Rattle.ir_tree.specs.declared.operand.Opd.TheVariants as opd;
ghost use Rattle.std.specs.Prelude.{◌≡◌, map, OnOk};

use crate::sheet::Sheet;
use crate::types::put_type;
use am_base::OutOfMemory;
use ir_tree::{Name, Opd, TyText};

#[tactic(auto, using(crate::proofs::Steps::part, crate::proofs::Steps::last))]
fn put_index(sheet: &mut Sheet, index: &(TyText, i128)) -> Result<(), OutOfMemory>
    ensures { OnOk result (sheet.new ≡ with_tokens sheet.old (parts.constant_index index.now)) }
{
    put_type(sheet, &index.0)?;
    sheet.number(index.1)?;
    Ok(())
}

/// Writes the indices of a constant, each after a comma.
#[tactic(auto, using(crate::proofs::Steps::done))]
fn put_indices(sheet: &mut Sheet, indices: &[(TyText, i128)]) -> Result<(), OutOfMemory>
    ensures { OnOk result
        (sheet.new ≡ with_tokens sheet.old
        (parts.behind_commas (map parts.constant_index indices.now))) }
{
    'each: for index in indices {
        sheet.sign(b',')?;
        put_index(sheet, index)?;
    }
    Ok(())
}

#[tactic(auto, using(crate::proofs::Steps::step, crate::proofs::Steps::part, crate::proofs::Steps::last), unfolding(crate::specs::Parts::operand_lexemes))]
fn put_constant(
    sheet: &mut Sheet,
    of: &TyText,
    base: &TyText,
    name: &Name,
    indices: &[(TyText, i128)],
) -> Result<(), OutOfMemory>
    ensures { OnOk result
        (sheet.new ≡ with_tokens sheet.old
        (parts.operand_lexemes (opd.Get (of.now, base.now, name.now, indices.now)))) }
{
    sheet.word(b"getelementptr")?;
    sheet.sign(b'(')?;
    put_type(sheet, of)?;
    sheet.sign(b',')?;
    put_type(sheet, base)?;
    sheet.global(name)?;
    put_indices(sheet, indices)?;
    sheet.sign(b')')?;
    Ok(())
}

/// Writes an operand.
#[tactic(auto, using(crate::proofs::Steps::last), unfolding(crate::specs::Parts::operand_lexemes))]
pub fn put_operand(sheet: &mut Sheet, operand: &Opd) -> Result<(), OutOfMemory>
    ensures { OnOk result (sheet.new ≡ with_tokens sheet.old (parts.operand_lexemes operand.now)) }
{
    match operand {
        Opd::Local(name) => sheet.local(name)?,
        Opd::Global(name) => sheet.global(name)?,
        Opd::Number(n) => sheet.number(*n)?,
        Opd::True => sheet.word(b"true")?,
        Opd::False => sheet.word(b"false")?,
        Opd::Null => sheet.word(b"null")?,
        Opd::Undef => sheet.word(b"undef")?,
        Opd::Poison => sheet.word(b"poison")?,
        Opd::Zero => sheet.word(b"zeroinitializer")?,
        Opd::Get(parts) => {
            let (of, base, name, indices) = parts.get();
            put_constant(sheet, of, base, name, indices.as_slice())?;
        }
    }
    Ok(())
}

/// Writes an operand after its type.
#[tactic(auto, using(crate::proofs::Steps::part))]
pub fn put_typed(sheet: &mut Sheet, ty: &TyText, operand: &Opd) -> Result<(), OutOfMemory>
    ensures { OnOk result (sheet.new ≡ with_tokens sheet.old (parts.typed ty.now operand.now)) }
{
    put_type(sheet, ty)?;
    put_operand(sheet, operand)?;
    Ok(())
}
