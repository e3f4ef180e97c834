//! The text of types.
ghost use Rattle.ir_text.specs.Parts as parts;
ghost use Rattle.ir_text.specs.Printing.{with_tokens};
ghost use Rattle.std.specs.Prelude.{◌≡◌, map, OnOk};

use crate::sheet::Sheet;
use am_base::OutOfMemory;
use ir_tree::TyText;

/// Writes a comma before each element of a list but the first.
#[tactic(auto, using(crate::proofs::Steps::last, crate::proofs::Steps::done))]
pub fn put_comma(sheet: &mut Sheet, at: usize) -> Result<(), OutOfMemory>
    ensures { OnOk result (sheet.new ≡ with_tokens sheet.old (parts.comma_before at)) }
{
    if at == 0 {
        return Ok(());
    }
    sheet.sign(b',')?;
    Ok(())
}

/// Writes a type.
#[cycle(put_type)]
#[tactic(auto, using(crate::proofs::Steps::step, crate::proofs::Steps::part, crate::proofs::Steps::last, crate::proofs::TypeSteps::of_int, crate::proofs::TypeSteps::of_ptr, crate::proofs::TypeSteps::of_void, crate::proofs::TypeSteps::of_array, crate::proofs::TypeSteps::of_struct, crate::proofs::TypeSteps::of_named))]
pub fn put_type(sheet: &mut Sheet, ty: &TyText) -> Result<(), OutOfMemory>
    ensures { OnOk result (sheet.new ≡ with_tokens sheet.old (parts.type_lexemes ty.now)) }
{
    match ty {
        TyText::Int(width) => sheet.width(*width)?,
        TyText::Ptr => sheet.word(b"ptr")?,
        TyText::Void => sheet.word(b"void")?,
        TyText::Array(n, of) => {
            sheet.sign(b'[')?;
            sheet.array_length(*n)?;
            sheet.word(b"x")?;
            put_type(sheet, of.get())?;
            sheet.sign(b']')?;
        }
        TyText::Struct(fields) => {
            sheet.sign(b'{')?;
            put_types(sheet, fields.as_slice())?;
            sheet.sign(b'}')?;
        }
        TyText::Named(name) => sheet.local(name)?,
    }
    Ok(())
}

/// Writes types with commas between.
#[cycle(put_type)]
#[tactic(auto, using(crate::proofs::Steps::done, crate::proofs::Steps::commas_turn))]
pub fn put_types(sheet: &mut Sheet, types: &[TyText]) -> Result<(), OutOfMemory>
    ensures { OnOk result
        (sheet.new ≡ with_tokens sheet.old (parts.with_commas (map parts.type_lexemes types.now))) }
{
    'each: for (i, ty) in types.iter().enumerate() {
        put_comma(sheet, i)?;
        put_type(sheet, ty)?;
    }
    Ok(())
}
