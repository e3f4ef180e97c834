//! The text of initial values.
ghost use Rattle.ir_text.specs.Parts as parts;
ghost use Rattle.ir_text.specs.Printing.{with_tokens};
ghost use Rattle.std.specs.Prelude.{◌≡◌, map, OnOk};

use crate::operands::put_operand;
use crate::sheet::Sheet;
use crate::types::{put_comma, put_type};
use am_base::OutOfMemory;
use ir_tree::{Init, TyText};

/// Writes an initialiser.
#[cycle(put_init)]
pub fn put_init(sheet: &mut Sheet, init: &Init) -> Result<(), OutOfMemory>
    ensures { OnOk result (sheet.new ≡ with_tokens sheet.old (parts.init_lexemes init.now)) }
{
    match init {
        Init::One(operand) => put_operand(sheet, operand)?,
        Init::Text(text) => sheet.cstring(text.as_slice())?,
        Init::Array(elements) => {
            sheet.sign(b'[')?;
            put_elements(sheet, elements.as_slice())?;
            sheet.sign(b']')?;
        }
        Init::Struct(fields) => {
            sheet.sign(b'{')?;
            put_elements(sheet, fields.as_slice())?;
            sheet.sign(b'}')?;
        }
    }
    Ok(())
}

/// Writes elements with commas between, each after its type.
#[cycle(put_init)]
#[tactic(auto, using(crate::proofs::Steps::done))]
fn put_elements(sheet: &mut Sheet, elements: &[(TyText, Init)]) -> Result<(), OutOfMemory>
    ensures { OnOk result
        (sheet.new ≡ with_tokens sheet.old
        (parts.with_commas (map parts.init_element elements.now))) }
{
    'each: for (i, element) in elements.iter().enumerate() {
        put_comma(sheet, i)?;
        put_type(sheet, &element.0)?;
        put_init(sheet, &element.1)?;
    }
    Ok(())
}
