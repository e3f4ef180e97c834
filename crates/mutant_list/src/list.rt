//! How a list of mutants is read for a module.
ghost use Rattle.std.specs.Prelude.{◌≡◌, ◌<◌, ◌≤◌, ◌^◌, None, false, length, IfOk};
ghost use Rattle.code_form.specs.Fit.{FitsTable};
ghost use Rattle.ir_op_codes.specs.Alone.{AreSame};
ghost use Rattle.ir_rules.specs.Memory.{addresses_of};
ghost use Rattle.ir_rules.specs.Modules.{code_of};
ghost use Rattle.ir_rules.specs.Types.{type_defs};
ghost use Rattle.ir_rules.specs.Rules.{fault};
ghost use Rattle.ir_sound.specs.Whole.{AreWhole};
ghost use Rattle.list_records.specs.Records.{rows_of};
ghost use Rattle.mutant_records.specs.Tables.{Answers};
ghost use Rattle.mutant_list.specs.Texts.{Reads};

use crate::addresses::addresses_in;
use crate::texts::Texts;
use am_base::{MAX_FILE_BYTES, OutOfMemory};
use code_form::{Code, PortSign};
use ir_names::NameTable;
use ir_replacements::Checker;
use ir_tree::Module;
use mutant_records::{MutantError, MutantList, read_mutants_over};
use std::alloc::Global;

/// Reads a list of mutants for the code of a module without a fault, over which `checker` decides.
/// The text is read as `csv` reads it with `;` between fields. Where its first record is
/// `function;instruction;replacement`, each further one is a mutant, from 1 on; where it is
/// `mutant;function;instruction;replacement`, each further one adds a replacement to the mutant of
/// its first field. The first record with a fault is refused, with its first fault in the order of
/// `MutantError`.
/// `OutOfMemory` may come at any text. O(n) in the bytes of the text, and in the instructions that
/// it names.
pub fn read_mutants_by(
    alloc: Global,
    text: &[u8],
    code: &Code,
    checker: Checker<'_>,
) -> Result<MutantList, MutantError>
    requires short { length text.now ≤ MAX_FILE_BYTES }
    requires whole { AreWhole false checker.items }
    requires faultless { fault checker.items checker.signs ≡ None }
    requires code { code.now ≡ code_of checker.items checker.signs }
    ensures answer { Answers code.now (Reads checker.entry.items checker.entry.signs) (rows_of text.now) result }
    ensures fits { IfOk result (λ list. FitsTable code.now list.variants) }
{
    let mut texts = Texts { checker };
    read_mutants_over(alloc, text, code, &mut texts)
}

/// Reads a list of mutants for the code of a module without a fault, with these ports, as
/// `read_mutants_by` does. `addresses` are those of the module's globals. O(n) in the items of the
/// module, the bytes of the text, and the instructions that it names.
pub fn read_mutants_at(
    alloc: Global,
    text: &[u8],
    m: &Module,
    signs: &[PortSign],
    code: &Code,
    addresses: NameTable<u64>,
) -> Result<MutantList, MutantError>
    requires short { length text.now ≤ MAX_FILE_BYTES }
    requires few { length signs.now ≤ 2 ^ 32 }
    requires whole { AreWhole false m.now.items }
    requires faultless { fault m.now.items signs.now ≡ None }
    requires code { code.now ≡ code_of m.now.items signs.now }
    requires placed { AreSame addresses (addresses_of (type_defs m.now.items) m.now.items) }
    ensures answer { Answers code.now (Reads m.now.items signs.now) (rows_of text.now) result }
    ensures fits { IfOk result (λ list. FitsTable code.now list.variants) }
{
    match Checker::over(alloc, m.items.as_slice(), signs, addresses) {
        Ok(checker) => read_mutants_by(alloc, text, code, checker),
        Err(OutOfMemory) => Err(MutantError::OutOfMemory),
    }
}

/// Reads a list of mutants for the code of a module without a fault, with these ports, as
/// `read_mutants_by` does. O(n) in the items of the module, the bytes of the text, and the
/// instructions that it names.
pub fn read_mutants(
    alloc: Global,
    text: &[u8],
    m: &Module,
    signs: &[PortSign],
    code: &Code,
) -> Result<MutantList, MutantError>
    requires short { length text.now ≤ MAX_FILE_BYTES }
    requires few { length m.now.items ≤ MAX_FILE_BYTES }
    requires signs { length signs.now < 2 ^ 32 }
    requires whole { AreWhole false m.now.items }
    requires faultless { fault m.now.items signs.now ≡ None }
    requires code { code.now ≡ code_of m.now.items signs.now }
    ensures answer { Answers code.now (Reads m.now.items signs.now) (rows_of text.now) result }
    ensures fits { IfOk result (λ list. FitsTable code.now list.variants) }
{
    match addresses_in(alloc, m.items.as_slice()) {
        Ok(addresses) => read_mutants_at(alloc, text, m, signs, code, addresses),
        Err(OutOfMemory) => Err(MutantError::OutOfMemory),
    }
}
