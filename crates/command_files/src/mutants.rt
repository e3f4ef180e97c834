//! The list of mutants of a command.

ghost use Rattle.std.specs.Prelude.{◌≡◌, ℕ, ◌+◌, ◌≤◌, ◌<◌, ◌^◌, List, length, IfOk, IfErr};
ghost use Rattle.am_base.specs.Cause.{Rose};
ghost use Rattle.code_form.specs.Fit.{FitsTable};
ghost use Rattle.mutant_records.specs.Tables.{IsListOf};
ghost use Rattle.mutant_records.specs.declared.list.Made.{Made};
ghost use Rattle.command_plan.specs.declared.status.Input.TheVariants as input;
ghost use Rattle.command_plan.specs.Answer.{Fails, Says};
ghost use Rattle.command_plan.specs.Plan.{Reads};
ghost use Rattle.command_files.specs.Modules.{IsAccepted};
ghost use Rattle.command_files.specs.Mutants.{AreMutants, AreRefused};

use crate::module::Loaded;
use am_base::{MAX_FILE_BYTES, Shelf};
use code_form::PortSign;
use command_plan::{Input, Stop, read_file};
use mutant_list::{MutantList, read_mutants};
use refused_lines::refused_mutants_line;
use std::alloc::Global;

/// The list of mutants that a text is, or its refusal.
pub(crate) fn mutants_of(
    alloc: Global,
    text: &[u8],
    m: &Loaded,
    signs: &[PortSign],
) -> Result<MutantList, Stop>
    requires short { length text.now ≤ MAX_FILE_BYTES }
    requires signs { length signs.now < 2 ^ 32 }
    requires accepted { (file : List ℕ) × (length file ≤ MAX_FILE_BYTES) × IsAccepted signs.now file m.now }
    ensures accepted { IfOk result (λ list. (all : List Made) × AreMutants signs.now m.now text.now all × IsListOf m.now.code all list) }
    ensures fits { IfOk result (λ list. FitsTable m.now.code list.variants) }
    ensures refused { IfErr result (Says input.Mutants (AreRefused signs.now m.now text.now)) }
{
    match read_mutants(alloc, text, &m.module, signs, &m.code) {
        Ok(list) => Ok(list),
        Err(error) => Err(Stop::refusal(Input::Mutants, refused_mutants_line(alloc, error))),
    }
}

/// Reads the list of mutants of a name by way of a buffer of `MAX_FILE_BYTES + 1` bytes, for a
/// module that was accepted.
pub fn load_mutants<F: Shelf>(
    alloc: Global,
    shelf: &mut F,
    name: &str,
    buffer: &mut [u8],
    m: &Loaded,
    signs: &[PortSign],
) -> Result<MutantList, Stop>
    requires buffer { length buffer.old ≡ MAX_FILE_BYTES + 1 }
    requires signs { length signs.now < 2 ^ 32 }
    requires accepted { (file : List ℕ) × (length file ≤ MAX_FILE_BYTES) × IsAccepted signs.now file m.now }
    ensures ok { IfOk result (λ list. (all : List Made) × Reads (F.files shelf.old) name.now (λ file. AreMutants signs.now m.now file all)
        × IsListOf m.now.code all list) }
    ensures fits { IfOk result (λ list. FitsTable m.now.code list.variants) }
    ensures err { IfErr result (Fails (F.files shelf.old) name.now (Rose (F.faults shelf.old name.now) (F.faults shelf.new name.now))
        input.Mutants (AreRefused signs.now m.now)) }
    ensures kept { F.files shelf.new ≡ F.files shelf.old }
    ensures counts { (other : List ℕ) → F.faults shelf.old other ≤ F.faults shelf.new other }
{
    let len = match read_file(shelf, name, buffer) {
        Ok(len) => len,
        Err(stop) => return Err(stop),
    };
    mutants_of(alloc, &buffer[..len], m, signs)
}
