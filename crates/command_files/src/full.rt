//! The list of mutants of a command with what its records put in place.

ghost use Rattle.std.specs.Prelude.{◌≡◌, ℕ, ◌+◌, ◌≤◌, ◌<◌, ◌^◌, List, length, IfOk, IfErr};
ghost use Rattle.am_base.specs.Cause.{Rose};
ghost use Rattle.code_form.specs.Fit.{FitsTable};
ghost use Rattle.mutant_records.specs.Tables.{IsListOf};
ghost use Rattle.list_records.specs.Records.{rows_of};
ghost use Rattle.list_texts.specs.Texts as spec;
ghost use Rattle.command_plan.specs.declared.status.Input.TheVariants as input;
ghost use Rattle.command_plan.specs.declared.stop.Stop.TheVariants as stop;
ghost use Rattle.command_plan.specs.Answer.{Fails};
ghost use Rattle.command_plan.specs.Plan.{Reads};
ghost use Rattle.command_files.specs.FullLists.{FullList, IsFullList};
ghost use Rattle.command_files.specs.Modules.{IsAccepted};
ghost use Rattle.command_files.specs.Mutants.{AreRefused};

use crate::module::Loaded;
use crate::mutants::mutants_of;
use am_base::{MAX_FILE_BYTES, OutOfMemory, Shelf};
use am_lists::{Bytes, Items};
use code_form::PortSign;
use command_plan::{Stop, read_file};
use list_texts::replacement_texts;
use mutant_list::MutantList;
use std::alloc::Global;

/// A list of mutants, and what each of its records puts in place, as the file has it.
#[derive(Drop)]
pub struct Listing {
    pub list: MutantList,
    pub texts: Items<Bytes>,
}

/// Adds to a list what its records put in place.
fn with_texts(alloc: Global, text: &[u8], list: MutantList) -> Result<Listing, Stop>
    requires { length text.now ≤ MAX_FILE_BYTES }
    ensures list { IfOk result (λ x. x.list ≡ list) }
    ensures texts { IfOk result (λ x. x.texts ≡ spec.replacement_texts (rows_of text.now)) }
    ensures refused { IfErr result (λ s. s ≡ stop.OutOfMemory) }
{
    match replacement_texts(alloc, text) {
        Ok(texts) => Ok(Listing { list, texts }),
        Err(OutOfMemory) => Err(Stop::OutOfMemory),
    }
}

/// Reads the list of mutants of a name as `load_mutants` does, and with it what its records put in
/// place.
pub fn load_listing<F: Shelf>(
    alloc: Global,
    shelf: &mut F,
    name: &str,
    buffer: &mut [u8],
    m: &Loaded,
    signs: &[PortSign],
) -> Result<Listing, Stop>
    requires buffer { length buffer.old ≡ MAX_FILE_BYTES + 1 }
    requires signs { length signs.now < 2 ^ 32 }
    requires accepted { (file : List ℕ) × (length file ≤ MAX_FILE_BYTES) × IsAccepted signs.now file m.now }
    ensures ok { IfOk result (λ x. (full : FullList) × Reads (F.files shelf.old) name.now (λ file. IsFullList signs.now m.now file full)
        × IsListOf m.now.code full.all x.list × (x.texts ≡ full.texts)) }
    ensures fits { IfOk result (λ x. FitsTable m.now.code x.list.variants) }
    ensures err { IfErr result (Fails (F.files shelf.old) name.now (Rose (F.faults shelf.old name.now) (F.faults shelf.new name.now))
        input.Mutants (AreRefused signs.now m.now)) }
    ensures kept { F.files shelf.new ≡ F.files shelf.old }
    ensures counts { (other : List ℕ) → F.faults shelf.old other ≤ F.faults shelf.new other }
{
    let len = match read_file(shelf, name, buffer) {
        Ok(len) => len,
        Err(stop) => return Err(stop),
    };
    match mutants_of(alloc, &buffer[..len], m, signs) {
        Ok(list) => with_texts(alloc, &buffer[..len], list),
        Err(stop) => Err(stop),
    }
}
