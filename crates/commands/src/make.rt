//! `make`: the list of the mutants that are made of a module.

ghost use Rattle.std.specs.Prelude.{◌≡◌, ℕ, ◌+◌, ◌≤◌, ◌<◌, ◌^◌, List, length};
ghost use Rattle.am_base.specs.Cause.{Rose};
ghost use Rattle.command_plan.specs.Plan.{Counts};
ghost use Rattle.command_plan.specs.Answer.{Found};
ghost use Rattle.commands.specs.Plans.{make_plan};

use crate::check::zeros;
use am_base::{MAX_FILE_BYTES, Shelf};
use am_lists::Bytes;
use code_form::PortSign;
use command_files::load_module;
use command_plan::Stop;
use mutant_maker::{MakeError, make};
use std::alloc::Global;

/// The text of `make` for a module of this name, for ports with these signs, or why there is none:
/// `TooMany` iff the module is accepted and more than `MAX_LISTED_MUTANTS` mutants are made of it.
/// It takes a buffer of `MAX_FILE_BYTES + 1` bytes.
pub fn make_found<F: Shelf>(
    alloc: Global,
    shelf: &mut F,
    name: &str,
    signs: &[PortSign],
) -> Result<Bytes, Stop>
    requires { length signs.now < 2 ^ 32 }
    ensures found { (counts : Counts) → Found (F.files shelf.old) (λ name. Rose (F.faults shelf.old name) (F.faults shelf.new name))
        (make_plan signs.now name.now) counts counts result }
    ensures kept { F.files shelf.new ≡ F.files shelf.old }
    ensures counts { (other : List ℕ) → F.faults shelf.old other ≤ F.faults shelf.new other }
{
    let Ok(mut buffer) = zeros(alloc, MAX_FILE_BYTES + 1) else {
        return Err(Stop::OutOfMemory);
    };
    match load_module(alloc, shelf, name, &mut buffer, signs) {
        Err(stop) => Err(stop),
        Ok(m) => match make(alloc, &m.module, &m.code) {
            Ok(text) => Ok(Bytes::from_vec(text)),
            Err(MakeError::TooMany) => Err(Stop::TooMany),
            Err(MakeError::OutOfMemory) => Err(Stop::OutOfMemory),
        },
    }
}
