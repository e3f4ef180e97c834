//! `check`: whether a module is accepted, and what it has.

ghost use Rattle.std.specs.Prelude.{◌≡◌, ℕ, ◌+◌, ◌≤◌, ◌<◌, ◌^◌, List, length, IfOk};
ghost use Rattle.am_base.specs.Cause.{Rose};
ghost use Rattle.command_plan.specs.Plan.{Counts};
ghost use Rattle.command_plan.specs.Answer.{Found};
ghost use Rattle.commands.specs.Plans.{check_plan};

use am_base::{MAX_FILE_BYTES, OutOfMemory, Shelf};
use am_lists::Bytes;
use code_form::PortSign;
use command_files::load_module;
use command_plan::Stop;
use command_texts::accepted_text;
use std::alloc::Global;

/// A buffer that a file is read into.
pub(crate) fn zeros(alloc: Global, len: usize) -> Result<Vec<u8>, OutOfMemory>
    ensures { IfOk result (λ bytes. length bytes.items ≡ len) }
{
    Ok(vec![in alloc; 0u8; len]?)
}

/// The text of `check` for a module of this name, for ports with these signs, or why there is none.
/// It takes a buffer of `MAX_FILE_BYTES + 1` bytes.
pub fn check_found<F: Shelf>(
    alloc: Global,
    shelf: &mut F,
    name: &str,
    signs: &[PortSign],
) -> Result<Bytes, Stop>
    requires { length signs.now < 2 ^ 32 }
    ensures found { (counts : Counts) → Found (F.files shelf.old) (λ name. Rose (F.faults shelf.old name) (F.faults shelf.new name))
        (check_plan signs.now name.now) counts counts result }
    ensures kept { F.files shelf.new ≡ F.files shelf.old }
    ensures counts { (other : List ℕ) → F.faults shelf.old other ≤ F.faults shelf.new other }
{
    let Ok(mut buffer) = zeros(alloc, MAX_FILE_BYTES + 1) else {
        return Err(Stop::OutOfMemory);
    };
    match load_module(alloc, shelf, name, &mut buffer, signs) {
        Err(stop) => Err(stop),
        Ok(m) => match accepted_text(alloc, m.module.items.as_slice()) {
            Ok(text) => Ok(text),
            Err(OutOfMemory) => Err(Stop::OutOfMemory),
        },
    }
}
