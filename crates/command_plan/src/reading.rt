//! Reading a whole file of a command.

ghost use Rattle.std.specs.Prelude.{◌≡◌, ℕ, ◌+◌, ◌≤◌, List, length, take, IfOk, IfErr};
ghost use Rattle.am_base.specs.Cause.{Rose};
ghost use Rattle.command_plan.specs.Plan.{Reads};
ghost use Rattle.command_plan.specs.Answer.{IsNotRead};

use crate::stop::Stop;
use am_base::{MAX_FILE_BYTES, ReadFailed, Shelf, read_whole};

/// Reads the file of a name into the front of a buffer of `MAX_FILE_BYTES + 1` bytes, and returns
/// its length in bytes. It answers `Fault` only where the count of faults of the name rose, and
/// `TooLong` iff the file has more than `MAX_FILE_BYTES` bytes.
pub fn read_file<F: Shelf>(shelf: &mut F, name: &str, buffer: &mut [u8]) -> Result<usize, Stop>
    requires { length buffer.old ≡ MAX_FILE_BYTES + 1 }
    ensures within { IfOk result (λ len. len ≤ MAX_FILE_BYTES) }
    ensures ok { IfOk result (λ len. Reads (F.files shelf.old) name.now (λ file. take len buffer.new ≡ file)) }
    ensures err { IfErr result (IsNotRead (F.files shelf.old) name.now
        (Rose (F.faults shelf.old name.now) (F.faults shelf.new name.now))) }
    ensures kept { F.files shelf.new ≡ F.files shelf.old }
    ensures counts { (other : List ℕ) → F.faults shelf.old other ≤ F.faults shelf.new other }
{
    match read_whole(shelf, name, buffer) {
        Ok(len) => Ok(len),
        Err(ReadFailed::Fault) => Err(Stop::Fault),
        Err(ReadFailed::TooLong) => Err(Stop::TooLong),
    }
}
