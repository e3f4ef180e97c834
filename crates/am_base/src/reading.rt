//! Reading a whole file of a shelf.

ghost use Rattle.std.specs.Prelude.{◌≡◌, ℕ, ◌+◌, ◌<◌, ◌≤◌, List, length, take, IfOk, OnOk};
ghost use Rattle.am_base.specs.Cause.{Rose};
ghost use Rattle.am_base.specs.Files.{Holds, IsHeld};

use crate::limits::MAX_FILE_BYTES;
use crate::shelf::Shelf;
use thiserror::Error;

/// Why a whole file was not read.
#[derive(Clone, Copy, Debug, PartialEq, Eq, Error)]
pub enum ReadFailed {
    /// A read failed, or no file has the name.
    #[error("the file could not be read")]
    Fault,
    /// The file has more than 4,194,304 bytes.
    #[error("the file has more than 4,194,304 bytes")]
    TooLong,
}

/// Reads a whole file into the front of a buffer of 4,194,305 bytes, and answers its length in
/// bytes. It refuses a file of more bytes than the limit as `TooLong`, once the buffer is full, and
/// answers `Fault` where a read failed or no file has the name. Each read but the last takes at
/// least one byte. The shelf holds the same files whatever it answers; what the buffer has after a
/// refusal is left open.
pub fn read_whole<F: Shelf>(shelf: &mut F, name: &str, into: &mut [u8]) -> Result<usize, ReadFailed>
    requires { length into.old ≡ MAX_FILE_BYTES + 1 }
    ensures within { IfOk result (λ count. count ≤ MAX_FILE_BYTES) }
    ensures held { OnOk result (IsHeld (F.files shelf.old) name.now) }
    ensures whole { IfOk result (λ count. (file : List ℕ) → Holds (F.files shelf.old) name.now file →
        take count into.new ≡ file) }
    ensures length { IfOk result (λ count. (file : List ℕ) → Holds (F.files shelf.old) name.now file →
        length file ≡ count) }
    ensures long { result ≡ Err ReadFailed.TooLong → (file : List ℕ) → Holds (F.files shelf.old) name.now file →
        MAX_FILE_BYTES < length file }
    ensures long_held { result ≡ Err ReadFailed.TooLong → IsHeld (F.files shelf.old) name.now }
    ensures cause { result ≡ Err ReadFailed.Fault →
        Rose (F.faults shelf.old name.now) (F.faults shelf.new name.now) }
    ensures kept { F.files shelf.new ≡ F.files shelf.old }
    ensures counts { (other : List ℕ) → F.faults shelf.old other ≤ F.faults shelf.new other }
{
    let mut taken = 0;
    while taken < into.len() {
        match shelf.read_at(name, taken as u64, &mut into[taken..]) {
            Err(_) => return Err(ReadFailed::Fault),
            Ok(0) => return Ok(taken),
            Ok(count) => taken += count,
        }
    }
    Err(ReadFailed::TooLong)
}
