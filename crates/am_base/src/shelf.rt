//! The trait through which files are read.

ghost use Rattle.std.specs.Prelude.{◌≡◌, ℕ, ◌<◌, ◌≤◌, List, length, take, drop, IfOk, OnOk, OnErr};
ghost use Rattle.am_base.specs.Cause.{Rose};
ghost use Rattle.am_base.specs.Files.{Files, Holds, IsHeld, IsMissing};

use thiserror::Error;

/// Why a shelf gave no bytes.
#[derive(Clone, Copy, Debug, PartialEq, Eq, Error)]
pub enum ShelfFault {
    /// No file has the name.
    #[error("no file has this name")]
    Missing,
    /// The read failed.
    #[error("the file could not be read")]
    Failed,
}

/// A source of files by their names. A shelf has two meanings: the files that it holds,
/// where it tells them, and for each name a count of faults. A fault is answered only by a call in
/// which the count of the name given rose: it is greater after the call than before, or stands at
/// 2^64 - 1 after it.
pub trait Shelf {
    ghost files: { Self → Files };

    ghost faults: { Self → List ℕ → ℕ };

    /// Reads bytes of the file from offset `from`, counted from 0, into the front of `into`, and
    /// returns how many. No bytes into a buffer that isn't empty mean that the file has none at the
    /// offset. What `into` has behind the bytes read, and after a fault, is left open.
    fn read_at(&mut self, name: &str, from: u64, into: &mut [u8]) -> Result<usize, ShelfFault>
        ensures within { IfOk result (λ count. count ≤ length into.old) }
        ensures held { OnOk result (IsHeld (files self.old) name.now) }
        ensures bytes { IfOk result (λ count. (file : List ℕ) → Holds (files self.old) name.now file →
            take count into.new ≡ take count (drop from file)) }
        ensures some { IfOk result (λ count. (file : List ℕ) → Holds (files self.old) name.now file →
            from < length file → 0 < length into.old → 0 < count) }
        ensures missing { result ≡ Err ShelfFault.Missing → IsMissing (files self.old) name.now }
        ensures cause { OnErr result (Rose (faults self.old name.now) (faults self.new name.now)) }
        ensures kept { files self.new ≡ files self.old }
        ensures counts { (other : List ℕ) → faults self.old other ≤ faults self.new other };
}
