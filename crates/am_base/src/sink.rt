//! The trait through which text is written, and writing a whole piece to it.

ghost use Rattle.std.specs.Prelude.{◌≡◌, ℕ, ◌<◌, ◌≤◌, List, length, take, IfOk, OnOk, OnErr};
ghost use Rattle.am_base.specs.Cause.{Rose};
ghost use Rattle.am_base.specs.Text.{Written, appended, AppendsProperPrefix};

use thiserror::Error;

/// A sink took nothing.
#[derive(Clone, Copy, Debug, PartialEq, Eq, Error)]
#[error("the text could not be written")]
pub struct SinkFailed;

/// A destination of text. A sink has two meanings: the bytes written so far, where it tells them,
/// and a count of faults. A write fails only in a call in which the count rose: it is greater after
/// the call than before, or stands at 2^64 - 1 after it.
pub trait Sink {
    ghost written: { Self → Written };

    ghost faults: { Self → ℕ };

    /// Writes the front of a piece, and returns the number of bytes written. A write that fails
    /// writes nothing.
    fn write(&mut self, piece: &[u8]) -> Result<usize, SinkFailed>
        ensures within { IfOk result (λ count. count ≤ length piece.now) }
        ensures some { IfOk result (λ count. 0 < length piece.now → 0 < count) }
        ensures appended { IfOk result (λ count. written self.new ≡ appended (written self.old) (take count piece.now)) }
        ensures unchanged { OnErr result (written self.new ≡ written self.old) }
        ensures cause { OnErr result (Rose (faults self.old) (faults self.new)) }
        ensures counts { faults self.old ≤ faults self.new };
}

/// Writes a whole piece, in as many writes as it takes. Where one fails, what was written before it
/// stays: a proper prefix of the piece.
pub fn write_whole<K: Sink>(sink: &mut K, piece: &[u8]) -> Result<(), SinkFailed>
    ensures ok { OnOk result (K.written sink.new ≡ appended (K.written sink.old) piece.now) }
    ensures err { OnErr result (AppendsProperPrefix (K.written sink.old) (K.written sink.new) piece.now) }
    ensures cause { OnErr result (Rose (K.faults sink.old) (K.faults sink.new)) }
    ensures counts { K.faults sink.old ≤ K.faults sink.new }
{
    let mut sent = 0;
    while sent < piece.len() {
        sent += sink.write(&piece[sent..])?;
    }
    Ok(())
}
