//! Writing what a command found.

ghost use Rattle.std.specs.Prelude.{◌≡◌, ◌≤◌};
ghost use Rattle.am_base.specs.Cause.{Rose};
ghost use Rattle.command_plan.specs.Answer.{WritesText, WritesFound};

use crate::status::Status;
use crate::stop::Stop;
use am_base::{Sink, write_whole};
use am_lists::Bytes;

/// Writes a text. Returns the status that goes with it, or `WriteFault` where it could not be
/// written whole.
fn write_text<K: Sink>(sink: &mut K, text: &[u8], status: Status) -> Status
    ensures writes { WritesText text.now (K.written sink.old) (K.written sink.new)
        (Rose (K.faults sink.old) (K.faults sink.new)) status result }
    ensures counts { K.faults sink.old ≤ K.faults sink.new }
{
    match write_whole(sink, text) {
        Ok(()) => status,
        Err(_) => Status::WriteFault,
    }
}

/// Writes the text of a command or the line of its refusal, and returns the command's status.
/// Where there is neither, nothing is written. Where the sink fails, a proper prefix of the text or
/// of the line was written, and the status is `WriteFault`.
pub fn write_found<K: Sink>(sink: &mut K, found: Result<Bytes, Stop>) -> Status
    ensures writes { WritesFound found (K.written sink.old) (K.written sink.new)
        (Rose (K.faults sink.old) (K.faults sink.new)) result }
    ensures counts { K.faults sink.old ≤ K.faults sink.new }
{
    match found {
        Ok(text) => write_text(sink, text.as_slice(), Status::Done),
        Err(Stop::Refused(input, line)) => write_text(sink, line.as_slice(), input.refused()),
        Err(Stop::Fault) => Status::ReadFault,
        Err(Stop::TooLong) => Status::TooLong,
        Err(Stop::TooMany) => Status::TooMany,
        Err(Stop::OutOfMemory) => Status::OutOfMemory,
    }
}
