//! A sink in memory with a limited room, for tests of what writes.

ghost use Rattle.std.specs.Prelude.{◌≡◌, ℕ, ◌+◌, ◌-◌, ◌^◌, ◌<◌, ◌≤◌, ◌↔◌, List, [], length, take, min, Some, IfOk, OnOk, OnErr, IsErr, ◌++◌};
ghost use Rattle.am_base.specs.Cause.{Rose};
ghost use Rattle.am_base.specs.Text.{sink_limit};

use crate::outcome::OutOfMemory;
use crate::sink::{Sink, SinkFailed};
use std::alloc::Global;
use std::marker::Model;

/// A sink in memory with room for a number of bytes that is chosen when it is made. It tells what
/// was written, and counts the writes that failed.
#[derive(Drop)]
pub struct MemorySink {
    bytes: Vec<u8>,
    limit: usize,
    faults: u64,
}

impl Model for MemorySink {
    ghost use Rattle.std.specs.Prelude.{◌≤◌, vec_len, vec_capacity};
    ghost use Rattle.am_base.specs.Text.{MemoryText};

    ghost Value = { MemoryText };

    ghost view = { λ sink. record {
      written = sink.bytes.items;
      limit = sink.limit;
      faults = sink.faults;
    } };

    ghost invariant = { λ sink. (vec_len sink.bytes ≤ sink.limit) × (sink.limit ≤ vec_capacity sink.bytes) };
}

impl MemorySink {
    /// A sink that takes bytes until it has `fail_after` bytes, or `room` bytes. It takes the
    /// memory for `room` bytes now, and none later.
    pub fn new(
        alloc: Global,
        room: usize,
        fail_after: Option<u64>,
    ) -> Result<MemorySink, OutOfMemory>
        ensures written { IfOk result (λ sink. sink.written ≡ []) }
        ensures limit { IfOk result (λ sink. sink.limit ≡ sink_limit room fail_after) }
        ensures faults { IfOk result (λ sink. sink.faults ≡ 0) }
    {
        let limit = match fail_after {
            None => room,
            Some(after) => room.min(after as usize),
        };
        let bytes = Vec::with_capacity(alloc, room)?;
        Ok(MemorySink {
            bytes,
            limit,
            faults: 0,
        })
    }

    /// The bytes that were written.
    pub fn written(&self) -> &[u8]
        ensures { result.now ≡ self.now.written }
    {
        self.bytes.as_slice()
    }
}

impl Sink for MemorySink {
    ghost written = { λ text. Some text.written };

    ghost faults = { λ text. text.faults };

    /// Writes as much of the piece as there is place for. It fails exactly where the piece isn't
    /// empty and no place is left.
    fn write(&mut self, piece: &[u8]) -> Result<usize, SinkFailed>
        ensures within { IfOk result (λ count. count ≤ length piece.now) }
        ensures some { IfOk result (λ count. 0 < length piece.now → 0 < count) }
        ensures appended { IfOk result (λ count.
            Some self.new.written ≡ Some (self.old.written ++ take count piece.now)) }
        ensures unchanged { OnErr result (Some self.new.written ≡ Some self.old.written) }
        ensures cause { OnErr result (Rose self.old.faults self.new.faults) }
        ensures counts { self.old.faults ≤ self.new.faults }

        // Each outcome exactly.
        ensures failed { IsErr result ↔
            ((0 < length piece.now) × (self.old.limit ≤ length self.old.written)) }
        ensures count { IfOk result (λ count.
            count ≡ min (length piece.now) (self.old.limit - length self.old.written)) }
        ensures limit { self.new.limit ≡ self.old.limit }
        ensures ok { OnOk result (self.new.faults ≡ self.old.faults) }
        ensures err { OnErr result (self.new.faults ≡ min (self.old.faults + 1) (2 ^ 64 - 1)) }
    {
        let place = self.limit - self.bytes.len();
        let count = piece.len().min(place);
        if count == 0 && !piece.is_empty() {
            self.faults = self.faults.saturating_add(1);
            return Err(SinkFailed);
        }
        match self.bytes.extend_from_slice(&piece[..count]) {
            Ok(()) => Ok(count),
            Err(_) => unreachable!(),
        }
    }
}
