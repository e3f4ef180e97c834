//! The trusted edge: a shelf over the system's files, and a sink over standard output.

ghost use Rattle.std.specs.Prelude.{◌≡◌, ◌≤◌, length, None, IfOk};

use am_base::{Shelf, ShelfFault, Sink, SinkFailed};
use std::alloc::Global;
use std::fs;
use std::io::{self, ErrorKind, Read, Seek, SeekFrom, Write};
use std::rt::Files;

/// A shelf of the files of the system. It tells nothing of what they hold. Its count of faults is
/// that of every name: it rises at each call that gives no bytes, want of memory in opening a file
/// included.
#[derive(Drop)]
pub struct FileShelf<'a, R> {
    rt: &'a R,
    faults: u64,
}

impl<'a, R: Files> FileShelf<'a, R> {
    /// A shelf without faults so far.
    pub fn new(rt: &'a R) -> FileShelf<'a, R> {
        FileShelf { rt, faults: 0 }
    }
}

/// Opens a file, seeks to an offset in bytes and reads once. It returns how many bytes were read,
/// which are the first ones of `into`, or the system's error.
pub fn read_once<R: Files>(rt: &R, name: &str, from: u64, into: &mut [u8]) -> io::Result<usize>
    ensures { IfOk result (λ count. count ≤ length into.old) }
{
    let mut file = fs::open(rt, name)?;
    file.seek(SeekFrom::Start(from))?;
    file.read(into)
}

impl<R: Files> Shelf for FileShelf<'_, R> {
    ghost files = { λ _. None };

    ghost faults = { λ shelf name. shelf.faults };

    fn read_at(&mut self, name: &str, from: u64, into: &mut [u8]) -> Result<usize, ShelfFault> {
        match read_once(self.rt, name, from, into) {
            Ok(count) => Ok(count),
            Err(error) => {
                self.faults = self.faults.saturating_add(1);
                if error.kind() == ErrorKind::NotFound {
                    Err(ShelfFault::Missing)
                } else {
                    Err(ShelfFault::Failed)
                }
            }
        }
    }
}

/// How many of the first bytes that were written are kept: a line of names and one of letters of
/// `MAX_TESTS` tests, or the line of a refusal.
const KEPT_BYTES: usize = 70_000;

/// A sink over standard output. It tells contracts nothing of what was written; for what is said to
/// a person it keeps the first bytes.
#[derive(Drop)]
pub struct StdoutSink<'a, P> {
    rt: &'a P,
    faults: u64,
    front: Vec<u8>,
}

impl<'a, P: Print> StdoutSink<'a, P> {
    /// A sink without faults so far.
    pub fn new(rt: &'a P, alloc: Global) -> StdoutSink<'a, P> {
        StdoutSink {
            rt,
            faults: 0,
            front: Vec::new(alloc),
        }
    }

    /// The first bytes that were written, at most `KEPT_BYTES`; fewer where memory ran out.
    pub fn front(&self) -> &[u8] {
        self.front.as_slice()
    }

    /// Keeps bytes that were written, as far as there is room.
    fn keep(&mut self, written: &[u8])
        ensures { self.new.faults ≡ self.old.faults }
    {
        let room = KEPT_BYTES.saturating_sub(self.front.len());
        let kept = written.get(..room).unwrap_or(written);
        let _ = self.front.extend_from_slice(kept);
    }
}

impl<P: Print> Sink for StdoutSink<'_, P> {
    ghost written = { λ _. None };

    ghost faults = { λ sink. sink.faults };

    fn write(&mut self, piece: &[u8]) -> Result<usize, SinkFailed> {
        match io::writer(self.rt).write(piece) {
            Ok(count) if count > 0 || piece.is_empty() => {
                self.keep(piece.get(..count).unwrap_or(piece));
                Ok(count)
            }
            _ => {
                self.faults = self.faults.saturating_add(1);
                Err(SinkFailed)
            }
        }
    }
}
