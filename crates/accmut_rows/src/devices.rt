//! The devices of a command: a shelf, some of whose calls fail, and a sink that may fail.

use am_base::{MemoryShelf, MemorySink, OutOfMemory};
use std::alloc::{AllocError, Global};

/// The bytes that a sink has room for where no word says how many.
const ROOM: usize = 200_000;

/// Which devices fail.
#[derive(Drop)]
pub struct Devices {
    /// The calls of the shelf that fail, from 1.
    failing: Vec<u64>,
    /// The bytes that the sink has room for. It fails behind them.
    room: usize,
    /// Whether the port `abs` answers nothing.
    pub is_silent: bool,
}

impl Devices {
    /// Devices that don't fail.
    pub fn new(alloc: Global) -> Devices {
        Devices {
            failing: Vec::new(alloc),
            room: ROOM,
            is_silent: false,
        }
    }

    /// Whether the word is one on devices, which is then kept.
    pub fn take(&mut self, word: &str) -> Result<bool, AllocError> {
        if word == "silent" {
            self.is_silent = true;
            return Ok(true);
        }
        if let Some(call) = numbered("fails=", word) {
            self.failing.push(call)?;
            return Ok(true);
        }
        if let Some(bytes) = numbered("room=", word) {
            self.room = bytes as usize;
            return Ok(true);
        }
        Ok(false)
    }

    /// The sink.
    pub fn sink(&self, alloc: Global) -> Result<MemorySink, OutOfMemory> {
        MemorySink::new(alloc, self.room, None)
    }

    /// The shelf of those files that the words name. Of two with one name the later one counts.
    pub fn shelf(
        &self,
        alloc: Global,
        words: &[String],
        files: &[(String, Vec<u8>)],
    ) -> Result<MemoryShelf, AllocError> {
        let mut held = Vec::new(alloc);
        for (name, text) in files.iter().rev() {
            if words.iter().any(|word| word.as_str() == name.as_str()) {
                held.push((name.clone()?, text.clone()?))?;
            }
        }
        Ok(MemoryShelf::new(held, self.failing.clone()?))
    }
}

/// The number in a word behind a name.
fn numbered(name: &str, word: &str) -> Option<u64> {
    word.strip_prefix(name)?.parse::<u64>().ok()
}
