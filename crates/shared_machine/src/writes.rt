//! A change made ready, and the bytes of a change written, in a store of pages.
ghost use Rattle.std.specs.Prelude.{◌≡◌, ◌+◌, ◌<◌, ◌≤◌, true, map, All, IfOk, OnOk};
ghost use Rattle.machine_form.specs.Pages.{pages_of};
ghost use Rattle.bare_state.specs.Room.{HasRoom};
ghost use Rattle.shared_pages.specs.Store.{IsIn, IsReserved, owns, used_pages};
ghost use Rattle.shared_machine.specs.Written.{AreWritten};

use crate::state::SharedState;
use am_base::{MEMORY_BYTES, OutOfMemory};
use change_set::Change;
use code_form::Code;
use shared_pages::{MemId, PageStore};
use smallvec::SmallVec;
use std::alloc::Global;

/// How many addresses are kept without memory: as many as a store has.
const FEW: usize = 8;

/// The addresses of some bytes.
fn addresses(alloc: Global, bytes: &[(u32, u8)]) -> Result<SmallVec<u32, FEW>, OutOfMemory>
    ensures { IfOk result (λ at. at.items ≡ map (λ b. b.0) bytes.now) }
{
    let mut all = SmallVec::new(alloc);
    for (address, _) in bytes {
        all.push(*address)?;
    }
    Ok(all)
}

/// Makes the pages of the bytes of a change a memory's own. No byte of a memory changes.
pub fn reserve_bytes(
    alloc: Global,
    store: &mut PageStore,
    memory: &MemId,
    c: &Change,
) -> Result<(), OutOfMemory>
    requires known { IsIn store.old memory.now }
    requires range { All (λ b. b.0 < MEMORY_BYTES) c.now.bytes }
    requires most { used_pages store.old ≤ store.old.peak }
    ensures own { OnOk result (All (λ b. owns store.new memory.now b.0 ≡ true) c.now.bytes) }
    ensures reserved { IsReserved store.old store.new memory.now (map (λ b. b.0) c.now.bytes) }
{
    let at = addresses(alloc, c.bytes.as_slice())?;
    store.reserve(alloc, memory, at.as_slice())
}

/// Makes a state ready for a change: the pages of its bytes are its memory's own, and there is room
/// for the rest. What the state stands for stays, also after a refusal, and it takes at most as many
/// pages as the bytes of the change lie in.
pub fn ready_state(
    alloc: Global,
    store: &mut PageStore,
    s: &mut SharedState,
    code: &Code,
    c: &Change,
) -> Result<(), OutOfMemory>
    requires known { IsIn store.old s.old.memory }
    requires range { All (λ b. b.0 < MEMORY_BYTES) c.now.bytes }
    ensures room { OnOk result (HasRoom code.now s.new.bare.room c.now) }
    ensures own { OnOk result (All (λ b. owns store.new s.old.memory b.0 ≡ true) c.now.bytes) }
    ensures bare { s.new.bare.state ≡ s.old.bare.state }
    ensures memory { s.new.memory ≡ s.old.memory }
    ensures reserved { IsReserved store.old store.new s.old.memory (map (λ b. b.0) c.now.bytes) }
    ensures most { store.new.peak ≤ store.old.peak + pages_of c.now.bytes }
{
    let _ = store.peak();
    reserve_bytes(alloc, store, &s.memory, c)?;
    s.bare.ready(code, c)
}

/// Writes some bytes of a memory, in order, into pages of its own.
pub fn write_bytes(store: &mut PageStore, memory: &MemId, bytes: &[(u32, u8)])
    requires known { IsIn store.old memory.now }
    requires range { All (λ b. b.0 < MEMORY_BYTES) bytes.now }
    requires own { All (λ b. owns store.old memory.now b.0 ≡ true) bytes.now }
    ensures { AreWritten store.old store.new memory.now bytes.now }
{
    for (address, byte) in bytes {
        store.write(memory, *address, *byte);
    }
}
