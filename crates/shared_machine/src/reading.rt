//! A state as the evaluator reads it.
ghost use Rattle.std.specs.Prelude.{◌≡◌, ◌+◌, ◌*◌, ◌^◌, ◌<◌, ◌≤◌, length, slice_range};
ghost use Rattle.am_base.specs.declared.limits.TheConstants.{MEMORY_BYTES as memory_bytes};
ghost use Rattle.machine_form.specs.Straight.{number_of};
ghost use Rattle.shared_pages.specs.Store.{IsIn, the_memory};

use am_base::MEMORY_BYTES;
use bare_state::Bare;
use code_form::Operand;
use lane_eval::View;
use shared_pages::{MemId, PageStore};

/// A state with the store that its memory is in.
#[derive(Drop)]
pub struct Reading<'b> {
    pub(crate) store: &'b PageStore,
    pub(crate) bare: &'b Bare,
    pub(crate) memory: &'b MemId,
    ghost alive: { IsIn store.now memory.now },
    ghost long: { length (the_memory store.now memory.now).bytes ≡ memory_bytes },
    ghost top: { bare.now.state.top ≤ memory_bytes },
}

/// The number that the bytes of a memory from an address on encode, the lowest byte first.
fn number_by_bytes(store: &PageStore, memory: &MemId, at: u32, len: u32) -> u64
    requires known { IsIn store.now memory.now }
    requires long { length (the_memory store.now memory.now).bytes ≡ MEMORY_BYTES }
    requires few { len ≤ 8 }
    requires within { at + len ≤ MEMORY_BYTES }
    ensures value { result ≡ number_of (slice_range (the_memory store.now memory.now).bytes at (at + len)) }
    ensures small { result < 2 ^ (8 * len) }
{
    if len == 0 {
        return 0;
    }
    widened(store.read(memory, at)) + 256 * number_by_bytes(store, memory, at + 1, len - 1)
}

/// A byte as a number.
fn widened(byte: u8) -> u64
    ensures value { result ≡ byte }
    ensures small { result < 256 }
{
    u64::from(byte)
}

impl<'b> View for Reading<'b> {
    ghost use Rattle.shared_machine.specs.Shown.{standing};

    ghost state = { λ r. standing r.store.now r.bare.now r.memory.now };

    fn place(&self) -> u32 {
        self.bare.place()
    }

    fn value(&self, a: Operand) -> Option<u64> {
        self.bare.value(a)
    }

    fn byte(&self, at: usize) -> u8 {
        self.store.read(self.memory, at as u32)
    }

    fn number(&self, at: usize, len: usize) -> u64 {
        number_by_bytes(self.store, self.memory, at as u32, len as u32)
    }

    fn top(&self) -> u32 {
        self.bare.top()
    }

    fn callers(&self) -> usize {
        self.bare.callers()
    }

    fn words(&self) -> u64 {
        self.bare.words()
    }

    fn result(&self) -> Option<u32> {
        self.bare.result()
    }

    fn restores(&self) -> u32 {
        self.bare.restores()
    }

    fn next_input(&self) -> Option<u8> {
        self.bare.next_input()
    }

    fn output_len(&self) -> usize {
        self.bare.output_len()
    }
}
