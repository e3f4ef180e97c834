//! The store of memories and pages.
ghost use Rattle.std.specs.Prelude.{max, take, drop, ◌%◌, ◌≡◌, ◌≢◌, ℕ, ◌+◌, ◌/◌, ◌<◌, ◌≤◌, true, None, length, slice_index, IfOk, OnOk, OnErr, Some};
ghost use Rattle.std.specs.List.{All};
ghost use Rattle.shared_pages.specs.Opening.{IsBegun, are_zero, full_count, zero_memory};
ghost use Rattle.shared_pages.specs.Size.{memory_pages};
ghost use Rattle.shared_pages.specs.Store.{memory, the_memory, IsIn, owns, own_count, used_pages, written, IsMadeOwn, IsReserved};

use crate::opening::open;
use crate::pages::{PAGE, copied_page, page_room};
use crate::pool::Pool;
use crate::rows::{MEMORY_PAGES, clear_row, make_room, new_row};
use crate::tables::Tables;
use am_base::{MEMORY_BYTES, OutOfMemory, PAGE_BYTES};
use lane_ops::page_differs;
use std::alloc::Global;
use std::marker::Model;

/// The handle of a memory in a store. It can't be copied, and `release` takes it back.
pub struct MemId {
    number: u32,
}

impl Model for MemId {
    ghost use Rattle.std.specs.Prelude.{ℕ};

    ghost Value = { ℕ };

    ghost view = { λ m. m.number };
}

/// Memories of `MEMORY_BYTES` bytes each, in pages of `PAGE_BYTES` that memories share until one of
/// them is to be written. Contracts see a memory's bytes and the number of each of its pages. Two
/// memories share a page where they have one number, and number 0 is the zero page. A page is a
/// memory's own if it isn't the zero page and stands once among the pages of all memories.
#[derive(Drop)]
pub struct PageStore {
    /// A number that has an owner is a memory's.
    slots: Pool,
    /// For each memory the numbers of its pages. Page 0 is all zero.
    tables: Tables,
    /// The bytes of page 0, of page 1, and so on.
    bytes: Vec<u8>,
    peak: u64,
}

impl Model for PageStore {
    ghost use Rattle.shared_pages.specs.Store.{Store, seen, IsStore};

    ghost Value = { Store };

    ghost view = { λ s. seen s.slots s.tables s.bytes.items s.peak };

    ghost invariant = { λ s. IsStore s.slots s.tables s.bytes.items s.peak };
}

impl PageStore {
    /// Returns a store without a memory, in which the zero page alone is used.
    pub fn new(alloc: Global) -> Result<PageStore, OutOfMemory>
        ensures empty { IfOk result (λ s. (k : ℕ) → memory s k ≡ None) }
        ensures used { IfOk result (λ s. used_pages s ≡ 1) }
        ensures peak { IfOk result (λ s. s.peak ≡ 1) }
    {
        let slots = Pool::new(alloc)?;
        let mut tables = Tables::new(alloc)?;
        make_room(&mut tables, 0)?;
        let mut bytes = Vec::new(alloc);
        page_room(&mut bytes, 0)?;
        Ok(PageStore {
            slots,
            tables,
            bytes,
            peak: 1,
        })
    }

    /// Returns how many pages are the zero page or in a memory.
    pub fn used(&self) -> u64
        ensures { result ≡ used_pages self.now }
    {
        self.tables.used() as u64
    }

    /// Returns the greatest number of pages that were used at once so far.
    pub fn peak(&self) -> u64
        ensures value { result ≡ self.now.peak }
        ensures most { used_pages self.now ≤ result }
    {
        self.peak
    }

    /// Returns for how many pages the store has bytes.
    #[cfg(test)]
    pub(crate) fn held(&self) -> usize {
        self.bytes.len() / PAGE
    }

    /// Returns the byte of a memory at an address. O(1).
    pub fn read(&self, id: &MemId, at: u32) -> u8
        requires known { IsIn self.now id.now }
        requires range { at < MEMORY_BYTES }
        ensures { result ≡ slice_index (the_memory self.now id.now).bytes at }
    {
        let at = at as usize;
        let page = self
            .tables
            .entry(id.number as usize * MEMORY_PAGES + at / PAGE) as usize;
        self.bytes[page * PAGE + at % PAGE]
    }

    /// Returns the bytes of a memory from an address on, all in one page. O(1).
    pub fn run(&self, id: &MemId, at: u32, count: u32) -> &[u8]
        requires known { IsIn self.now id.now }
        requires range { at < MEMORY_BYTES }
        requires within { at % PAGE_BYTES + count ≤ PAGE_BYTES }
        ensures { result.now ≡ take count (drop at (the_memory self.now id.now).bytes) }
    {
        let at = at as usize;
        let page = self
            .tables
            .entry(id.number as usize * MEMORY_PAGES + at / PAGE) as usize;
        let place = page * PAGE + at % PAGE;
        &self.bytes[place..place + count as usize]
    }

    /// Writes a byte of a memory, into a page of its own. O(1).
    pub fn write(&mut self, id: &MemId, at: u32, byte: u8)
        requires known { IsIn self.old id.now }
        requires range { at < MEMORY_BYTES }
        requires own { owns self.old id.now at ≡ true }
        ensures { self.new ≡ written self.old id.now at byte }
    {
        let at = at as usize;
        let page = self
            .tables
            .entry(id.number as usize * MEMORY_PAGES + at / PAGE) as usize;
        self.bytes[page * PAGE + at % PAGE] = byte;
    }

    /// Returns whether the bytes of a page are all 0.
    pub(crate) fn is_zero(&self, page: &[u8]) -> bool
        requires { length page.now ≡ PAGE_BYTES }
        ensures { result ≡ are_zero page.now }
    {
        !page_differs(page, &self.bytes[..PAGE])
    }

    /// Adds a memory of zeros, of which every page is the zero page.
    fn begin_empty(&mut self) -> Result<MemId, OutOfMemory>
        ensures fresh { IfOk result (λ n. memory self.old n ≡ None) }
        ensures begun { IfOk result (λ n. memory self.new n ≡ Some zero_memory) }
        ensures others { IfOk result (λ n. (k : ℕ) → k ≢ n → memory self.new k ≡ memory self.old k) }
        ensures used { used_pages self.new ≡ used_pages self.old }
        ensures peak { self.new.peak ≡ self.old.peak }
        ensures most { OnOk result (used_pages self.new ≤ self.new.peak) }
        ensures err { OnErr result (self.new ≡ self.old) }
    {
        let number = new_row(&mut self.slots, &mut self.tables)?;
        Ok(MemId { number })
    }

    /// Sets the greatest number of used pages so far.
    fn set_peak(&mut self, peak: u64)
        requires { used_pages self.old ≤ peak }
        ensures same { (k : ℕ) → memory self.new k ≡ memory self.old k }
        ensures peak { self.new.peak ≡ peak }
    {
        self.peak = peak;
    }

    /// Adds a memory with these bytes. It takes one page for each page of them that has a byte
    /// other than 0. After a refusal every memory is as it was, and so are `used` and `peak`.
    pub fn begin(&mut self, _alloc: Global, bytes: &[u8]) -> Result<MemId, OutOfMemory>
        requires { length bytes.now ≡ MEMORY_BYTES }
        ensures fresh { IfOk result (λ n. memory self.old n ≡ None) }
        ensures begun { IfOk result (λ n. IsBegun self.new n bytes.now) }
        ensures others { IfOk result (λ n. (k : ℕ) → k ≢ n → memory self.new k ≡ memory self.old k) }
        ensures used { OnOk result (used_pages self.new ≡ used_pages self.old + full_count bytes.now) }
        ensures peak { OnOk result (self.new.peak ≡ max self.old.peak (used_pages self.new)) }
        ensures err { OnErr result ((k : ℕ) → memory self.new k ≡ memory self.old k) }
        ensures err_used { OnErr result (used_pages self.new ≡ used_pages self.old) }
        ensures err_peak { OnErr result (self.new.peak ≡ self.old.peak) }
    {
        let peak = self.peak();
        let id = self.begin_empty()?;
        match open(self, &id, bytes) {
            Ok(()) => Ok(id),
            Err(refused) => {
                self.release(id);
                self.set_peak(peak);
                Err(refused)
            }
        }
    }

    /// Adds a memory that is equal to another one: it has the same bytes in the same pages. So it
    /// takes no page, and afterwards neither of the two has a page of its own. It copies a table of
    /// 32 entries, each of which stands for 32 pages. After a refusal the store is as it was.
    pub fn fork(&mut self, _alloc: Global, id: &MemId) -> Result<MemId, OutOfMemory>
        requires known { IsIn self.old id.now }
        ensures fresh { IfOk result (λ n. memory self.old n ≡ None) }
        ensures forked { IfOk result (λ n. memory self.new n ≡ memory self.old id.now) }
        ensures others { IfOk result (λ n. (k : ℕ) → k ≢ n → memory self.new k ≡ memory self.old k) }
        ensures used { used_pages self.new ≡ used_pages self.old }
        ensures peak { self.new.peak ≡ self.old.peak }
        ensures err { OnErr result (self.new ≡ self.old) }
    {
        let number = new_row(&mut self.slots, &mut self.tables)?;
        self.tables.share_row(id.number as usize, number as usize);
        Ok(MemId { number })
    }

    /// Makes a page of a memory its own, with the bytes that it has.
    pub(crate) fn take_page(&mut self, id: &MemId, page: usize) -> Result<(), OutOfMemory>
        requires known { IsIn self.old id.now }
        requires range { page < memory_pages }
        ensures taken { OnOk result (IsMadeOwn self.old self.new id.now page) }
        ensures err { OnErr result (self.new ≡ self.old) }
    {
        let at = id.number as usize * MEMORY_PAGES + page;
        if self.tables.is_own(at) {
            return Ok(());
        }
        copied_page(&mut self.tables, &mut self.bytes, at)?;
        self.peak = self.peak.max(self.tables.used() as u64);
        Ok(())
    }

    /// Makes the pages of these addresses a memory's own. Whatever it returns, no byte of a memory
    /// changes, and it takes one page for each page that it makes the memory's own.
    pub fn reserve(&mut self, _alloc: Global, id: &MemId, at: &[u32]) -> Result<(), OutOfMemory>
        requires known { IsIn self.old id.now }
        requires range { All (λ a. a < MEMORY_BYTES) at.now }
        ensures own { OnOk result (All (λ a. owns self.new id.now a ≡ true) at.now) }
        ensures reserved { IsReserved self.old self.new id.now at.now }
    {
        let _ = &self.peak;
        'addresses: for address in at {
            self.take_page(id, *address as usize / PAGE)?;
        }
        Ok(())
    }

    /// Ends a memory. No other memory changes. Its own pages are free again, and `used` falls by
    /// their number.
    pub fn release(&mut self, id: MemId)
        requires known { IsIn self.old id }
        ensures gone { memory self.new id ≡ None }
        ensures others { (k : ℕ) → k ≢ id → memory self.new k ≡ memory self.old k }
        ensures used { used_pages self.new + own_count self.old id ≡ used_pages self.old }
        ensures peak { self.new.peak ≡ self.old.peak }
    {
        let MemId { number } = id;
        clear_row(&mut self.tables, number as usize);
        self.slots.less(number);
    }
}
