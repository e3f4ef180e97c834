//! A memory is filled with its opening bytes, page by page.
ghost use Rattle.std.specs.Prelude.{◌≡◌, ℕ, ◌+◌, ◌*◌, ◌<◌, ◌≤◌, true, Some, length, OnOk, OnErr};
ghost use Rattle.shared_pages.specs.Opening.{IsLeft, IsNext, IsOpened, IsPut, first_bytes, full_count, zero_memory};
ghost use Rattle.shared_pages.specs.Size.{memory_pages};
ghost use Rattle.shared_pages.specs.Store.{IsIn, is_own, memory, page, the_memory, used_pages};

use crate::pages::PAGE;
use crate::rows::MEMORY_PAGES;
use crate::store::{MemId, PageStore};
use am_base::{MEMORY_BYTES, OutOfMemory, PAGE_BYTES};

/// Writes the bytes of a page into a page that is the memory's own.
fn put_page(store: &mut PageStore, id: &MemId, number: usize, bytes: &[u8])
    requires long { length bytes.now ≡ MEMORY_BYTES }
    requires range { number < memory_pages }
    requires known { IsIn store.old id.now }
    requires own { is_own store.old id.now number ≡ true }
    requires before { (the_memory store.old id.now).bytes ≡ first_bytes bytes.now (number * PAGE_BYTES) }
    ensures { IsPut store.old store.new id.now bytes.now (number * PAGE_BYTES + PAGE_BYTES) }
{
    let start = number * PAGE;
    'bytes: for at in 0..PAGE {
        store.write(id, (start + at) as u32, bytes[start + at]);
    }
}

/// Gives a memory one page more of its opening bytes.
fn open_page(
    store: &mut PageStore,
    id: &MemId,
    number: usize,
    bytes: &[u8],
) -> Result<(), OutOfMemory>
    requires long { length bytes.now ≡ MEMORY_BYTES }
    requires range { number < memory_pages }
    requires known { IsIn store.old id.now }
    requires before { (the_memory store.old id.now).bytes ≡ first_bytes bytes.now (number * PAGE_BYTES) }
    requires empty { page store.old id.now number ≡ 0 }
    requires most { used_pages store.old ≤ store.old.peak }
    ensures ok { OnOk result (IsNext store.old store.new id.now bytes.now number) }
    ensures err { OnErr result (store.new ≡ store.old) }
{
    let start = number * PAGE;
    if store.is_zero(&bytes[start..start + PAGE]) {
        return Ok(());
    }
    store.take_page(id, number)?;
    put_page(store, id, number, bytes);
    Ok(())
}

/// Gives a memory of zeros its opening bytes. After a refusal it has some of them.
pub(crate) fn open(store: &mut PageStore, id: &MemId, bytes: &[u8]) -> Result<(), OutOfMemory>
    requires long { length bytes.now ≡ MEMORY_BYTES }
    requires before { memory store.old id.now ≡ Some zero_memory }
    requires most { used_pages store.old ≤ store.old.peak }
    ensures ok { OnOk result (IsOpened store.old store.new id.now bytes.now memory_pages) }
    ensures err { OnErr result (IsLeft store.old store.new id.now (full_count bytes.now)) }
{
    'pages: for number in 0..MEMORY_PAGES {
        open_page(store, id, number, bytes)?;
    }
    Ok(())
}
