//! Pages in one vector of bytes: the bytes of page 0, of page 1, and so on.
ghost use Rattle.std.specs.Prelude.{◌≡◌, ◌≢◌, ℕ, ◌+◌, ◌*◌, ◌^◌, ◌<◌, ◌≤◌, ◌⊎◌, length, slice_index, slice_set, IfOk, OnOk, OnErr};
ghost use Rattle.shared_pages.specs.Counts.{occurs, different, IsShared};
ghost use Rattle.shared_pages.specs.Rows.{IsRenewed};

use crate::tables::Tables;
use am_base::PAGE_BYTES;
use std::alloc::AllocError;

/// How many bytes a page has.
pub(crate) const PAGE: usize = PAGE_BYTES as usize;

/// Makes room for the page of a number. The bytes that are added are 0.
pub(crate) fn page_room(bytes: &mut Vec<u8>, number: usize) -> Result<(), AllocError>
    requires { number < 2 ^ 32 }
    ensures room { OnOk result (PAGE_BYTES * (number + 1) ≤ length bytes.new.items) }
    ensures longer { length bytes.old.items ≤ length bytes.new.items }
    ensures same { (i : ℕ) → slice_index bytes.new.items i ≡ slice_index bytes.old.items i }
{
    let end = (number + 1) * PAGE;
    if end <= bytes.len() {
        return Ok(());
    }
    bytes.resize(end, 0)?;
    Ok(())
}

/// Lets an entry that is 0 or shared name a number that no entry names, and that has a page. It is a
/// new number only where every number that was given out is named.
fn fresh_page(tables: &mut Tables, bytes: &mut Vec<u8>, at: usize) -> Result<u32, AllocError>
    requires place { at < length tables.old.entries }
    requires shared { IsShared tables.old.entries at }
    requires pages { PAGE_BYTES * tables.old.limit ≤ length bytes.old.items }
    ensures other { IfOk result (λ p. 0 < p) }
    ensures unnamed { IfOk result (λ p. occurs p tables.old.entries ≡ 0) }
    ensures below { IfOk result (λ p. p < tables.new.limit) }
    ensures entries { IfOk result (λ p. tables.new.entries ≡ slice_set tables.old.entries at p) }
    ensures used { OnOk result (different tables.new.entries ≡ different tables.old.entries + 1) }
    ensures reused { OnOk result (tables.new.limit ≢ tables.old.limit → tables.old.limit ≡ different tables.old.entries + 1) }
    ensures pages { PAGE_BYTES * tables.new.limit ≤ length bytes.new.items }
    ensures longer { length bytes.old.items ≤ length bytes.new.items }
    ensures same { (i : ℕ) → slice_index bytes.new.items i ≡ slice_index bytes.old.items i }
    ensures err { OnErr result (tables.new ≡ tables.old) }
{
    if let Some(number) = tables.renew(at)? {
        return Ok(number);
    }
    let limit = tables.limit();
    if limit > u32::MAX as usize {
        return Err(AllocError);
    }
    page_room(bytes, limit)?;
    tables.add(at)?;
    Ok(limit as u32)
}

/// Copies the bytes of a page to another page.
fn copy_page(bytes: &mut Vec<u8>, from: usize, to: usize)
    requires from { from * PAGE_BYTES + PAGE_BYTES ≤ length bytes.old.items }
    requires to { to * PAGE_BYTES + PAGE_BYTES ≤ length bytes.old.items }
    ensures length { length bytes.new.items ≡ length bytes.old.items }
    ensures copied { (o : ℕ) → o < PAGE_BYTES →
        slice_index bytes.new.items (to * PAGE_BYTES + o) ≡ slice_index bytes.old.items (from * PAGE_BYTES + o) }
    ensures same { (i : ℕ) → (i < to * PAGE_BYTES) ⊎ (to * PAGE_BYTES + PAGE_BYTES ≤ i) →
        slice_index bytes.new.items i ≡ slice_index bytes.old.items i }
{
    bytes.copy_within(from * PAGE..from * PAGE + PAGE, to * PAGE);
}

/// Lets an entry that is 0 or shared name a fresh page with the bytes of the page that it named
/// before.
pub(crate) fn copied_page(
    tables: &mut Tables,
    bytes: &mut Vec<u8>,
    at: usize,
) -> Result<u32, AllocError>
    requires place { at < length tables.old.entries }
    requires shared { IsShared tables.old.entries at }
    requires pages { PAGE_BYTES * tables.old.limit ≤ length bytes.old.items }
    ensures ok { IfOk result (λ p.
        IsRenewed tables.old tables.new bytes.old.items bytes.new.items at p) }
    ensures used { OnOk result (different tables.new.entries ≡ different tables.old.entries + 1) }
    ensures pages { PAGE_BYTES * tables.new.limit ≤ length bytes.new.items }
    ensures longer { length bytes.old.items ≤ length bytes.new.items }
    ensures err { OnErr result (tables.new ≡ tables.old) }
    ensures same { OnErr result ((i : ℕ) → slice_index bytes.new.items i ≡ slice_index bytes.old.items i) }
{
    let from = tables.entry(at);
    let to = fresh_page(tables, bytes, at)?;
    copy_page(bytes, from as usize, to as usize);
    Ok(to)
}
