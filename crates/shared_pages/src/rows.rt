//! The rows of the tables, one for each memory, with an entry for each page.
ghost use Rattle.std.specs.Prelude.{◌≡◌, ◌≢◌, ℕ, ◌+◌, ◌*◌, ◌^◌, ◌<◌, ◌≤◌, length, slice_index, IfOk, OnOk, OnErr};
ghost use Rattle.shared_pages.specs.Size.{memory_pages};
ghost use Rattle.shared_pages.specs.Rows.{IsCleared, IsTaken, IsExtended};

use crate::leaves::TABLE;
use crate::pool::Pool;
use crate::tables::Tables;
use am_base::{MEMORY_BYTES, PAGE_BYTES};
use std::alloc::AllocError;

/// How many pages a memory has: the entries of its row.
pub(crate) const MEMORY_PAGES: usize = (MEMORY_BYTES / PAGE_BYTES) as usize;

/// Makes each entry of a row 0.
pub(crate) fn clear_row(tables: &mut Tables, n: usize)
    requires place { n * memory_pages + memory_pages ≤ length tables.old.entries }
    requires few { length tables.old.entries < 2 ^ 32 }
    requires apart { (i j : ℕ) → i < memory_pages → j < memory_pages → slice_index tables.old.entries (n * memory_pages + i) ≢ 0
        → slice_index tables.old.entries (n * memory_pages + i) ≡ slice_index tables.old.entries (n * memory_pages + j) → i ≡ j }
    ensures { IsCleared memory_pages tables.old tables.new n memory_pages }
{
    for i in 0..TABLE {
        tables.clear_leaf(n * TABLE + i);
    }
}

/// Makes room for one row more.
pub(crate) fn make_room(tables: &mut Tables, rows: usize) -> Result<(), AllocError>
    requires rows { memory_pages * rows ≤ length tables.old.entries }
    requires few { length tables.old.entries < 2 ^ 32 }
    ensures tables { IsExtended tables.old tables.new }
    ensures room { OnOk result (memory_pages * (rows + 1) ≤ length tables.new.entries) }
{
    let end = rows * MEMORY_PAGES + MEMORY_PAGES;
    if end <= tables.len() {
        return Ok(());
    }
    if tables.len() >= u32::MAX as usize - MEMORY_PAGES {
        return Err(AllocError);
    }
    tables.extend()?;
    Ok(())
}

/// Gives out the number of a memory, whose row is empty. After a refusal no number is given out;
/// there may be more empty rows.
pub(crate) fn new_row(slots: &mut Pool, tables: &mut Tables) -> Result<u32, AllocError>
    requires rows { memory_pages * length slots.old ≤ length tables.old.entries }
    requires few { length tables.old.entries < 2 ^ 32 }
    ensures other { IfOk result (λ n. 0 < n) }
    ensures free { IfOk result (λ n. slice_index slots.old n ≡ 0) }
    ensures taken { IfOk result (λ n. IsTaken slots.old slots.new n) }
    ensures err { OnErr result (slots.new ≡ slots.old) }
    ensures tables { IsExtended tables.old tables.new }
    ensures rows { memory_pages * length slots.new ≤ length tables.new.entries }
{
    if let Some(n) = slots.take_free() {
        return Ok(n);
    }
    let rows = slots.len();
    make_room(tables, rows)?;
    slots.grow()?;
    Ok(rows as u32)
}
