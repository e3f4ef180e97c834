//! Tables of `TABLE` entries in a list of entries: table 0, table 1, and so on.
ghost use Rattle.std.specs.Prelude.{◌≡◌, ◌≢◌, ℕ, ◌+◌, ◌*◌, ◌^◌, ◌<◌, ◌≤◌, length, slice_index, IfOk, OnErr, OnOk};
ghost use Rattle.shared_pages.specs.Counts.{IsShared};
ghost use Rattle.shared_pages.specs.Size.{table_entries};
ghost use Rattle.shared_pages.specs.Rows.{IsCleared, IsCopied, IsExtended};
ghost use Rattle.shared_pages.specs.Tables.{AreSame, AreTables, IsFreshLeaf, IsOwnLeaf};

use crate::naming::Naming;
use std::alloc::AllocError;

/// How many entries a table has. A memory has a table of tables of pages, so its pages are the
/// square of it.
pub(crate) const TABLE: usize = 32;

/// Lets each entry of a table name what the same entry of another one names.
pub(crate) fn copy_table(tables: &mut Naming, m: usize, n: usize)
    requires from { m * table_entries + table_entries ≤ length tables.old.entries }
    requires to { n * table_entries + table_entries ≤ length tables.old.entries }
    requires few { length tables.old.entries < 2 ^ 32 }
    requires apart { m ≢ n }
    ensures { IsCopied table_entries tables.old tables.new m n table_entries }
{
    for i in 0..TABLE {
        tables.replace(m * TABLE + i, n * TABLE + i);
    }
}

/// Makes each entry of a table 0.
#[tactic(auto, unfolding(crate::specs::Rows::own_below))]
pub(crate) fn clear_table(tables: &mut Naming, n: usize)
    requires place { n * table_entries + table_entries ≤ length tables.old.entries }
    requires few { length tables.old.entries < 2 ^ 32 }
    requires apart { (i j : ℕ) → i < table_entries → j < table_entries → slice_index tables.old.entries (n * table_entries + i) ≢ 0
        → slice_index tables.old.entries (n * table_entries + i) ≡ slice_index tables.old.entries (n * table_entries + j) → i ≡ j }
    ensures { IsCleared table_entries tables.old tables.new n table_entries }
{
    for i in 0..TABLE {
        tables.clear(n * TABLE + i);
    }
}

/// Makes room for one table more.
pub(crate) fn table_room(tables: &mut Naming, count: usize) -> Result<(), AllocError>
    requires rows { count * table_entries ≤ length tables.old.entries }
    requires few { length tables.old.entries < 2 ^ 32 }
    ensures tables { IsExtended tables.old tables.new }
    ensures room { OnOk result ((count + 1) * table_entries ≤ length tables.new.entries) }
{
    let end = count * TABLE + TABLE;
    if end <= tables.len() {
        return Ok(());
    }
    if tables.len() >= u32::MAX as usize - TABLE {
        return Err(AllocError);
    }
    tables.extend(TABLE)?;
    Ok(())
}

/// Lets a root that is 0 or shared name a leaf of zeros that no root names.
fn fresh_leaf(roots: &mut Naming, leaves: &mut Naming, at: usize) -> Result<u32, AllocError>
    requires tables { AreTables roots.old leaves.old }
    requires place { at < length roots.old.entries }
    requires shared { IsShared roots.old.entries at }
    ensures ok { IfOk result (λ l. IsFreshLeaf roots.old leaves.old roots.new leaves.new at l) }
    ensures err { OnErr result (AreSame roots.old leaves.old roots.new leaves.new) }
{
    if let Some(leaf) = roots.renew(at) {
        return Ok(leaf);
    }
    let limit = roots.limit();
    table_room(leaves, limit)?;
    roots.add(at)?;
    Ok(limit as u32)
}

/// Gives a root a leaf that no other root names, with the entries of the leaf that it named before.
pub(crate) fn own_leaf(
    roots: &mut Naming,
    leaves: &mut Naming,
    at: usize,
) -> Result<u32, AllocError>
    requires tables { AreTables roots.old leaves.old }
    requires place { at < length roots.old.entries }
    ensures same { AreSame roots.old leaves.old roots.new leaves.new }
    ensures own { IfOk result (λ l. IsOwnLeaf roots.new at l) }
{
    let old = roots.entry(at);
    if roots.is_own(at) {
        return Ok(old);
    }
    let new = fresh_leaf(roots, leaves, at)?;
    copy_table(leaves, old as usize, new as usize);
    Ok(new)
}
