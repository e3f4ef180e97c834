//! The pages of all memories, in tables of two levels.
ghost use Rattle.std.specs.Prelude.{◌≡◌, ◌≢◌, ℕ, ◌+◌, ◌*◌, ◌^◌, ◌<◌, ◌≤◌, ◌++◌, [], length, replicate, slice_index, slice_set, IfOk, IfSome, IfNone, OnOk, OnErr};
ghost use Rattle.shared_pages.specs.Counts.{different, occurs, IsShared};
ghost use Rattle.shared_pages.specs.Rows.{IsCleared, IsCopied};
ghost use Rattle.shared_pages.specs.Size.{memory_pages, table_entries};
ghost use Rattle.shared_pages.specs.Store.{own_at};

use crate::leaves::{TABLE, clear_table, copy_table, own_leaf};
use crate::naming::Naming;
use std::alloc::{AllocError, Global};
use std::marker::Model;

/// The table of each memory, with an entry for each page. Contracts see one list of entries, one
/// memory's after the other. They are kept in leaves of `TABLE` entries, which memories share until
/// an entry of one is to change: a memory has `TABLE` roots, each of which names a leaf.
#[derive(Drop)]
pub(crate) struct Tables {
    /// The leaf of the first `TABLE` entries, of the next ones, and so on.
    roots: Naming,
    /// The entries of leaf 0, of leaf 1, and so on. Leaf 0 is all 0.
    leaves: Naming,
}

impl Model for Tables {
    ghost use Rattle.shared_pages.specs.Counts.{Names};
    ghost use Rattle.shared_pages.specs.Tables.{AreTables, names_seen};

    ghost Value = { Names };

    ghost view = { λ t. names_seen t.roots t.leaves };

    ghost invariant = { λ t. AreTables t.roots t.leaves };
}

impl Tables {
    /// No entries, and page 0 alone.
    pub(crate) fn new(alloc: Global) -> Result<Tables, AllocError>
        ensures { IfOk result (λ t. t ≡ record { entries = []; limit = 1 }) }
    {
        let roots = Naming::new(alloc)?;
        let mut leaves = Naming::new(alloc)?;
        leaves.extend(TABLE)?;
        Ok(Tables { roots, leaves })
    }

    /// How many entries there are.
    pub(crate) fn len(&self) -> usize
        ensures { result ≡ length self.now.entries }
    {
        self.roots.len() * TABLE
    }

    /// The least number of a page that was never given out.
    pub(crate) fn limit(&self) -> usize
        ensures value { result ≡ self.now.limit }
        ensures some { 0 < result }
    {
        self.leaves.limit()
    }

    /// How many pages are page 0 or named.
    pub(crate) fn used(&self) -> usize
        ensures { result ≡ different self.now.entries + 1 }
    {
        self.leaves.used()
    }

    /// The page that an entry names.
    pub(crate) fn entry(&self, at: usize) -> u32
        requires { at < length self.now.entries }
        ensures value { result ≡ slice_index self.now.entries at }
        ensures below { result < self.now.limit }
    {
        let leaf = self.roots.entry(at / TABLE) as usize;
        self.leaves.entry(leaf * TABLE + at % TABLE)
    }

    /// Whether an entry names a page other than 0 that no other entry names.
    pub(crate) fn is_own(&self, at: usize) -> bool
        requires { at < length self.now.entries }
        ensures { result ≡ own_at self.now.entries at }
    {
        let leaf = self.roots.entry(at / TABLE) as usize;
        self.roots.is_own(at / TABLE) && self.leaves.is_own(leaf * TABLE + at % TABLE)
    }

    /// Adds the entries of a memory, which are 0.
    pub(crate) fn extend(&mut self) -> Result<(), AllocError>
        requires { length self.old.entries + memory_pages < 2 ^ 32 }
        ensures ok { OnOk result (self.new ≡ record self.old {
          entries = self.old.entries ++ replicate memory_pages 0;
        }) }
        ensures err { OnErr result (self.new ≡ self.old) }
    {
        self.roots.extend(TABLE)?;
        Ok(())
    }

    /// Lets each entry of a memory, all of which are 0, name what the same entry of another memory
    /// names. The two share their leaves.
    pub(crate) fn share_row(&mut self, m: usize, n: usize)
        requires from { m * memory_pages + memory_pages ≤ length self.old.entries }
        requires to { n * memory_pages + memory_pages ≤ length self.old.entries }
        requires apart { m ≢ n }
        requires empty { (i : ℕ) → i < memory_pages → slice_index self.old.entries (n * memory_pages + i) ≡ 0 }
        ensures copied { IsCopied memory_pages self.old self.new m n memory_pages }
        ensures used { different self.new.entries ≡ different self.old.entries }
    {
        copy_table(&mut self.roots, m, n);
    }

    /// Makes the entries of a root 0.
    pub(crate) fn clear_leaf(&mut self, at: usize)
        requires place { at * table_entries + table_entries ≤ length self.old.entries }
        requires apart { (i j : ℕ) → i < table_entries → j < table_entries → slice_index self.old.entries (at * table_entries + i) ≢ 0
            → slice_index self.old.entries (at * table_entries + i) ≡ slice_index self.old.entries (at * table_entries + j) → i ≡ j }
        ensures { IsCleared table_entries self.old self.new at table_entries }
    {
        let leaf = self.roots.entry(at) as usize;
        if !self.roots.is_own(at) {
            self.roots.clear(at);
            return;
        }
        clear_table(&mut self.leaves, leaf);
        self.roots.clear(at);
    }

    /// Lets an entry that is 0 or shared name a page that was given out before and that none names,
    /// where there is one.
    pub(crate) fn renew(&mut self, at: usize) -> Result<Option<u32>, AllocError>
        requires place { at < length self.old.entries }
        requires shared { IsShared self.old.entries at }
        ensures other { IfOk result (λ r. IfSome r (λ p. (0 < p) × (p < self.old.limit))) }
        ensures unnamed { IfOk result (λ r. IfSome r (λ p. occurs p self.old.entries ≡ 0)) }
        ensures some { IfOk result (λ r. IfSome r (λ p.
            self.new ≡ record self.old { entries = slice_set self.old.entries at p })) }
        ensures used { IfOk result (λ r. IfSome r (λ _.
            different self.new.entries ≡ different self.old.entries + 1)) }
        ensures full { IfOk result (λ r. IfNone r (self.old.limit ≡ different self.old.entries + 1)) }
        ensures none { IfOk result (λ r. IfNone r (self.new ≡ self.old)) }
        ensures err { OnErr result (self.new ≡ self.old) }
    {
        let leaf = own_leaf(&mut self.roots, &mut self.leaves, at / TABLE)?;
        if let Some(page) = self.leaves.renew(leaf as usize * TABLE + at % TABLE) {
            return Ok(Some(page));
        }
        Ok(None)
    }

    /// Lets an entry that is 0 or shared name the limit, which rises by 1.
    pub(crate) fn add(&mut self, at: usize) -> Result<(), AllocError>
        requires place { at < length self.old.entries }
        requires shared { IsShared self.old.entries at }
        requires few { self.old.limit < 2 ^ 32 }
        ensures unnamed { OnOk result (occurs self.old.limit self.old.entries ≡ 0) }
        ensures ok { OnOk result (self.new ≡ record {
          entries = slice_set self.old.entries at self.old.limit;
          limit = self.old.limit + 1;
        }) }
        ensures used { OnOk result (different self.new.entries ≡ different self.old.entries + 1) }
        ensures err { OnErr result (self.new ≡ self.old) }
    {
        let leaf = own_leaf(&mut self.roots, &mut self.leaves, at / TABLE)?;
        self.leaves.add(leaf as usize * TABLE + at % TABLE)?;
        Ok(())
    }
}
