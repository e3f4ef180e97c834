//! Lists of entries whose names are counted.
ghost use Rattle.std.specs.Prelude.{◌≡◌, ◌≢◌, ℕ, ◌+◌, ◌^◌, ◌<◌, ◌≤◌, ◌++◌, [], length, replicate, slice_index, slice_set, IfOk, IfSome, IfNone, OnOk, OnErr};
ghost use Rattle.shared_pages.specs.Counts.{occurs, different, IsShared, one_if};
ghost use Rattle.shared_pages.specs.Store.{own_at};

use crate::pool::Pool;
use std::alloc::{AllocError, Global};
use std::marker::Model;

/// A list of entries, each of which names a number or is 0. It counts how many entries name each
/// number, and a number that none names can be given out again. Number 0 is never given out.
#[derive(Drop)]
pub(crate) struct Naming {
    entries: Vec<u32>,
    owners: Pool,
}

impl Model for Naming {
    ghost use Rattle.std.specs.Prelude.{length};
    ghost use Rattle.shared_pages.specs.Counts.{Names, AreCounted};

    ghost Value = { Names };

    ghost view = { λ n. record {
      entries = n.entries.items;
      limit = length n.owners;
    } };

    ghost invariant = { λ n. AreCounted n.entries.items n.owners };
}

impl Naming {
    /// No entries, and the number 0 alone.
    pub(crate) fn new(alloc: Global) -> Result<Naming, AllocError>
        ensures { IfOk result (λ n. n ≡ record { entries = []; limit = 1 }) }
    {
        let owners = Pool::new(alloc)?;
        Ok(Naming {
            entries: Vec::new(alloc),
            owners,
        })
    }

    /// How many entries there are.
    pub(crate) fn len(&self) -> usize
        ensures { result ≡ length self.now.entries }
    {
        self.entries.len()
    }

    /// The least number that was never given out.
    pub(crate) fn limit(&self) -> usize
        ensures value { result ≡ self.now.limit }
        ensures some { 0 < result }
    {
        self.owners.len()
    }

    /// How many numbers are 0 or named.
    pub(crate) fn used(&self) -> usize
        ensures { result ≡ different self.now.entries + 1 }
    {
        self.owners.used()
    }

    /// The number that an entry names.
    pub(crate) fn entry(&self, at: usize) -> u32
        requires { at < length self.now.entries }
        ensures value { result ≡ slice_index self.now.entries at }
        ensures below { result < self.now.limit }
    {
        self.entries[at]
    }

    /// Whether an entry names a number other than 0 that no other entry names.
    pub(crate) fn is_own(&self, at: usize) -> bool
        requires { at < length self.now.entries }
        ensures { result ≡ own_at self.now.entries at }
    {
        let p = self.entry(at);
        p != 0 && self.owners.count(p) == 1
    }

    /// Adds entries that are 0.
    pub(crate) fn extend(&mut self, more: usize) -> Result<(), AllocError>
        requires { length self.old.entries + more < 2 ^ 32 }
        ensures ok { OnOk result (self.new ≡ record self.old { entries = self.old.entries ++ replicate more 0 }) }
        ensures err { OnErr result (self.new ≡ self.old) }
    {
        let all = self.entries.len() + more;
        self.entries.resize(all, 0)?;
        Ok(())
    }

    /// Lets an entry that is 0 name what another one names.
    pub(crate) fn share(&mut self, from: usize, at: usize)
        requires few { length self.old.entries < 2 ^ 32 }
        requires from { from < length self.old.entries }
        requires place { at < length self.old.entries }
        requires empty { slice_index self.old.entries at ≡ 0 }
        ensures { self.new ≡ record self.old {
          entries = slice_set self.old.entries at (slice_index self.old.entries from);
        } }
    {
        let p = self.entries[from];
        self.owners.more_but_zero(p);
        self.entries[at] = p;
    }

    /// Lets an entry name what another one names, whatever it named before.
    pub(crate) fn replace(&mut self, from: usize, at: usize)
        requires few { length self.old.entries < 2 ^ 32 }
        requires from { from < length self.old.entries }
        requires place { at < length self.old.entries }
        requires apart { from ≢ at }
        ensures { self.new ≡ record self.old {
          entries = slice_set self.old.entries at (slice_index self.old.entries from);
        } }
    {
        self.clear(at);
        self.share(from, at);
    }

    /// Makes an entry 0.
    pub(crate) fn clear(&mut self, at: usize)
        requires place { at < length self.old.entries }
        ensures entries { self.new.entries ≡ slice_set self.old.entries at 0 }
        ensures limit { self.new.limit ≡ self.old.limit }
        ensures used { different self.new.entries + one_if (own_at self.old.entries at) ≡ different self.old.entries }
    {
        self.owners.less_but_zero(self.entries[at]);
        self.entries[at] = 0;
    }

    /// Lets an entry that is 0 or shared name a number that was given out before and that none
    /// names, where there is one.
    pub(crate) fn renew(&mut self, at: usize) -> Option<u32>
        requires place { at < length self.old.entries }
        requires shared { IsShared self.old.entries at }
        ensures other { IfSome result (λ p. (0 < p) × (p < self.old.limit)) }
        ensures unnamed { IfSome result (λ p. occurs p self.old.entries ≡ 0) }
        ensures some { IfSome result (λ p. self.new ≡ record self.old { entries = slice_set self.old.entries at p }) }
        ensures used { IfSome result (λ _. different self.new.entries ≡ different self.old.entries + 1) }
        ensures full { IfNone result (self.old.limit ≡ different self.old.entries + 1) }
        ensures none { IfNone result (self.new ≡ self.old) }
    {
        let p = self.owners.take_free()?;
        self.owners.less_but_zero(self.entries[at]);
        self.entries[at] = p;
        Some(p)
    }

    /// Lets an entry that is 0 or shared name the limit, which rises by 1.
    pub(crate) fn add(&mut self, at: usize) -> Result<(), AllocError>
        requires place { at < length self.old.entries }
        requires shared { IsShared self.old.entries at }
        requires few { self.old.limit < 2 ^ 32 }
        ensures other { 0 < self.old.limit }
        ensures unnamed { occurs self.old.limit self.old.entries ≡ 0 }
        ensures ok { OnOk result (self.new ≡ record {
          entries = slice_set self.old.entries at self.old.limit;
          limit = self.old.limit + 1;
        }) }
        ensures used { OnOk result (different self.new.entries ≡ different self.old.entries + 1) }
        ensures err { OnErr result (self.new ≡ self.old) }
    {
        let p = self.owners.len() as u32;
        self.owners.grow()?;
        self.owners.less_but_zero(self.entries[at]);
        self.entries[at] = p;
        Ok(())
    }
}
