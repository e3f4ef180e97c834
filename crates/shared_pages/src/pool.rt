//! Numbers with counts of their owners, and a list of those that have none.
ghost use Rattle.std.specs.Prelude.{◌≡◌, ℕ, ◌+◌, ◌-◌, ◌^◌, ◌<◌, ◌≤◌, ◌∷◌, ◌++◌, [], length, slice_index, slice_index_or, slice_set, IfOk, IfSome, IfNone, OnOk, OnErr};
ghost use Rattle.shared_pages.specs.Counts.{occurs, one_less, one_more};

use std::alloc::{AllocError, Global};
use std::marker::Model;

/// Numbers from 0 on, each with how many owners it has. Contracts see the list of the counts.
/// Number 0 always has one owner more than are counted elsewhere.
#[derive(Drop)]
pub(crate) struct Pool {
    counts: Vec<u32>,
    /// The numbers without an owner, each once.
    free: Vec<u32>,
}

impl Model for Pool {
    ghost use Rattle.std.specs.Prelude.{List, ℕ, ◌≤◌, length};
    ghost use Rattle.std.specs.Vec.{vec_capacity};
    ghost use Rattle.shared_pages.specs.Counts.{IsPool};

    ghost Value = { List ℕ };

    ghost view = { λ p. p.counts.items };

    ghost invariant = { λ p. IsPool p.counts.items p.free.items (vec_capacity p.free) };
}

impl Pool {
    /// The number 0 alone.
    pub(crate) fn new(alloc: Global) -> Result<Pool, AllocError>
        ensures { IfOk result (λ p. p ≡ 1 ∷ []) }
    {
        let free = Vec::with_capacity(alloc, 1)?;
        let mut counts = Vec::new(alloc);
        counts.push(1)?;
        Ok(Pool { counts, free })
    }

    /// How many numbers there are, with or without an owner.
    pub(crate) fn len(&self) -> usize
        ensures length { result ≡ length self.now }
        ensures some { 0 < length self.now }
    {
        self.counts.len()
    }

    /// How many owners a number has.
    pub(crate) fn count(&self, p: u32) -> u32
        requires { p < length self.now }
        ensures { result ≡ slice_index self.now p }
    {
        self.counts[p as usize]
    }

    /// How many numbers have an owner.
    pub(crate) fn used(&self) -> usize
        ensures { result ≡ length self.now - occurs 0 self.now }
    {
        self.counts.len() - self.free.len()
    }

    /// Gives a number without an owner its first, where there is such a number.
    pub(crate) fn take_free(&mut self) -> Option<u32>
        ensures other { IfSome result (λ p. 0 < p) }
        ensures free { IfSome result (λ p. slice_index_or self.old p 1 ≡ 0) }
        ensures taken { IfSome result (λ p. self.new ≡ slice_set self.old p 1) }
        ensures full { IfNone result (occurs 0 self.old ≡ 0) }
        ensures none { IfNone result (self.new ≡ self.old) }
    {
        let p = self.free.pop()?;
        self.counts[p as usize] = 1;
        Some(p)
    }

    /// Adds a number that has an owner, behind the others.
    pub(crate) fn grow(&mut self) -> Result<(), AllocError>
        ensures ok { OnOk result (self.new ≡ self.old ++ 1 ∷ []) }
        ensures err { OnErr result (self.new ≡ self.old) }
    {
        let more = self.counts.len() + 1 - self.free.len();
        self.free.try_reserve(more)?;
        self.counts.push(1)?;
        Ok(())
    }

    /// Gives a number one owner more.
    pub(crate) fn more(&mut self, p: u32)
        requires owned { 0 < slice_index self.old p }
        requires room { slice_index self.old p + 1 < 2 ^ 32 }
        ensures { self.new ≡ slice_set self.old p (slice_index self.old p + 1) }
    {
        self.counts[p as usize] += 1;
    }

    /// Takes an owner from a number other than 0.
    pub(crate) fn less(&mut self, p: u32)
        requires other { 0 < p }
        requires owned { 0 < slice_index self.old p }
        ensures { self.new ≡ slice_set self.old p (slice_index self.old p - 1) }
    {
        let left = self.counts[p as usize] - 1;
        self.counts[p as usize] = left;
        if left == 0 {
            match self.free.push(p) {
                Ok(()) => {}
                Err(_) => unreachable!(),
            }
        }
    }

    /// Takes an owner from a number, if that isn't 0.
    pub(crate) fn less_but_zero(&mut self, p: u32)
        requires owned { 0 < p → 0 < slice_index self.old p }
        ensures { self.new ≡ one_less self.old p }
    {
        if p != 0 {
            self.less(p);
        }
    }

    /// Gives a number one owner more, if that isn't 0.
    pub(crate) fn more_but_zero(&mut self, p: u32)
        requires owned { 0 < p → 0 < slice_index self.old p }
        requires room { 0 < p → slice_index self.old p + 1 < 2 ^ 32 }
        ensures { self.new ≡ one_more self.old p }
    {
        if p != 0 {
            self.more(p);
        }
    }
}
