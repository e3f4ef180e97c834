//! The lists of registers and of bytes that a change writes.

ghost use Rattle.std.specs.Prelude.{◌≡◌, ◌<◌, [], ◌∷◌, ◌++◌, false, if◌then◌else◌, map, All, OnOk, OnErr};
ghost use Rattle.std.specs.List.Sorted.{IsStrictlyIncreasing};

use am_base::OutOfMemory;
use smallvec::SmallVec;
use std::alloc::Global;
use std::default::MadeWith;
use std::marker::Model;

/// How many register writes are kept without memory.
const FEW_REGISTERS: usize = 2;

/// How many byte writes are kept without memory.
const FEW_BYTES: usize = 8;

/// Puts the few pairs into the long list in place of what it holds, unless it holds all already.
fn keep_all<T: Copy + MadeWith<Global>, const N: usize>(
    all: &mut SmallVec<T, N>,
    is_long: bool,
    few: &[T],
) -> Result<(), OutOfMemory>
    ensures ok { OnOk result (all.new.items ≡ (if is_long then all.old.items else few.now)) }
    ensures err { OnErr result (is_long ≡ false) }
{
    if is_long {
        return Ok(());
    }
    all.clear();
    all.extend_from_slice(few)?;
    Ok(())
}

/// The registers that a change writes, with their words, in order. Contracts see the list of the
/// pairs. Up to two are kept without memory.
#[derive(Debug, Drop)]
pub struct RegisterWrites {
    few: [(u32, u64); FEW_REGISTERS],
    count: usize,
    is_long: bool,
    /// All of them, where there are more than a few.
    pairs: SmallVec<(u32, u64), 1>,
}

impl Model for RegisterWrites {
    ghost use Rattle.std.specs.Prelude.{List, ℕ, ◌≤◌};
    ghost use Rattle.machine_form.specs.Held.{held};

    ghost Value = { List (ℕ × ℕ) };

    ghost view = { λ w. held w.is_long w.pairs.items w.count w.few };

    ghost invariant = { λ w. w.count ≤ 2 };
}

impl RegisterWrites {
    /// No write. It takes no memory.
    pub fn new(alloc: Global) -> RegisterWrites
        ensures { result ≡ [] }
    {
        RegisterWrites {
            few: [(0, 0); FEW_REGISTERS],
            count: 0,
            is_long: false,
            pairs: SmallVec::new(alloc),
        }
    }

    /// The pairs of a register and its word.
    pub fn as_slice(&self) -> &[(u32, u64)]
        ensures { result.now ≡ self.now }
    {
        if self.is_long {
            return self.pairs.as_slice();
        }
        &self.few[..self.count]
    }

    /// Removes all writes. It takes no memory.
    pub fn clear(&mut self)
        ensures { self.new ≡ [] }
    {
        self.count = 0;
        self.is_long = false;
    }

    /// Makes this the only write. It takes no memory.
    pub fn set_one(&mut self, register: u32, word: u64)
        ensures { self.new ≡ (register, word) ∷ [] }
    {
        self.few[0] = (register, word);
        self.count = 1;
        self.is_long = false;
    }

    /// Appends a write. It is refused only for want of memory, and then the list is as it was.
    pub fn push(&mut self, register: u32, word: u64) -> Result<(), OutOfMemory>
        ensures ok { OnOk result (self.new ≡ self.old ++ (register, word) ∷ []) }
        ensures err { OnErr result (self.new ≡ self.old) }
    {
        if !self.is_long && self.count < FEW_REGISTERS {
            self.few[self.count] = (register, word);
            self.count += 1;
            return Ok(());
        }
        keep_all(&mut self.pairs, self.is_long, &self.few[..self.count])?;
        self.pairs.push((register, word))?;
        self.is_long = true;
        Ok(())
    }
}

/// The addresses whose bytes a change really changes, with their new bytes, in rising order of the
/// addresses. Contracts see the list of the pairs. Up to eight are kept without memory.
#[derive(Debug, Drop)]
pub struct ByteWrites {
    few: [(u32, u8); FEW_BYTES],
    count: usize,
    is_long: bool,
    /// All of them, where there are more than a few.
    pairs: SmallVec<(u32, u8), 1>,
}

impl Model for ByteWrites {
    ghost use Rattle.std.specs.Prelude.{List, ℕ, ◌≤◌, map};
    ghost use Rattle.std.specs.List.Sorted.{IsStrictlyIncreasing};
    ghost use Rattle.machine_form.specs.Held.{held};

    ghost Value = { List (ℕ × ℕ) };

    ghost view = { λ w. held w.is_long w.pairs.items w.count w.few };

    ghost invariant = { λ w. (w.count ≤ 8) × IsStrictlyIncreasing (map (λ b. b.0) (held w.is_long w.pairs.items w.count w.few)) };
}

impl ByteWrites {
    /// No write. It takes no memory.
    pub fn new(alloc: Global) -> ByteWrites
        ensures { result ≡ [] }
    {
        ByteWrites {
            few: [(0, 0); FEW_BYTES],
            count: 0,
            is_long: false,
            pairs: SmallVec::new(alloc),
        }
    }

    /// The pairs of an address and its byte, by rising address.
    pub fn as_slice(&self) -> &[(u32, u8)]
        ensures pairs { result.now ≡ self.now }
        ensures rising { IsStrictlyIncreasing (map (λ b. b.0) result.now) }
    {
        if self.is_long {
            return self.pairs.as_slice();
        }
        &self.few[..self.count]
    }

    /// Removes all writes. It takes no memory.
    pub fn clear(&mut self)
        ensures { self.new ≡ [] }
    {
        self.count = 0;
        self.is_long = false;
    }

    /// Appends a write at an address above all others. It is refused only for want of memory, and
    /// then the list is as it was.
    pub fn push(&mut self, address: u32, byte: u8) -> Result<(), OutOfMemory>
        requires above { All (λ b. b.0 < address) self.old }
        ensures ok { OnOk result (self.new ≡ self.old ++ (address, byte) ∷ []) }
        ensures err { OnErr result (self.new ≡ self.old) }
    {
        if !self.is_long && self.count < FEW_BYTES {
            self.few[self.count] = (address, byte);
            self.count += 1;
            return Ok(());
        }
        keep_all(&mut self.pairs, self.is_long, &self.few[..self.count])?;
        self.pairs.push((address, byte))?;
        self.is_long = true;
        Ok(())
    }
}
