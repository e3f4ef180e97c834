//! Writes of registers and bytes, in vectors whose room contracts see.
ghost use Rattle.std.specs.Prelude.{◌≡◌, ◌<◌, ◌≤◌, ◌+◌, ◌-◌, ◌++◌, length, replicate, take, drop, None, All, OnOk, OnErr, vec_capacity};
ghost use Rattle.machine_form.specs.State.{with_writes, with_bytes};
ghost use Rattle.machine_form.specs.Start.{zeros};

use am_base::{MEMORY_BYTES, OutOfMemory};

/// Makes some register writes, in order.
pub fn write_registers(registers: &mut [Option<u64>], writes: &[(u32, u64)])
    ensures { registers.new ≡ with_writes registers.old writes.now }
{
    for (r, word) in writes {
        let r = *r as usize;
        if r < registers.len() {
            registers[r] = Some(*word);
        }
    }
}

/// Makes some byte writes, in order, all of them among these bytes. With the zeros above, which
/// aren't kept, the bytes are the memory.
pub fn write_below(bytes: &mut [u8], writes: &[(u32, u8)])
    requires within { All (λ b. b.0 < length bytes.old) writes.now }
    requires few { length bytes.old ≤ MEMORY_BYTES }
    ensures { bytes.new ++ zeros (MEMORY_BYTES - length bytes.new) ≡ with_bytes (bytes.old ++ zeros (MEMORY_BYTES - length bytes.old)) writes.now }
{
    write_bytes(bytes, writes);
}

/// Makes some byte writes, in order.
fn write_bytes(bytes: &mut [u8], writes: &[(u32, u8)])
    ensures { bytes.new ≡ with_bytes bytes.old writes.now }
{
    for (address, byte) in writes {
        let address = *address as usize;
        if address < bytes.len() {
            bytes[address] = *byte;
        }
    }
}

/// Keeps more bytes, zeros in place of zeros that weren't kept. A refusal leaves the bytes.
pub fn grow(bytes: &mut Vec<u8>, len: usize) -> Result<(), OutOfMemory>
    requires longer { length bytes.old.items ≤ len }
    requires few { len ≤ MEMORY_BYTES }
    ensures ok { OnOk result (length bytes.new.items ≡ len) }
    ensures err { OnErr result (bytes.new.items ≡ bytes.old.items) }
    ensures same { bytes.new.items ++ zeros (MEMORY_BYTES - length bytes.new.items) ≡ bytes.old.items ++ zeros (MEMORY_BYTES - length bytes.old.items) }
{
    bytes.resize(len, 0)?;
    Ok(())
}

/// Removes the registers from an end on, and writes those from a base on.
pub fn go_back(registers: &mut Vec<Option<u64>>, end: usize, base: usize, writes: &[(u32, u64)])
    requires nested { base ≤ end }
    requires within { end ≤ length registers.old.items }
    ensures above { drop base registers.new.items ≡ with_writes (drop base (take end registers.old.items)) writes.now }
    ensures below { take base registers.new.items ≡ take base registers.old.items }
    ensures length { length registers.new.items ≡ end }
    ensures room { vec_capacity registers.new ≡ vec_capacity registers.old }
{
    registers.truncate(end);
    write_registers(&mut registers[base..], writes);
}

/// Appends that many registers without a word, in the room that there is.
pub fn push_unset(registers: &mut Vec<Option<u64>>, count: u32)
    requires { length registers.old.items + count ≤ vec_capacity registers.old }
    ensures { registers.new.items ≡ registers.old.items ++ replicate count None }
{
    for _ in 0..count {
        registers.push_reserved(None);
    }
}
