//! Bytes behind those of a buffer.
ghost use Rattle.std.specs.Prelude.{◌≡◌, ◌-◌, ◌<◌, ◌++◌, length, replicate, OnOk};
ghost use Rattle.type_layout.specs.Layout.{round_up};
ghost use Rattle.ir_rules.specs.Memory.{little_endian};

use am_base::OutOfMemory;
use am_lists::Bytes;

/// Appends zeros. O(n).
pub fn pad(buffer: &mut Bytes, count: u64) -> Result<(), OutOfMemory>
    ensures { OnOk result (buffer.new ≡ buffer.old ++ replicate count 0) }
{
    'each: for _at in 0..count {
        buffer.push(0)?;
    }
    Ok(())
}

/// Appends zeros, so that there are a number of bytes behind a place. O(n).
pub fn pad_to(buffer: &mut Bytes, start: usize, count: u64) -> Result<(), OutOfMemory>
    ensures { OnOk result (buffer.new
        ≡ buffer.old ++ replicate (count - (length buffer.old - start)) 0) }
{
    let done = buffer.len().saturating_sub(start) as u64;
    pad(buffer, count.saturating_sub(done))
}

/// Appends zeros, so that the number of bytes behind a place is a multiple of an alignment.
pub fn pad_field(buffer: &mut Bytes, start: usize, align: u64) -> Result<(), OutOfMemory>
    requires { 0 < align }
    ensures { let done = length buffer.old - start in
        OnOk result (buffer.new ≡ buffer.old ++ replicate (round_up done align - done) 0) }
{
    let done = buffer.len().saturating_sub(start) as u64;
    pad(buffer, (align - done % align) % align)
}

/// Appends the lowest bytes of a word, the lowest one first. O(n).
pub fn write_word(buffer: &mut Bytes, size: u64, word: u64) -> Result<(), OutOfMemory>
    ensures { OnOk result (buffer.new ≡ buffer.old ++ little_endian size word) }
{
    let mut rest = word;
    'each: for _at in 0..size {
        buffer.push((rest % 256) as u8)?;
        rest /= 256;
    }
    Ok(())
}
