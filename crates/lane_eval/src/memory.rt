//! `alloca`, `load` and `store`.
ghost use Rattle.std.specs.Prelude.{◌≡◌, ◌<◌, ◌≤◌, ◌+◌, OnOk};
ghost use Rattle.code_form.specs.Layout as layout;
ghost use Rattle.machine_form.specs.Straight as spec;
ghost use Rattle.machine_form.specs.Straight.{bytes_from, value_of, with_value, load_change, store_change, alloca_change};
ghost use Rattle.lane_eval.specs.Operands.{HasMemory, IsSmallAlignment};

use crate::step::{gives, traps};
use crate::view::View;
use am_base::{Cast, FIRST_ADDRESS, MEMORY_BYTES, OutOfMemory, Trap, Width, convert};
use change_set::{ByteWrites, Change};
use code_form::{Code, Operand};

/// How many bytes an integer of a width takes.
fn bytes_of(w: Width) -> usize
    ensures value { result ≡ layout.bytes_of w }
    ensures some { 0 < result }
    ensures few { result ≤ 8 }
{
    match w {
        Width::W1 | Width::W8 => 1,
        Width::W16 => 2,
        Width::W32 => 4,
        Width::W64 => 8,
    }
}

/// Whether all bytes of an access lie from `FIRST_ADDRESS` to below the stack top.
fn is_in_range<V: View>(s: &V, address: u64, len: usize) -> bool
    requires { len ≤ 8 }
    ensures { result ≡ spec.is_in_range (V.state s.now) address len }
{
    let top = u64::from(s.top());
    address >= u64::from(FIRST_ADDRESS) && address <= top && address + len as u64 <= top
}

/// Puts the bytes of a number that differ from what stands in memory from an address on into
/// `writes`, whatever stood there.
fn differing<V: View>(
    s: &V,
    at: usize,
    len: usize,
    word: u64,
    writes: &mut ByteWrites,
) -> Result<(), OutOfMemory>
    requires inside { at + len ≤ (V.state s.now).top }
    requires few { (V.state s.now).top ≤ MEMORY_BYTES }
    ensures { OnOk result (writes.new ≡ spec.differing (V.state s.now).bytes at (bytes_from len word)) }
{
    writes.clear();
    let mut rest = word;
    for i in 0..len {
        let byte = (rest % 256) as u8;
        if s.byte(at + i) != byte {
            writes.push((at + i) as u32, byte)?;
        }
        rest /= 256;
    }
    Ok(())
}

/// A store of a word at an address.
fn store_at<V: View>(
    code: &Code,
    s: &V,
    w: Width,
    word: u64,
    address: u64,
    out: &mut Change,
) -> Result<(), OutOfMemory>
    requires { HasMemory (V.state s.now) }
    ensures { OnOk result (out.new ≡ store_change code.now (V.state s.now) w word address) }
{
    let len = bytes_of(w);
    if !is_in_range(s, address, len) {
        traps(s, Trap::AddressRange, out);
        return Ok(());
    }
    if address < u64::from(code.const_end) {
        traps(s, Trap::ConstantWrite, out);
        return Ok(());
    }
    gives(s, None, 0, out);
    differing(s, address as usize, len, word, &mut out.bytes)
}

/// `store`: the value and the address.
pub fn store<V: View>(
    code: &Code,
    s: &V,
    w: Width,
    a: Operand,
    b: Operand,
    out: &mut Change,
) -> Result<(), OutOfMemory>
    requires { HasMemory (V.state s.now) }
    ensures { OnOk result (out.new ≡ with_value (V.state s.now) (value_of (V.state s.now) a) (λ x. with_value (V.state s.now) (value_of (V.state s.now) b) (λ address. store_change code.now (V.state s.now) w x address))) }
{
    let Some(x) = s.value(a) else {
        traps(s, Trap::UnsetRegister, out);
        return Ok(());
    };
    let Some(address) = s.value(b) else {
        traps(s, Trap::UnsetRegister, out);
        return Ok(());
    };
    store_at(code, s, w, x, address, out)
}

/// A load from an address.
fn load_at<V: View>(s: &V, r: Option<u32>, w: Width, address: u64, out: &mut Change)
    requires { HasMemory (V.state s.now) }
    ensures { out.new ≡ load_change (V.state s.now) r w address }
{
    let len = bytes_of(w);
    if !is_in_range(s, address, len) {
        return traps(s, Trap::AddressRange, out);
    }
    let word = s.number(address as usize, len);
    gives(s, r, convert(Cast::Trunc, Width::W64, w, word), out);
}

/// `load`: the address.
pub fn load<V: View>(s: &V, r: Option<u32>, w: Width, a: Operand, out: &mut Change)
    requires { HasMemory (V.state s.now) }
    ensures { out.new ≡ with_value (V.state s.now) (value_of (V.state s.now) a) (λ address. load_change (V.state s.now) r w address) }
{
    let Some(address) = s.value(a) else {
        return traps(s, Trap::UnsetRegister, out);
    };
    load_at(s, r, w, address, out);
}

/// That many values of a size on the stack.
fn alloca_count<V: View>(s: &V, r: Option<u32>, size: u64, align: u64, count: u64, out: &mut Change)
    requires memory { HasMemory (V.state s.now) }
    requires align { IsSmallAlignment align }
    ensures { out.new ≡ alloca_change (V.state s.now) r size align count }
{
    let top = u64::from(s.top());
    let address = top + (align - top % align) % align;
    if let Some(bytes) = size.checked_mul(count) {
        let most = u64::from(MEMORY_BYTES);
        if bytes <= most && address + bytes <= most {
            gives(s, r, address, out);
            out.top = (address + bytes) as u32;
            return;
        }
    }
    traps(s, Trap::MemoryFull, out);
}

/// `alloca`: the size and the alignment in bytes, and the count, which is unsigned.
pub fn alloca<V: View>(
    s: &V,
    r: Option<u32>,
    size: u64,
    align: u64,
    count: Operand,
    out: &mut Change,
)
    requires memory { HasMemory (V.state s.now) }
    requires align { IsSmallAlignment align }
    ensures { out.new ≡ with_value (V.state s.now) (value_of (V.state s.now) count) (λ n. alloca_change (V.state s.now) r size align n) }
{
    let Some(n) = s.value(count) else {
        return traps(s, Trap::UnsetRegister, out);
    };
    alloca_count(s, r, size, align, n, out);
}
