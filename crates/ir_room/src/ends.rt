//! Where a global ends that begins at an address or behind it.
ghost use Rattle.std.specs.Prelude.{◌≡◌, ℕ, ◌+◌, ◌<◌, ◌≤◌, slice_index};
ghost use Rattle.am_base.specs.declared.limits.TheConstants.{MEMORY_BYTES};
ghost use Rattle.type_layout.specs.Layout.{round_up};
ghost use Rattle.ir_room.specs.Ends as spec;

use am_base::MEMORY_BYTES;
use type_table::Extent;

/// Returns the address, or the first one behind the memory where it is greater.
pub fn limited(at: u64) -> u64
    ensures value { result ≡ spec.limited at }
    ensures few { result ≤ MEMORY_BYTES + 1 }
{
    at.min(u64::from(MEMORY_BYTES) + 1)
}

fn near(align: u64) -> u64
    ensures value { result ≡ spec.near align }
    ensures some { 0 < result }
    ensures few { result ≤ 8 }
{
    align.max(1).min(8)
}

/// The least multiple of an alignment that is not below an address.
fn round(at: u64, align: u64) -> u64
    requires some { 0 < align }
    requires small { at ≤ MEMORY_BYTES + 1 }
    requires few { align ≤ 8 }
    ensures value { result ≡ round_up at align }
    ensures small { result < at + align }
{
    at + (align - at % align) % align
}

/// Where a global ends that begins at an address or behind it.
pub fn end_after(at: u64, extent: &Extent) -> u64
    ensures { result ≡ spec.end_after at extent.now }
{
    let start = round(limited(at), near(extent.align));
    limited(start + limited(extent.size))
}

/// Returns the same for each of eight addresses.
pub fn ends_after(ends: &[u64; 8], extent: &Extent) -> [u64; 8]
    ensures { (r : ℕ) → r < 8 → slice_index result r ≡ spec.end_after (slice_index ends.now r) extent.now }
{
    let mut next = [0; 8];
    'each: for r in 0..8 {
        next[r] = end_after(ends[r], extent);
    }
    next
}
