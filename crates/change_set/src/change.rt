//! The test whether two changes are equal, and the pages in which the bytes of a change lie.

ghost use Rattle.std.specs.Prelude.{◌≡◌, ◌↔◌, ◌<◌, ◌+◌, IsTrue, if◌then◌else◌, map, drop, length};
ghost use Rattle.std.specs.List.Sorted.{IsStrictlyIncreasing};
ghost use Rattle.machine_form.specs.Pages.{pages_of};

use am_base::PAGE_BYTES;
use am_lists::Same;
use machine_form::Change;

/// Whether the two changes are equal in every part.
pub fn same(a: &Change, b: &Change) -> bool
    ensures { IsTrue result ↔ (a.now ≡ b.now) }
{
    a.same(b)
}

/// Whether the address at the index is the last one of its page.
fn is_last_of_page(bytes: &[(u32, u8)], i: usize) -> bool
    requires rising { IsStrictlyIncreasing (map (λ b. b.0) bytes.now) }
    requires within { i < length bytes.now }
    ensures { pages_of (drop i bytes.now) ≡ pages_of (drop (i + 1) bytes.now) + (if result then 1 else 0) }
{
    if i + 1 == bytes.len() {
        return true;
    }
    bytes[i].0 / PAGE_BYTES != bytes[i + 1].0 / PAGE_BYTES
}

/// The number of different pages in which the bytes of a change lie. The page of an address is its
/// quotient by the page size. O(n) in the number of the bytes.
pub fn pages(c: &Change) -> u64
    ensures { result ≡ pages_of c.now.bytes }
{
    let bytes = c.bytes.as_slice();
    let mut pages = 0;
    for i in 0..bytes.len() {
        if is_last_of_page(bytes, i) {
            pages += 1;
        }
    }
    pages
}
