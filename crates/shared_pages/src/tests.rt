//! Pages begun, shared, made own, written and let go. Each count of pages is worked out by hand.
ghost use Rattle.std.specs.Prelude.{◌≡◌, ◌<◌, ◌≤◌, ℕ, length, vec_len, vec_capacity, IfOk};
ghost use Rattle.shared_pages.specs.Held.{AreHeld};
ghost use Rattle.shared_pages.specs.Store.{IsIn};

use crate::{MemId, PageStore};
use am_base::MEMORY_BYTES;
use std::alloc::{AllocError, Global};
use std::process::Abort;
use std::test::Fail;

/// The bytes of a memory that are 0 but at these addresses, where they are 7.
fn sevens(alloc: Global, places: &[u32]) -> Result<Vec<u8>, AllocError>
    ensures { IfOk result (λ bytes. length bytes.items ≡ MEMORY_BYTES) }
{
    let mut bytes = Vec::new(alloc);
    bytes.resize(MEMORY_BYTES as usize, 0)?;
    'places: for place in places {
        if let Some(byte) = bytes.get_mut(*place as usize) {
            *byte = 7;
        }
    }
    Ok(bytes)
}

/// Addresses of bytes other than 0, and how many pages are used with a memory of them: the zero
/// page and each page with such an address.
const OPENINGS: [(&[u32], u64); 6] = [
    (&[], 1),
    (&[0], 2),
    (&[1_023], 2),
    (&[1_024, 1_025], 2),
    (&[1_023, 1_024], 3),
    (&[0, 5_000, 1_048_575], 4),
];

/// A memory begins, has its bytes, and ends.
fn check_opening(rt: &impl Abort, alloc: Global, store: &mut PageStore, bytes: &[u8], used: u64)
    requires { length bytes.now ≡ MEMORY_BYTES }
{
    let id = store.begin(alloc, bytes).expect(rt, "pages");
    assert_eq!(rt; store.used(), used);
    for at in [0u32, 1_023, 1_024, 1_025, 5_000, 1_048_575] {
        assert!(rt; at < MEMORY_BYTES);
        assert_eq!(rt; store.read(&id, at), bytes[at as usize], "at {at}");
    }
    store.release(id);
    assert_eq!(rt; store.used(), 1);
}

#[test]
fn begins(rt: HostRuntime) -> Result<(), Fail> {
    let mut store = PageStore::new(rt.alloc())?;
    for (places, used) in OPENINGS {
        let bytes = sevens(rt.alloc(), places)?;
        check_opening(&rt, rt.alloc(), &mut store, &bytes, used);
    }
    assert_eq!(rt; store.peak(), 4);
    Ok(())
}

/// A fork is made, gets two pages of its own, is written, and outlives the memory that it was made
/// from. The zero page and page 2 of the first memory are used before.
#[test]
fn shares(rt: HostRuntime) -> Result<(), Fail> {
    let mut store = PageStore::new(rt.alloc())?;
    let bytes = sevens(rt.alloc(), &[2_053])?;
    let old = store.begin(rt.alloc(), &bytes).expect(&rt, "a page");
    let new = store.fork(rt.alloc(), &old).expect(&rt, "a table");
    assert_eq!(rt; store.used(), 2, "a fork takes no page");
    store
        .reserve(rt.alloc(), &new, &[2_053, 0, 2_054])
        .expect(&rt, "two pages");
    assert_eq!(rt; store.used(), 4, "pages 0 and 2 are the fork's own");
    store.write(&new, 2_053, 8);
    store.write(&new, 0, 3);
    assert_eq!(rt; (store.read(&new, 2_053), store.read(&old, 2_053)), (8, 7));
    assert_eq!(rt; (store.read(&new, 0), store.read(&old, 0)), (3, 0));
    assert_eq!(rt; store.run(&new, 2_052, 3), [0, 8, 0].as_slice());
    store
        .reserve(rt.alloc(), &new, &[2_047, 2_048])
        .expect(&rt, "a page");
    assert_eq!(rt; store.used(), 5, "page 2 was the fork's own already");
    store.release(old);
    assert_eq!(rt; store.used(), 4, "page 2 of the first memory was its own");
    assert_eq!(rt; store.read(&new, 2_053), 8);
    store.release(new);
    assert_eq!(rt; (store.used(), store.peak()), (1, 5));
    Ok(())
}

/// Forks a memory of two pages, gives the fork two pages of its own, and lets it go.
fn fork_once(rt: &impl Abort, alloc: Global, store: &mut PageStore, id: &MemId)
    requires { IsIn store.old id.now }
    ensures { IsIn store.new id.now }
{
    let fork = store.fork(alloc, id).expect(rt, "a table");
    store
        .reserve(alloc, &fork, &[0, 70_000])
        .expect(rt, "two pages");
    assert_eq!(rt; store.used(), 5);
    store.release(fork);
    assert_eq!(rt; store.used(), 3);
}

/// Does it again and again.
fn fork_often(rt: &impl Abort, alloc: Global, store: &mut PageStore, id: &MemId)
    requires { IsIn store.old id.now }
    ensures { IsIn store.new id.now }
{
    'forks: for _ in 0..1_000 {
        fork_once(rt, alloc, store, id);
    }
}

/// Pages that are free are taken again before new ones: the store never has bytes for more pages
/// than were used at once.
#[test]
fn takes_pages_again(rt: HostRuntime) -> Result<(), Fail> {
    let mut store = PageStore::new(rt.alloc())?;
    let bytes = sevens(rt.alloc(), &[0, 5_000])?;
    let id = store.begin(rt.alloc(), &bytes).expect(&rt, "two pages");
    fork_often(&rt, rt.alloc(), &mut store, &id);
    store.release(id);
    assert_eq!(rt; (store.used(), store.peak(), store.held()), (1, 5, 5));
    Ok(())
}

/// How many forks of one memory are held at once.
const FORKS: usize = 16_384;

/// Forks a memory of one page, and holds all its forks.
fn hold_forks(
    rt: &impl Abort,
    alloc: Global,
    store: &mut PageStore,
    id: &MemId,
    held: &mut Vec<MemId>,
)
    requires known { IsIn store.old id.now }
    requires none { length held.old.items ≡ 0 }
    ensures { AreHeld store.new id.now held.new.items }
{
    'forks: for _ in 0..FORKS {
        let fork = store.fork(alloc, id).expect(rt, "a table");
        assert_eq!(rt; store.used(), 2);
        match held.push(fork) {
            Ok(()) => {}
            Err(_) => panic!(rt; "no room for a handle"),
        }
    }
}

/// Lets the forks go, the last one first.
fn release_forks(rt: &impl Abort, store: &mut PageStore, id: &MemId, forks: Vec<MemId>)
    requires { AreHeld store.old id.now forks.items }
    ensures { IsIn store.new id.now }
{
    let mut held = forks;
    'forks: while let Some(fork) = held.pop() {
        store.release(fork);
        assert_eq!(rt; store.used(), 2);
    }
    held.destroy_empty();
}

#[test]
fn holds_forks(rt: HostRuntime) -> Result<(), Fail> {
    let mut store = PageStore::new(rt.alloc())?;
    let bytes = sevens(rt.alloc(), &[0])?;
    let id = store.begin(rt.alloc(), &bytes).expect(&rt, "a page");
    let mut held = Vec::new(rt.alloc());
    hold_forks(&rt, rt.alloc(), &mut store, &id, &mut held);
    release_forks(&rt, &mut store, &id, held);
    store.release(id);
    assert_eq!(rt; (store.used(), store.peak()), (1, 2));
    Ok(())
}
