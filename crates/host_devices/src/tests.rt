//! Each adapter over the system that the tests run on.

use crate::adapters::{FileShelf, StdoutSink};
use am_base::{Shelf, ShelfFault, Sink};
use std::fs;
use std::test::Fail;

#[test]
fn a_shelf_reads_a_file_from_a_place(rt: HostRuntime) -> Result<(), Fail> {
    fs::write(&rt, "shelf-test.txt", "abcdef")?;
    let mut shelf = FileShelf::new(&rt);
    let mut into = [0u8; 8];
    assert_eq!(rt; shelf.read_at("shelf-test.txt", 2, &mut into), Ok(4));
    assert_eq!(rt; into.as_slice(), b"cdef\0\0\0\0".as_slice());
    assert_eq!(rt; shelf.read_at("shelf-test.txt", 6, &mut into), Ok(0));
    fs::remove_file(&rt, "shelf-test.txt")?;
    assert_eq!(rt;
        shelf.read_at("shelf-test.txt", 0, &mut into),
        Err(ShelfFault::Missing)
    );
    assert_eq!(rt; shelf.read_at(".", 0, &mut into), Err(ShelfFault::Failed));
    Ok(())
}

#[test]
fn a_sink_takes_a_piece(rt: HostRuntime) -> Result<(), Fail> {
    let mut sink = StdoutSink::new(&rt, rt.alloc());
    assert_eq!(rt; sink.write(b""), Ok(0));
    assert_eq!(rt; sink.write(b"a piece\n"), Ok(8));
    assert_eq!(rt; sink.front(), b"a piece\n".as_slice());
    Ok(())
}
