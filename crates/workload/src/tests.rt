//! Pieces of the texts of two workloads, by hand.

use crate::{MODULE, MUTANTS, TESTS, Workload};
use am_base::{Shelf, ShelfFault};
use std::test::Fail;

#[test]
fn pieces_of_the_texts(rt: HostRuntime) -> Result<(), Fail> {
    let rows = [
        (
            0,
            MODULE,
            0,
            "define i32 @l() {\nentry:\n  br label %loop\nloop:\n  %i = phi i32 [",
        ),
        (
            7,
            MODULE,
            92,
            "  %x0 = and i32 %i, 127\n  %x1 = and i32 %x0, 127\n  %x2 = and i32",
        ),
        (
            0,
            MUTANTS,
            0,
            "function;instruction;replacement\nl;3;and i32 %i, 255\nl;3;urem i3",
        ),
        (
            0,
            MUTANTS,
            33,
            "l;3;and i32 %i, 255\nl;3;urem i32 %i, 10\nl;4;and i32 %x0, 255\nl;4",
        ),
        (
            1,
            MUTANTS,
            33,
            "l;3;and i32 %i, 255\nl;3;urem i32 %i, 1000\nl;4;and i32 %x0, 255\nl",
        ),
        (
            100,
            MUTANTS,
            53,
            "l;3;urem i32 %i, 10\nl;4;and i32 %x0, 255\nl;4;urem i32 %x0, 1000\n",
        ),
        (
            0,
            TESTS,
            0,
            "name;function;arguments;input;budget;expected\nload;l;;;100000;\n",
        ),
        (0, TESTS, 63, ""),
    ];
    for (n, name, from, want) in rows {
        let mut shelf = Workload::of(rt.alloc(), n)?;
        let mut buffer = [0; 64];
        let found = shelf.read_at(name, from, &mut buffer);
        assert!(rt; found == Ok(want.len()), "of {name:?}");
        assert_eq!(rt;
            &buffer[..want.len().min(64)],
            want.as_bytes(),
            "of {name:?}"
        );
    }
    Ok(())
}

#[test]
fn other_names_miss(rt: HostRuntime) -> Result<(), Fail> {
    let mut shelf = Workload::of(rt.alloc(), 0)?;
    let mut buffer = [0; 8];
    for name in ["", "modul", "module2", "load"] {
        let found = shelf.read_at(name, 0, &mut buffer);
        assert!(rt; found == Err(ShelfFault::Missing), "of {name:?}");
    }
    Ok(())
}
