//! The smaller suites and the subsumers of small matrices, worked out by hand.

ghost use Rattle.std.specs.Prelude.{◌≡◌, ◌<◌, ◌^◌, length, IfOk};

use crate::{choose, subsumers};
use am_base::OutOfMemory;
use kill_matrix::{Letter, Matrix};
use std::alloc::Global;
use std::test::Fail;

/// A matrix of four mutants, mutant 0 included, from a row of letters for each test.
fn matrix_of(alloc: Global, rows: &[[Letter; 4]]) -> Result<Matrix, OutOfMemory>
    requires { length rows.now < 2 ^ 32 }
    ensures mutants { IfOk result (λ matrix. matrix.mutants ≡ 4) }
    ensures tests { IfOk result (λ matrix. length matrix.tests ≡ length rows.now) }
{
    let mut matrix = Matrix::new(alloc, 4)?;
    'rows: for row in rows {
        matrix.add(alloc, row)?;
    }
    Ok(matrix)
}

/// Whether these tests are chosen, and these are the least subsumers.
fn agrees(
    alloc: Global,
    rows: &[[Letter; 4]],
    chosen: &[u32],
    least: [Option<u32>; 4],
) -> Result<(bool, bool), OutOfMemory>
    requires { length rows.now < 2 ^ 32 }
{
    let matrix = matrix_of(alloc, rows)?;
    let tests = rows.len() as u32;
    let kept = choose(alloc, &matrix, tests)?;
    let found = subsumers(alloc, &matrix, 4, tests)?;
    Ok((
        kept.as_slice() == chosen,
        found.as_slice() == least.as_slice(),
    ))
}

#[test]
fn suites_of_three_mutants(rt: HostRuntime) -> Result<(), Fail> {
    let n = Letter::Same;
    let k = Letter::Return;
    let none: [Option<u32>; 4] = [None; 4];
    // Tests 1 and 3 kill mutant 1, and test 2 the mutants 2 and 3.
    let rows = [[n, n, n, n], [n, k, n, n], [n, n, k, k], [n, k, n, n]];
    let least = [None, None, Some(3), Some(2)];
    assert_eq!(rt; agrees(rt.alloc(), &rows, &[1, 2], least)?, (true, true));
    // None is killed.
    assert_eq!(rt; agrees(rt.alloc(), &[[n; 4]], &[], none)?, (true, true));
    assert_eq!(rt; agrees(rt.alloc(), &[], &[], none)?, (true, true));
    // All are killed, by the same tests.
    let rows = [[n, k, k, k], [n, k, k, k]];
    let least = [None, Some(2), Some(1), Some(1)];
    assert_eq!(rt; agrees(rt.alloc(), &rows, &[0], least)?, (true, true));
    // The original is killed by no test, whatever its letter is.
    let rows = [[k, k, n, n], [n, k, k, k]];
    let least = [None, Some(2), Some(3), Some(2)];
    assert_eq!(rt; agrees(rt.alloc(), &rows, &[1], least)?, (true, true));
    Ok(())
}
