//! The text of a smaller suite.

ghost use Rattle.std.specs.Prelude.{◌≡◌, ◌++◌, ◌∷◌, flat_map, length, IfOk, None, OnOk, slice_index_or};
ghost use Rattle.std.specs.List.{list_any};
ghost use Rattle.work_report.specs.Report.{name_at};
ghost use Rattle.suite_reduce.specs.Kills.{first_tests, is_killed_by_some};
ghost use Rattle.suite_reduce.specs.Text.{kept_line, names_at, number_or_none, reduced_line, reduced_text, subsumed_line, subsumed_lines};

use crate::kills::is_killed_by;
use am_base::OutOfMemory;
use am_lists::Bytes;
use kill_matrix::Matrix;
use line_parts::{put_after, put_number};
use std::alloc::Global;
use test_suite::Suite;
use work_report::{name_of, put_score};

/// Appends the name of a test behind a blank.
fn put_name(out: &mut Bytes, suite: &Suite, t: u32) -> Result<(), OutOfMemory>
    ensures { OnOk result (out.new ≡ out.old ++ 32 ∷ name_at suite.now t) }
{
    out.push(b' ')?;
    out.extend(name_of(suite, t as usize))?;
    Ok(())
}

/// Appends the name of each test behind a blank.
#[tactic(auto, using(crate::proofs::MoreLines::names_more))]
fn put_later(out: &mut Bytes, suite: &Suite, tests: &[u32]) -> Result<(), OutOfMemory>
    ensures { OnOk result (out.new ≡ out.old ++ flat_map (λ k. 32 ∷ name_at suite.now k) tests.now) }
{
    'tests: for t in tests {
        put_name(out, suite, *t)?;
    }
    Ok(())
}

/// Appends the names of tests, with one blank between each two.
fn put_names(out: &mut Bytes, suite: &Suite, tests: &[u32]) -> Result<(), OutOfMemory>
    ensures { OnOk result (out.new ≡ out.old ++ names_at suite.now tests.now) }
{
    match tests {
        [] => Ok(()),
        [first, later @ ..] => {
            out.extend(name_of(suite, *first as usize))?;
            put_later(out, suite, later)
        }
    }
}

/// Appends the names of the chosen tests.
fn put_reduced(out: &mut Bytes, suite: &Suite, chosen: &[u32]) -> Result<(), OutOfMemory>
    ensures { OnOk result (out.new ≡ out.old ++ reduced_line suite.now chosen.now) }
{
    out.extend(b"reduced,")?;
    put_names(out, suite, chosen)?;
    out.push(b'\n')?;
    Ok(())
}

/// Appends how many tests are chosen, and how many there are.
fn put_kept(out: &mut Bytes, matrix: &Matrix, chosen: &[u32]) -> Result<(), OutOfMemory>
    ensures { OnOk result (out.new ≡ out.old ++ kept_line matrix.now chosen.now) }
{
    out.extend(b"kept,")?;
    put_number(out, chosen.len() as u64)?;
    put_after(out, b',', matrix.tests() as u64)?;
    out.push(b'\n')?;
    Ok(())
}

/// Whether some test kills a mutant.
fn is_killed(matrix: &Matrix, m: u32) -> bool
    ensures { result ≡ is_killed_by_some matrix.now m (first_tests (length matrix.now.tests)) }
{
    (0..matrix.tests()).any(|t| is_killed_by(matrix, m, t))
}

/// The entry of a mutant, and none where there is none.
fn subsumer_at(least: &[Option<u32>], b: u32) -> Option<u32>
    ensures { result ≡ slice_index_or least.now b None }
{
    match least.get(b as usize) {
        Some(entry) => *entry,
        None => None,
    }
}

fn put_number_or_none(out: &mut Bytes, number: Option<u32>) -> Result<(), OutOfMemory>
    ensures { OnOk result (out.new ≡ out.old ++ number_or_none number) }
{
    match number {
        Some(n) => put_number(out, n as u64),
        None => {
            out.push(b'-')?;
            Ok(())
        }
    }
}

/// Appends the line of a mutant, where it is killed.
fn put_subsumed(
    out: &mut Bytes,
    matrix: &Matrix,
    least: &[Option<u32>],
    b: u32,
) -> Result<(), OutOfMemory>
    ensures { OnOk result (out.new ≡ out.old ++ subsumed_line matrix.now least.now b) }
{
    if !is_killed(matrix, b) {
        return Ok(());
    }
    out.extend(b"subsumed,")?;
    put_number(out, b as u64)?;
    out.push(b',')?;
    put_number_or_none(out, subsumer_at(least, b))?;
    out.push(b'\n')?;
    Ok(())
}

/// Appends the lines of all killed mutants.
fn put_all(out: &mut Bytes, matrix: &Matrix, least: &[Option<u32>]) -> Result<(), OutOfMemory>
    ensures { OnOk result (out.new ≡ out.old ++ subsumed_lines matrix.now least.now) }
{
    'mutants: for b in 0..matrix.mutants() {
        put_subsumed(out, matrix, least, b)?;
    }
    Ok(())
}

/// Returns the text of a smaller suite: a line with the names of the chosen tests, one with how many
/// they are and how many tests there are, the score, and a line for each killed mutant with its least
/// subsumer. `chosen` are tests and `least` has an entry for each mutant, both from 0. Each line ends
/// with byte 10. Refuses for want of memory alone. The format is this project's own.
pub fn reduced(
    alloc: Global,
    suite: &Suite,
    matrix: &Matrix,
    mutants: u32,
    chosen: &[u32],
    least: &[Option<u32>],
) -> Result<Vec<u8>, OutOfMemory>
    requires mutants { matrix.now.mutants ≡ mutants }
    requires tests { length matrix.now.tests ≡ length suite.now.tests }
    ensures { IfOk result (λ text. text.items ≡ reduced_text suite.now matrix.now chosen.now least.now) }
{
    let _mutants = mutants;
    let mut out = Bytes::new(alloc);
    put_reduced(&mut out, suite, chosen)?;
    put_kept(&mut out, matrix, chosen)?;
    put_score(&mut out, matrix)?;
    put_all(&mut out, matrix, least)?;
    Ok(out.into_vec())
}
