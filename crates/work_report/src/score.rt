//! The lines of the letters and the score.

ghost use Rattle.std.specs.Prelude.{◌≡◌, ◌<◌, ◌++◌, ◌∷◌, [], flat_map, length, OnOk, IfOk};
ghost use Rattle.kill_matrix.specs.Score.{letter_of};
ghost use Rattle.kill_matrix.specs.Verdict.{byte_of};
ghost use Rattle.work_report.specs.Report.{each_below, mutant_line, score_line};
ghost use Rattle.work_report.specs.Report as spec;

use am_base::OutOfMemory;
use am_lists::Bytes;
use kill_matrix::Matrix;
use line_parts::{put_after, put_number};
use std::alloc::Global;
use test_suite::{Suite, Test};

#[tactic(auto, using(crate::proofs::MoreLines::names_more))]
fn put_names(out: &mut Bytes, tests: &[Test]) -> Result<(), OutOfMemory>
    ensures { OnOk result (out.new ≡ out.old ++ flat_map (λ test. 44 ∷ test.name) tests.now) }
{
    'tests: for test in tests {
        out.push(b',')?;
        out.extend(test.name.as_slice())?;
    }
    Ok(())
}

fn put_letters(out: &mut Bytes, matrix: &Matrix, m: u32) -> Result<(), OutOfMemory>
    requires { m < matrix.now.mutants }
    ensures { OnOk result (out.new ≡ out.old ++ each_below (λ t. 44 ∷ byte_of (letter_of matrix.now m t) ∷ []) (length matrix.now.tests)) }
{
    'tests: for t in 0..matrix.tests() {
        out.push(b',')?;
        out.push(matrix.letter(m, t).byte())?;
    }
    Ok(())
}

fn put_mutant(out: &mut Bytes, matrix: &Matrix, m: u32) -> Result<(), OutOfMemory>
    requires { m < matrix.now.mutants }
    ensures { OnOk result (out.new ≡ out.old ++ mutant_line matrix.now m) }
{
    put_number(out, m as u64)?;
    put_letters(out, matrix, m)?;
    out.push(b'\n')?;
    Ok(())
}

fn put_mutants(out: &mut Bytes, matrix: &Matrix) -> Result<(), OutOfMemory>
    ensures { OnOk result (out.new ≡ out.old ++ each_below (mutant_line matrix.now) matrix.now.mutants) }
{
    'mutants: for m in 0..matrix.mutants() {
        put_mutant(out, matrix, m)?;
    }
    Ok(())
}

/// Appends the line of the score: how many mutants are killed, and how many there are, the original
/// not counted.
pub fn put_score(out: &mut Bytes, matrix: &Matrix) -> Result<(), OutOfMemory>
    ensures { OnOk result (out.new ≡ out.old ++ score_line matrix.now) }
{
    let (killed, mutants) = matrix.score();
    out.extend(b"score,")?;
    put_number(out, killed as u64)?;
    put_after(out, b',', mutants as u64)?;
    out.push(b'\n')?;
    Ok(())
}

/// Returns the first lines of a report: the names of the tests, a line for each mutant from 0 with
/// its letters, and the score.
pub fn score_text(alloc: Global, suite: &Suite, matrix: &Matrix) -> Result<Bytes, OutOfMemory>
    requires { length matrix.now.tests ≡ length suite.now.tests }
    ensures { IfOk result (λ text. text ≡ spec.score_text suite.now matrix.now) }
{
    let mut out = Bytes::new(alloc);
    out.extend(b"mutant")?;
    put_names(&mut out, suite.tests.as_slice())?;
    out.push(b'\n')?;
    put_mutants(&mut out, matrix)?;
    put_score(&mut out, matrix)?;
    Ok(out)
}
