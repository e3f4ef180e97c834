//! The matrix: a letter for each mutant and test.

ghost use Rattle.std.specs.Prelude.{◌≡◌, ◌<◌, ◌++◌, flat_map, length, OnOk};
ghost use Rattle.kill_matrix.specs.Score.{letter_of};
ghost use Rattle.work_report.specs.Report.{each_below};
ghost use Rattle.html_page.specs.Matrix as spec;

use crate::escape::put_text;
use am_base::OutOfMemory;
use am_lists::Bytes;
use kill_matrix::{Letter, Matrix};
use line_parts::put_number;
use test_suite::{Suite, Test};

/// The cell of a letter.
fn cell(letter: Letter) -> &'static [u8]
    ensures { result.now ≡ spec.cell_of letter }
{
    match letter {
        Letter::Same => b"<td>.",
        Letter::Budget => b"<td class=B>B",
        Letter::Trap => b"<td class=T>T",
        Letter::Return => b"<td class=R>R",
        Letter::Output => b"<td class=O>O",
    }
}

/// How the row of a mutant begins.
fn row_start(matrix: &Matrix, m: u32) -> &'static [u8]
    ensures { result.now ≡ spec.row_start matrix.now m }
{
    if m == 0 {
        b"<tr class=o><th scope=row>"
    } else if matrix.is_killed(m) {
        b"<tr><th scope=row>"
    } else {
        b"<tr class=s><th scope=row>"
    }
}

/// Appends the cells of a mutant.
fn put_cells(out: &mut Bytes, matrix: &Matrix, m: u32) -> Result<(), OutOfMemory>
    requires { m < matrix.now.mutants }
    ensures { OnOk result (out.new ≡ out.old ++ each_below (λ t. spec.cell_of (letter_of matrix.now m t)) (length matrix.now.tests)) }
{
    'tests: for t in 0..matrix.tests() {
        out.extend(cell(matrix.letter(m, t)))?;
    }
    Ok(())
}

/// Appends the row of a mutant.
fn put_mutant(out: &mut Bytes, matrix: &Matrix, m: u32) -> Result<(), OutOfMemory>
    requires { m < matrix.now.mutants }
    ensures { OnOk result (out.new ≡ out.old ++ spec.mutant_row matrix.now m) }
{
    out.extend(row_start(matrix, m))?;
    put_number(out, m as u64)?;
    put_cells(out, matrix, m)?;
    out.push(b'\n')?;
    Ok(())
}

/// Appends the rows of the mutants.
fn put_rows(out: &mut Bytes, matrix: &Matrix) -> Result<(), OutOfMemory>
    ensures { OnOk result (out.new ≡ out.old ++ each_below (spec.mutant_row matrix.now) matrix.now.mutants) }
{
    'mutants: for m in 0..matrix.mutants() {
        put_mutant(out, matrix, m)?;
    }
    Ok(())
}

/// Appends the head of a column.
fn put_column(out: &mut Bytes, test: &Test) -> Result<(), OutOfMemory>
    ensures { OnOk result (out.new ≡ out.old ++ spec.column_of test.now) }
{
    out.extend(b"<th scope=col>")?;
    put_text(out, test.name.as_slice())?;
    Ok(())
}

/// Appends the heads of the columns.
fn put_columns(out: &mut Bytes, tests: &[Test]) -> Result<(), OutOfMemory>
    ensures { OnOk result (out.new ≡ out.old ++ flat_map spec.column_of tests.now) }
{
    'tests: for test in tests {
        put_column(out, test)?;
    }
    Ok(())
}

/// What the letters say.
#[tactic(auto, unfolding(crate::specs::Matrix::legend))]
fn legend() -> &'static [u8]
    ensures { result.now ≡ spec.legend }
{
    b"<p><b class=R>R</b> another ending, <b class=O>O</b> another output,\n\
    <b class=T>T</b> a trap, <b class=B>B</b> cut off at the budget, <b>.</b> as expected.\n\
    Mutant 0 is the unchanged program.</p>\n"
}

/// Appends the matrix.
pub(crate) fn put_matrix(out: &mut Bytes, suite: &Suite, matrix: &Matrix) -> Result<(), OutOfMemory>
    ensures { OnOk result (out.new ≡ out.old ++ spec.matrix_part suite.now matrix.now) }
{
    out.extend(b"<h2 id=matrix>Matrix</h2>\n")?;
    out.extend(legend())?;
    out.extend(b"<div class=t><table class=m>\n<tr><th scope=col>mutant")?;
    put_columns(out, suite.tests.as_slice())?;
    out.push(b'\n')?;
    put_rows(out, matrix)?;
    out.extend(b"</table></div>\n")?;
    Ok(())
}
