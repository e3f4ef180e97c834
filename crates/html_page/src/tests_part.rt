//! The table of the tests.

ghost use Rattle.std.specs.Prelude.{◌≡◌, ◌<◌, ◌++◌, if◌then◌else◌, length, OnOk};
ghost use Rattle.work_report.specs.Report.{each_below};
ghost use Rattle.html_page.specs.Tests as spec;

use crate::escape::put_text;
use crate::numbers::put_thousands;
use am_base::OutOfMemory;
use am_lists::Bytes;
use exec_core::Work;
use kill_matrix::Matrix;
use line_parts::put_after;
use test_suite::Suite;
use work_report::{name_of, work_of};

/// Whether a test kills a mutant; mutant 0 is the unchanged program.
fn is_kill(matrix: &Matrix, t: u32, m: u32) -> bool
    requires test { t < length matrix.now.tests }
    requires mutant { m < matrix.now.mutants }
    ensures { result ≡ spec.is_kill matrix.now t m }
{
    m > 0 && matrix.letter(m, t).kills()
}

/// 1 for a mutant that is killed.
fn one(is_killed: bool) -> u32
    ensures { result ≡ (if is_killed then 1 else 0) }
{
    if is_killed { 1 } else { 0 }
}

/// How many mutants a test kills.
fn kill_count(matrix: &Matrix, t: u32) -> u32
    requires { t < length matrix.now.tests }
    ensures { result ≡ spec.kill_count matrix.now t }
{
    let mut count = 0;
    'mutants: for m in 0..matrix.mutants() {
        count += one(is_kill(matrix, t, m));
    }
    count
}

/// Appends a mutant, where the test kills it.
fn put_killed(out: &mut Bytes, matrix: &Matrix, t: u32, m: u32) -> Result<(), OutOfMemory>
    requires test { t < length matrix.now.tests }
    requires mutant { m < matrix.now.mutants }
    ensures { OnOk result (out.new ≡ out.old ++ spec.killed_one matrix.now t m) }
{
    if is_kill(matrix, t, m) {
        put_after(out, b' ', m as u64)?;
    }
    Ok(())
}

/// Appends the mutants that a test kills.
fn put_kills(out: &mut Bytes, matrix: &Matrix, t: u32) -> Result<(), OutOfMemory>
    requires { t < length matrix.now.tests }
    ensures { OnOk result (out.new ≡ out.old ++ each_below (spec.killed_one matrix.now t) matrix.now.mutants) }
{
    'mutants: for m in 0..matrix.mutants() {
        put_killed(out, matrix, t, m)?;
    }
    Ok(())
}

/// Appends what a test took.
fn put_took(out: &mut Bytes, work: Work) -> Result<(), OutOfMemory>
    ensures { OnOk result (out.new ≡ out.old ++ spec.took work) }
{
    out.extend(b"<td>")?;
    put_thousands(out, work.steps)?;
    out.extend(b"<td>")?;
    put_thousands(out, work.alone)?;
    out.extend(b"<td class=w>")?;
    Ok(())
}

/// Appends a name and how many mutants the test with it kills.
fn put_front(out: &mut Bytes, name: &[u8], kills: u64) -> Result<(), OutOfMemory>
    ensures { OnOk result (out.new ≡ out.old ++ spec.front_of name.now kills) }
{
    out.extend(b"<tr><th scope=row>")?;
    put_text(out, name)?;
    out.extend(b"<td>")?;
    put_thousands(out, kills)?;
    Ok(())
}

/// Appends the name of a test and how many mutants it kills.
#[tactic(auto, unfolding(crate::specs::Tests::row_front))]
fn put_start(out: &mut Bytes, suite: &Suite, matrix: &Matrix, t: u32) -> Result<(), OutOfMemory>
    requires { t < length matrix.now.tests }
    ensures { OnOk result (out.new ≡ out.old ++ spec.row_front suite.now matrix.now t) }
{
    let kills = kill_count(matrix, t);
    put_front(out, name_of(suite, t as usize), kills as u64)
}

/// Appends what the test with a number took.
#[tactic(auto, unfolding(crate::specs::Tests::row_work))]
fn put_work(out: &mut Bytes, works: &[Work], t: u32) -> Result<(), OutOfMemory>
    ensures { OnOk result (out.new ≡ out.old ++ spec.row_work works.now t) }
{
    put_took(out, work_of(works, t as usize))
}

/// Appends the row of a test.
fn put_test(
    out: &mut Bytes,
    suite: &Suite,
    matrix: &Matrix,
    works: &[Work],
    t: u32,
) -> Result<(), OutOfMemory>
    requires { t < length matrix.now.tests }
    ensures { OnOk result (out.new ≡ out.old ++ spec.test_row suite.now matrix.now works.now t) }
{
    put_start(out, suite, matrix, t)?;
    put_work(out, works, t)?;
    put_kills(out, matrix, t)?;
    out.push(b'\n')?;
    Ok(())
}

/// Appends the rows of the tests.
fn put_rows(
    out: &mut Bytes,
    suite: &Suite,
    matrix: &Matrix,
    works: &[Work],
) -> Result<(), OutOfMemory>
    ensures { OnOk result (out.new ≡ out.old ++ each_below (spec.test_row suite.now matrix.now works.now) (length matrix.now.tests)) }
{
    'tests: for t in 0..matrix.tests() {
        put_test(out, suite, matrix, works, t)?;
    }
    Ok(())
}

/// Appends the table of the tests: what each kills, and what it took.
pub(crate) fn put_tests(
    out: &mut Bytes,
    suite: &Suite,
    matrix: &Matrix,
    works: &[Work],
) -> Result<(), OutOfMemory>
    ensures { OnOk result (out.new ≡ out.old ++ spec.tests_part suite.now matrix.now works.now) }
{
    out.extend(b"<h2 id=tests>Tests</h2>\n<div class=t><table class=n>\n")?;
    out.extend(
        b"<tr><th scope=col>test<th scope=col>kills<th scope=col>steps<th scope=col>one by one",
    )?;
    out.extend(b"<th scope=col>mutants that it kills\n")?;
    put_rows(out, suite, matrix, works)?;
    out.extend(b"</table></div>\n")?;
    Ok(())
}
