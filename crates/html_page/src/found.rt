//! The score and the work as sentences.

ghost use Rattle.std.specs.Prelude.{◌≡◌, ◌++◌, OnOk};
ghost use Rattle.work_report.specs.Report.{FitsWords, total_of as sums_of};
ghost use Rattle.html_page.specs.Found as spec;

use crate::numbers::put_thousands;
use am_base::OutOfMemory;
use am_lists::Bytes;
use exec_core::Work;
use kill_matrix::Matrix;
use work_report::total_of;

/// Appends a score.
fn put_counts(out: &mut Bytes, killed: u64, mutants: u64) -> Result<(), OutOfMemory>
    ensures { OnOk result (out.new ≡ out.old ++ spec.counts_part killed mutants) }
{
    out.extend(b"<p class=big><b>")?;
    put_thousands(out, killed)?;
    out.extend(b"</b> of <b>")?;
    put_thousands(out, mutants)?;
    out.extend(b"</b> mutants are killed.</p>\n")?;
    Ok(())
}

/// Appends how many mutants are killed.
pub(crate) fn put_score(out: &mut Bytes, matrix: &Matrix) -> Result<(), OutOfMemory>
    ensures { OnOk result (out.new ≡ out.old ++ spec.score_part matrix.now) }
{
    let (killed, mutants) = matrix.score();
    put_counts(out, killed as u64, mutants as u64)
}

/// Appends the sums of work as a sentence.
fn put_sums(out: &mut Bytes, sums: Work) -> Result<(), OutOfMemory>
    ensures { OnOk result (out.new ≡ out.old ++ spec.sums_part sums) }
{
    out.extend(b"<p>The tests took <b>")?;
    put_thousands(out, sums.steps)?;
    out.extend(b"</b> steps in place of <b>")?;
    put_thousands(out, sums.alone)?;
    out.extend(b"</b> one by one.</p>\n")?;
    Ok(())
}

/// Appends the work of all tests as a sentence.
pub(crate) fn put_work(out: &mut Bytes, works: &[Work]) -> Result<(), OutOfMemory>
    requires { FitsWords (sums_of works.now) }
    ensures { OnOk result (out.new ≡ out.old ++ spec.sums_part (sums_of works.now)) }
{
    put_sums(out, total_of(works))
}
