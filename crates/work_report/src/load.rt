//! The summary of a workload.

ghost use Rattle.std.specs.Prelude.{◌≡◌, ◌++◌, ◌∷◌, codes, decimal, IfOk, OnOk};
ghost use Rattle.work_report.specs.Report.{FitsWords, load_line, total_of};
ghost use Rattle.work_report.specs.Report as spec;

use crate::score::put_score;
use crate::works::put_works;
use am_base::OutOfMemory;
use am_lists::Bytes;
use exec_core::Work;
use kill_matrix::Matrix;
use line_parts::put_number;
use std::alloc::Global;
use test_suite::Suite;

fn put_load(out: &mut Bytes, number: u64) -> Result<(), OutOfMemory>
    ensures { OnOk result (out.new ≡ out.old ++ load_line number) }
{
    out.extend(b"load,")?;
    put_number(out, number)?;
    out.push(b'\n')?;
    Ok(())
}

/// Returns the summary of a workload: a line with its number, the score, the work of each test and
/// the sums. The sums have to fit 64 bits. Refuses for want of memory alone.
pub fn summary(
    alloc: Global,
    number: u64,
    suite: &Suite,
    matrix: &Matrix,
    works: &[Work],
) -> Result<Vec<u8>, OutOfMemory>
    requires { FitsWords (total_of works.now) }
    ensures { IfOk result (λ text. text.items ≡ spec.summary_text number suite.now matrix.now works.now) }
{
    let mut out = Bytes::new(alloc);
    put_load(&mut out, number)?;
    put_score(&mut out, matrix)?;
    put_works(&mut out, suite, works)?;
    Ok(out.into_vec())
}
