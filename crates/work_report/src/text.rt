//! The whole report.

ghost use Rattle.std.specs.Prelude.{◌≡◌, length, IfOk, IfSome};
ghost use Rattle.std.specs.Option.{option_copied};
ghost use Rattle.work_report.specs.Report.{FitsWords, total_of, report_text};

use crate::score::score_text;
use crate::splits::put_splits;
use crate::works::put_works;
use am_base::OutOfMemory;
use am_lists::Items;
use exec_core::{Split, Work};
use kill_matrix::Matrix;
use std::alloc::Global;
use test_suite::Suite;

/// Returns the report of a suite: a line with the names of the tests, a line for each mutant from 0
/// with its letters, the score, the work of each test and the sums, and, if they are given, a line
/// for each split of each test. Each line ends with byte 10. The sums have to fit 64 bits. O(n) in
/// the bytes of the text. The format is this project's own.
pub fn report(
    alloc: Global,
    suite: &Suite,
    matrix: &Matrix,
    works: &[Work],
    splits: Option<&[Items<Split>]>,
) -> Result<Vec<u8>, OutOfMemory>
    requires tests { length matrix.now.tests ≡ length suite.now.tests }
    requires works { length works.now ≡ length suite.now.tests }
    requires splits { IfSome splits (λ lists. length lists.now ≡ length suite.now.tests) }
    requires sums { FitsWords (total_of works.now) }
    ensures { IfOk result (λ text. text.items ≡ report_text suite.now matrix.now works.now (option_copied splits.entry)) }
{
    let mut out = score_text(alloc, suite, matrix)?;
    put_works(&mut out, suite, works)?;
    if let Some(lists) = splits {
        put_splits(&mut out, suite, lists)?;
    }
    Ok(out.into_vec())
}
