//! What is shown of what was found.

ghost use Rattle.std.specs.Prelude.{◌≡◌, if◌then◌else◌, length, IfOk, None, Some};
ghost use Rattle.std.specs.Option.{option_copied};
ghost use Rattle.work_report.specs.Report.{FitsWords, total_of};
ghost use Rattle.suite_reduce.specs.Text.{IsReduced};
ghost use Rattle.suite_analysis.specs.Shown.{IsShown};

use am_base::OutOfMemory;
use am_lists::Items;
use exec_core::{Split, Work};
use kill_matrix::Matrix;
use std::alloc::Global;
use suite_reduce::{choose, reduced, subsumers};
use test_suite::Suite;
use work_report::{report, summary};

/// What is shown of what was found.
#[derive(Clone, Copy)]
pub enum Show {
    /// The report, with the splits or without them.
    Report { with_splits: bool },
    /// The number of a workload, and the report from its score on, without splits.
    Summary { number: u64 },
    /// The smaller suite that kills the same mutants, and for each of these a mutant that subsumes it.
    Reduced,
}

/// The splits, where they are to be shown.
fn splits_shown(splits: &[Items<Split>], with_splits: bool) -> Option<&[Items<Split>]>
    ensures { option_copied result ≡ (if with_splits then Some splits.now else None) }
{
    if with_splits { Some(splits) } else { None }
}

/// The smaller suite of a matrix, and the least mutant that subsumes each killed one.
fn reduced_of(alloc: Global, suite: &Suite, matrix: &Matrix) -> Result<Vec<u8>, OutOfMemory>
    requires { length matrix.now.tests ≡ length suite.now.tests }
    ensures { IfOk result (λ text. IsReduced suite.now matrix.now text.items) }
{
    let mutants = matrix.mutants();
    let tests = matrix.tests();
    let chosen = choose(alloc, matrix, tests)?;
    let least = subsumers(alloc, matrix, mutants, tests)?;
    reduced(
        alloc,
        suite,
        matrix,
        mutants,
        chosen.as_slice(),
        least.as_slice(),
    )
}

/// Returns what is shown of a suite: of its letters, test by test and mutant by mutant, of the work
/// and of the splits of each test. Each line ends with byte 10. The sums have to fit 64 bits.
/// Refuses for want of memory alone. O(n) in the bytes of the text.
pub(crate) fn shown(
    alloc: Global,
    show: Show,
    suite: &Suite,
    matrix: &Matrix,
    works: &[Work],
    splits: &[Items<Split>],
) -> Result<Vec<u8>, OutOfMemory>
    requires tests { length matrix.now.tests ≡ length suite.now.tests }
    requires works { length works.now ≡ length suite.now.tests }
    requires splits { length splits.now ≡ length suite.now.tests }
    requires sums { FitsWords (total_of works.now) }
    ensures { IfOk result (λ text. IsShown show suite.now matrix.now works.now splits.now text.items) }
{
    match show {
        Show::Report { with_splits } => {
            report(
                alloc,
                suite,
                matrix,
                works,
                splits_shown(splits, with_splits),
            )
        }
        Show::Summary { number } => summary(alloc, number, suite, matrix, works),
        Show::Reduced => reduced_of(alloc, suite, matrix),
    }
}
