//! The lines of the work.

ghost use Rattle.std.specs.Prelude.{◌≡◌, ◌<◌, ◌^◌, ◌++◌, length, map, sum, slice_get, unwrap_or, OnOk};
ghost use Rattle.work_report.specs.Report.{each_below, work_fields, no_work, work_line, FitsWords, work_text};
ghost use Rattle.work_report.specs.Report as spec;

use crate::names::name_of;
use am_base::OutOfMemory;
use am_lists::Bytes;
use exec_core::Work;
use line_parts::put_after;
use test_suite::Suite;

/// Appends the four numbers of work and the end of the line.
fn put_fields(out: &mut Bytes, work: Work) -> Result<(), OutOfMemory>
    ensures { OnOk result (out.new ≡ out.old ++ work_fields work) }
{
    put_after(out, b',', work.steps)?;
    put_after(out, b',', work.alone)?;
    put_after(out, b',', work.tries)?;
    put_after(out, b',', work.executions)?;
    out.push(b'\n')?;
    Ok(())
}

/// Returns the work of test `t`, counted from 0; zeros where there is no such test.
pub fn work_of(works: &[Work], t: usize) -> Work
    ensures { result ≡ unwrap_or (slice_get works.now t) no_work }
{
    match works.get(t) {
        Some(work) => *work,
        None => Work {
            steps: 0,
            alone: 0,
            tries: 0,
            executions: 0,
        },
    }
}

fn put_work(out: &mut Bytes, suite: &Suite, works: &[Work], t: usize) -> Result<(), OutOfMemory>
    ensures { OnOk result (out.new ≡ out.old ++ work_line suite.now works.now t) }
{
    out.extend(b"work,")?;
    out.extend(name_of(suite, t))?;
    put_fields(out, work_of(works, t))
}

/// Appends the work lines of all tests.
fn put_each(out: &mut Bytes, suite: &Suite, works: &[Work]) -> Result<(), OutOfMemory>
    ensures { OnOk result (out.new ≡ out.old ++ each_below (work_line suite.now works.now) (length works.now)) }
{
    'tests: for t in 0..works.len() {
        put_work(out, suite, works, t)?;
    }
    Ok(())
}

fn steps_of(works: &[Work]) -> u64
    requires { sum (map (λ w. w.steps) works.now) < 2 ^ 64 }
    ensures { result ≡ sum (map (λ w. w.steps) works.now) }
{
    works.iter().map(|w| w.steps).sum()
}

fn alone_of(works: &[Work]) -> u64
    requires { sum (map (λ w. w.alone) works.now) < 2 ^ 64 }
    ensures { result ≡ sum (map (λ w. w.alone) works.now) }
{
    works.iter().map(|w| w.alone).sum()
}

fn tries_of(works: &[Work]) -> u64
    requires { sum (map (λ w. w.tries) works.now) < 2 ^ 64 }
    ensures { result ≡ sum (map (λ w. w.tries) works.now) }
{
    works.iter().map(|w| w.tries).sum()
}

fn executions_of(works: &[Work]) -> u64
    requires { sum (map (λ w. w.executions) works.now) < 2 ^ 64 }
    ensures { result ≡ sum (map (λ w. w.executions) works.now) }
{
    works.iter().map(|w| w.executions).sum()
}

/// Returns the sums of the work of all tests, which have to fit 64 bits. O(n) in the tests.
pub fn total_of(works: &[Work]) -> Work
    requires { FitsWords (spec.total_of works.now) }
    ensures { result ≡ spec.total_of works.now }
{
    Work {
        steps: steps_of(works),
        alone: alone_of(works),
        tries: tries_of(works),
        executions: executions_of(works),
    }
}

/// Appends the work lines of the tests and the total line.
pub(crate) fn put_works(out: &mut Bytes, suite: &Suite, works: &[Work]) -> Result<(), OutOfMemory>
    requires { FitsWords (spec.total_of works.now) }
    ensures { OnOk result (out.new ≡ out.old ++ work_text suite.now works.now) }
{
    put_each(out, suite, works)?;
    out.extend(b"total")?;
    put_fields(out, total_of(works))
}
