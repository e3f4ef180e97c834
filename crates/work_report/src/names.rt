//! The names of the tests.

ghost use Rattle.std.specs.Prelude.{◌≡◌};
ghost use Rattle.work_report.specs.Report.{name_at};

use test_suite::Suite;

/// Returns the name of test `t`, counted from 0; no bytes where there is no such test.
pub fn name_of(suite: &Suite, t: usize) -> &[u8]
    ensures { result.now ≡ name_at suite.now t }
{
    match suite.tests.get(t) {
        Some(test) => test.name.as_slice(),
        None => &[],
    }
}
