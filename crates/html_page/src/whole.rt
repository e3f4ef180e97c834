//! The whole page.

ghost use Rattle.std.specs.Prelude.{◌≡◌, length, IfOk};
ghost use Rattle.work_report.specs.Report.{FitsWords, total_of};
ghost use Rattle.html_page.specs.Page as spec;

use crate::found::{put_score, put_work};
use crate::head::put_head;
use crate::lines_part::put_lines;
use crate::listed::Listed;
use crate::matrix_part::put_matrix;
use crate::survivors_part::put_survivors;
use crate::tests_part::put_tests;
use am_base::OutOfMemory;
use am_lists::Bytes;
use exec_core::Work;
use instruction_list::Line;
use kill_matrix::Matrix;
use std::alloc::Global;
use test_suite::Suite;

/// Returns a page in HTML (HTML Living Standard) that needs nothing beside itself, neither script
/// nor file: the score and the work as sentences, the survivors with what they replace, the tests
/// with what each kills, the matrix, and the instructions of each function with the mutants at
/// them, survivors first. Letters, score and work are those of the report over the same values.
///
/// What comes from the input, which are the names of tests and functions, the instructions and the
/// replacements, stands escaped (`put_text`); all else is constant, a letter or a number. `lines`
/// are those of the module, `all` the replacements of the list. The sums of work have to fit 64
/// bits. It is refused only for want of memory. O(n) in the bytes of the page, and in the number of
/// instructions times that of the replacements. The form of the page is this project's own.
pub fn page(
    alloc: Global,
    suite: &Suite,
    matrix: &Matrix,
    works: &[Work],
    lines: &[Line],
    all: &[Listed],
) -> Result<Bytes, OutOfMemory>
    requires sums { FitsWords (total_of works.now) }
    ensures { IfOk result (λ page. page ≡ spec.page_text suite.now matrix.now works.now lines.now all.now) }
{
    let mut out = Bytes::new(alloc);
    put_head(&mut out)?;
    put_score(&mut out, matrix)?;
    put_work(&mut out, works)?;
    put_survivors(&mut out, matrix, lines, all)?;
    put_tests(&mut out, suite, matrix, works)?;
    put_matrix(&mut out, suite, matrix)?;
    put_lines(&mut out, matrix, all, lines)?;
    out.extend(b"</body>\n</html>\n")?;
    Ok(out)
}
