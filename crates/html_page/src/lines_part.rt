//! The instructions with the mutants at them.

ghost use Rattle.std.specs.Prelude.{◌≡◌, ◌++◌, flat_map, OnOk};
ghost use Rattle.html_page.specs.Instructions as spec;

use crate::escape::put_text;
use crate::listed::Listed;
use am_base::OutOfMemory;
use am_lists::Bytes;
use instruction_list::Line;
use kill_matrix::Matrix;
use line_parts::put_number;

/// Whether a replacement is at this place, and its mutant is killed or not, as asked for.
fn is_asked(matrix: &Matrix, place: usize, killed: bool, listed: &Listed) -> bool
    ensures { result ≡ spec.is_asked matrix.now place killed listed.now }
{
    if listed.place as usize != place {
        return false;
    }
    if killed {
        matrix.is_killed(listed.mutant)
    } else {
        !matrix.is_killed(listed.mutant)
    }
}

/// How what is said of a mutant begins.
fn start(killed: bool) -> &'static [u8]
    ensures { result.now ≡ spec.start_of killed }
{
    if killed {
        b"<p>killed: "
    } else {
        b"<p class=s>survives: "
    }
}

/// Appends a replacement.
fn put_item(out: &mut Bytes, killed: bool, listed: &Listed) -> Result<(), OutOfMemory>
    ensures { OnOk result (out.new ≡ out.old ++ spec.item_of killed listed.now) }
{
    out.extend(start(killed))?;
    put_number(out, listed.mutant as u64)?;
    out.extend(b" <code>")?;
    put_text(out, listed.text.as_slice())?;
    out.extend(b"</code>")?;
    Ok(())
}

/// Appends a replacement, where it is one of those that are asked for.
fn put_asked(
    out: &mut Bytes,
    matrix: &Matrix,
    place: usize,
    killed: bool,
    listed: &Listed,
) -> Result<(), OutOfMemory>
    ensures { OnOk result (out.new ≡ out.old ++ spec.asked_one matrix.now place killed listed.now) }
{
    if is_asked(matrix, place, killed, listed) {
        put_item(out, killed, listed)?;
    }
    Ok(())
}

/// Appends the replacements at a place whose mutants are killed, or aren't.
fn put_at(
    out: &mut Bytes,
    matrix: &Matrix,
    place: usize,
    killed: bool,
    all: &[Listed],
) -> Result<(), OutOfMemory>
    ensures { OnOk result (out.new ≡ out.old ++ flat_map (spec.asked_one matrix.now place killed) all.now) }
{
    'each: for listed in all {
        put_asked(out, matrix, place, killed, listed)?;
    }
    Ok(())
}

/// Appends the name of a function, and begins its table.
fn put_name(out: &mut Bytes, name: &[u8]) -> Result<(), OutOfMemory>
    ensures { OnOk result (out.new ≡ out.old ++ spec.name_of name.now) }
{
    out.extend(b"</table></div>\n<h3>@")?;
    put_text(out, name)?;
    out.extend(b"</h3>\n<div class=t><table>\n")?;
    Ok(())
}

/// Appends the name of a function before its first instruction.
fn put_heading(out: &mut Bytes, line: &Line) -> Result<(), OutOfMemory>
    ensures { OnOk result (out.new ≡ out.old ++ spec.heading_of line.now) }
{
    if line.number == 1 {
        put_name(out, line.function.as_slice())?;
    }
    Ok(())
}

/// Appends the row of an instruction: its number, its text and the mutants there, survivors first.
fn put_row(
    out: &mut Bytes,
    matrix: &Matrix,
    all: &[Listed],
    place: usize,
    line: &Line,
) -> Result<(), OutOfMemory>
    ensures { OnOk result (out.new ≡ out.old ++ spec.line_row matrix.now all.now place line.now) }
{
    put_heading(out, line)?;
    out.extend(b"<tr><th scope=row>")?;
    put_number(out, line.number)?;
    out.extend(b"<td><code>")?;
    put_text(out, line.text.as_slice())?;
    out.extend(b"</code><td>")?;
    put_at(out, matrix, place, false, all)?;
    put_at(out, matrix, place, true, all)?;
    out.push(b'\n')?;
    Ok(())
}

/// Appends the rows of the instructions.
fn put_rows(
    out: &mut Bytes,
    matrix: &Matrix,
    all: &[Listed],
    lines: &[Line],
) -> Result<(), OutOfMemory>
    ensures { OnOk result (out.new ≡ out.old ++ spec.rows_from matrix.now all.now 0 lines.now) }
{
    'each: for (k, line) in lines.iter().enumerate() {
        put_row(out, matrix, all, k, line)?;
    }
    Ok(())
}

/// Appends the instructions of each function with the mutants at them.
pub(crate) fn put_lines(
    out: &mut Bytes,
    matrix: &Matrix,
    all: &[Listed],
    lines: &[Line],
) -> Result<(), OutOfMemory>
    ensures { OnOk result (out.new ≡ out.old ++ spec.lines_part matrix.now all.now lines.now) }
{
    out.extend(b"<h2 id=instructions>Instructions</h2>\n<div class=t><table>")?;
    put_rows(out, matrix, all, lines)?;
    out.extend(b"</table></div>\n")?;
    Ok(())
}
