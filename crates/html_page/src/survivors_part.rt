//! The survivors.

ghost use Rattle.std.specs.Prelude.{◌≡◌, ◌++◌, flat_map, slice_get, OnOk};
ghost use Rattle.std.specs.Option.{option_copied};
ghost use Rattle.html_page.specs.Survivors as spec;

use crate::escape::put_text;
use crate::listed::Listed;
use am_base::OutOfMemory;
use am_lists::Bytes;
use instruction_list::Line;
use kill_matrix::Matrix;
use line_parts::{put_after, put_number};

/// Appends where an instruction is, and its text.
fn put_line(out: &mut Bytes, line: &Line) -> Result<(), OutOfMemory>
    ensures { OnOk result (out.new ≡ out.old ++ spec.line_text line.now) }
{
    out.extend(b"<td>")?;
    put_text(out, line.function.as_slice())?;
    put_after(out, b';', line.number)?;
    out.extend(b"<td><code>")?;
    put_text(out, line.text.as_slice())?;
    out.extend(b"</code>")?;
    Ok(())
}

/// Appends where an instruction is, and its text, where there is one.
fn put_place(out: &mut Bytes, line: Option<&Line>) -> Result<(), OutOfMemory>
    ensures { OnOk result (out.new ≡ out.old ++ spec.place_text (option_copied line.entry)) }
{
    match line {
        None => out.extend(b"<td><td>")?,
        Some(line) => put_line(out, line)?,
    }
    Ok(())
}

/// Appends where the instruction at a place is, and its text.
fn put_original(out: &mut Bytes, lines: &[Line], place: usize) -> Result<(), OutOfMemory>
    ensures { OnOk result (out.new ≡ out.old ++ spec.place_text (slice_get lines.now place)) }
{
    put_place(out, lines.get(place))
}

/// Appends the row of a replacement.
fn put_row(out: &mut Bytes, lines: &[Line], listed: &Listed) -> Result<(), OutOfMemory>
    ensures { OnOk result (out.new ≡ out.old ++ spec.survivor_row lines.now listed.now) }
{
    out.extend(b"<tr><th scope=row>")?;
    put_number(out, listed.mutant as u64)?;
    put_original(out, lines, listed.place as usize)?;
    out.extend(b"<td><code>")?;
    put_text(out, listed.text.as_slice())?;
    out.extend(b"</code>\n")?;
    Ok(())
}

/// Appends the row of a replacement, where its mutant isn't killed.
fn put_survivor(
    out: &mut Bytes,
    matrix: &Matrix,
    lines: &[Line],
    listed: &Listed,
) -> Result<(), OutOfMemory>
    ensures { OnOk result (out.new ≡ out.old ++ spec.survivor_of matrix.now lines.now listed.now) }
{
    if matrix.is_killed(listed.mutant) {
        return Ok(());
    }
    put_row(out, lines, listed)
}

/// Appends the rows of the survivors' replacements.
fn put_rows(
    out: &mut Bytes,
    matrix: &Matrix,
    lines: &[Line],
    all: &[Listed],
) -> Result<(), OutOfMemory>
    ensures { OnOk result (out.new ≡ out.old ++ flat_map (spec.survivor_of matrix.now lines.now) all.now) }
{
    'each: for listed in all {
        put_survivor(out, matrix, lines, listed)?;
    }
    Ok(())
}

/// Appends the table of the survivors: each with what it replaces.
pub(crate) fn put_survivors(
    out: &mut Bytes,
    matrix: &Matrix,
    lines: &[Line],
    all: &[Listed],
) -> Result<(), OutOfMemory>
    ensures { OnOk result (out.new ≡ out.old ++ spec.survivors_part matrix.now lines.now all.now) }
{
    out.extend(b"<h2 id=survivors>Survivors</h2>\n<div class=t><table class=n>\n")?;
    out.extend(b"<tr><th scope=col>mutant<th scope=col>place<th scope=col>original")?;
    out.extend(b"<th scope=col>replacement\n")?;
    put_rows(out, matrix, lines, all)?;
    out.extend(b"</table></div>\n")?;
    Ok(())
}
