//! The lines of a script, one after the other.

use crate::repeated::append_line;
use crate::rows::{Carries, Tally};
use std::alloc::{AllocError, Global};
use std::io;

/// What was told so far.
#[derive(Drop)]
struct Told {
    /// Of two files with one name the later one counts.
    files: Vec<(String, Vec<u8>)>,
    /// What the last row answered.
    last: Vec<u8>,
    /// What the row that is being told is to answer.
    wanted: String,
    rows: u32,
    wrong: u32,
}

/// Which part of a script the next line belongs to.
#[derive(Clone, Copy)]
enum Within<'a> {
    Nothing,
    /// The last file.
    File,
    /// The answer to these words.
    Row(&'a str),
}

/// Begins a file.
fn begin_file(alloc: Global, told: &mut Told, name: &str, text: Vec<u8>) -> Result<(), AllocError> {
    let name = String::from_str(alloc, name)?;
    told.files.push((name, text))?;
    Ok(())
}

/// Takes a line outside of files and rows.
fn begin<'a>(alloc: Global, told: &mut Told, line: &'a str) -> Result<Within<'a>, AllocError> {
    if let Some(name) = line.strip_prefix("file ") {
        begin_file(alloc, told, name, Vec::new(alloc))?;
        return Ok(Within::File);
    }
    if let Some(words) = line.strip_prefix('$') {
        told.wanted = String::new(alloc);
        return Ok(Within::Row(words.strip_prefix(' ').unwrap_or(words)));
    }
    if let Some(name) = line.strip_prefix("keep ") {
        let text = told.last.clone()?;
        begin_file(alloc, told, name, text)?;
    }
    Ok(Within::Nothing)
}

/// Takes a line of a file, and says whether the file goes on.
fn file_line(alloc: Global, told: &mut Told, line: &str) -> Result<bool, AllocError> {
    if line == "." {
        return Ok(false);
    }
    if let Some((_, text)) = told.files.last_mut() {
        append_line(alloc, text, line)?;
    }
    Ok(true)
}

/// Takes a line of what a row is to answer, and says whether it is the last.
fn row_line(told: &mut Told, line: &str) -> Result<bool, AllocError> {
    told.wanted.push_str(line)?;
    told.wanted.push('\n')?;
    Ok(line.starts_with("= "))
}

/// Carries out a row, and returns what it is compared with.
fn answer_of<C: Carries>(
    alloc: Global,
    carries: &mut C,
    told: &mut Told,
    line: &str,
) -> Result<String, AllocError> {
    let mut words = Vec::new(alloc);
    if !line.is_empty() {
        for word in line.split(' ') {
            words.push(word)?;
        }
    }
    let mut shown = String::new(alloc);
    told.last = carries.carry_out(alloc, words.as_slice(), told.files.as_slice(), &mut shown)?;
    Ok(shown)
}

/// Compares a row with its answer, and prints what it answers where that differs.
fn compare<R: Print + AllocGlobal, C: Carries>(
    rt: &R,
    carries: &mut C,
    told: &mut Told,
    line: &str,
) -> io::Result<()> {
    let shown = answer_of(rt.alloc(), carries, told, line)?;
    told.rows = told.rows.saturating_add(1);
    if shown.as_str() != told.wanted.as_str() {
        told.wrong = told.wrong.saturating_add(1);
        print!(rt; "$ {line}\n{shown}")?;
    }
    Ok(())
}

/// Takes a line, and returns which part the next one belongs to.
fn take<'a, R: Print + AllocGlobal, C: Carries>(
    rt: &R,
    carries: &mut C,
    told: &mut Told,
    within: Within<'a>,
    line: &'a str,
) -> io::Result<Within<'a>> {
    match within {
        Within::Nothing => Ok(begin(rt.alloc(), told, line)?),
        Within::File => {
            if file_line(rt.alloc(), told, line)? {
                Ok(Within::File)
            } else {
                Ok(Within::Nothing)
            }
        }
        Within::Row(words) => {
            if row_line(told, line)? {
                compare(rt, carries, told, words)?;
                Ok(Within::Nothing)
            } else {
                Ok(within)
            }
        }
    }
}

/// Carries out the rows of a script in their order, prints each that answers otherwise than the
/// script says, with what it answers, and returns how many there are. A file or a row that doesn't
/// end counts as one that answers otherwise. An error comes where memory runs out or the output
/// fails.
pub fn play<R: Print + AllocGlobal, C: Carries>(
    rt: &R,
    carries: &mut C,
    script: &str,
) -> io::Result<Tally> {
    let alloc = rt.alloc();
    let mut told = Told {
        files: Vec::new(alloc),
        last: Vec::new(alloc),
        wanted: String::new(alloc),
        rows: 0,
        wrong: 0,
    };
    let mut within = Within::Nothing;
    for line in script.split('\n') {
        within = take(rt, carries, &mut told, within, line)?;
    }
    let is_cut = !matches!(within, Within::Nothing);
    Ok(Tally {
        rows: told.rows,
        wrong: told.wrong.saturating_add(u32::from(is_cut)),
    })
}
