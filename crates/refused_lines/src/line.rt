//! One line of a refusal.

ghost use Rattle.std.specs.Prelude.{◌≡◌, ◌≤◌, ◌==◌, IfOk, count_by, length, take};
ghost use Rattle.refused_lines.specs.Refusals as spec;

use am_base::OutOfMemory;
use am_lists::Bytes;
use line_parts::put_number;
use std::alloc::Global;

/// Returns the line `refused,FILE,NUMBER,CODE`.
pub(crate) fn refused_line(
    alloc: Global,
    file: &str,
    number: u64,
    code: &str,
) -> Result<Bytes, OutOfMemory>
    ensures { IfOk result (λ line. line ≡ spec.refused_line file.now number code.now) }
{
    let mut line = Bytes::new(alloc);
    line.extend(b"refused,")?;
    line.extend(file.as_bytes())?;
    line.push(b',')?;
    put_number(&mut line, number)?;
    line.push(b',')?;
    line.extend(code.as_bytes())?;
    line.push(b'\n')?;
    Ok(line)
}

/// How many bytes 10 a text has.
fn line_feeds(text: &[u8]) -> usize
    ensures value { result ≡ count_by (λ b. b == 10) text.now }
    ensures few { result ≤ length text.now }
{
    text.iter().filter(|b| **b == 10).count()
}

/// The bytes before an offset.
fn before(text: &[u8], at: u32) -> &[u8]
    ensures { result.now ≡ take at text.now }
{
    match text.get(..at as usize) {
        Some(front) => front,
        None => text,
    }
}

/// Returns the number, from 1, of the line in which an offset lies.
pub(crate) fn line_of(text: &[u8], at: u32) -> u64
    ensures { result ≡ spec.line_of text.now at }
{
    1 + line_feeds(before(text, at)) as u64
}
