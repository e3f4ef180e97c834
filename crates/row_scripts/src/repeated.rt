//! The lines of a file of a script.

use std::alloc::{AllocError, Global};

/// Which part of an escape the next byte of a repeated text is.
#[derive(Clone, Copy)]
enum Escape {
    /// None: it is itself, or a `\` that begins one.
    None,
    /// The byte behind `\`.
    Open,
    /// The first of two digits.
    Hex,
    /// The second digit, behind this one.
    Digit(u8),
}

/// The value of a hexadecimal digit.
fn digit(byte: u8) -> u8 {
    match byte {
        b'0'..=b'9' => byte - b'0',
        b'a'..=b'f' => byte - b'a' + 10,
        _ => 0,
    }
}

/// Appends a number in digits.
fn append_number(alloc: Global, file: &mut Vec<u8>, number: u64) -> Result<(), AllocError> {
    let text = number.to_string(alloc)?;
    file.extend_from_slice(text.as_bytes())
}

/// Appends what the byte behind `\` means.
fn append_escaped(
    alloc: Global,
    file: &mut Vec<u8>,
    byte: u8,
    number: u32,
) -> Result<(), AllocError> {
    match byte {
        b'n' => file.push(b'\n')?,
        b'#' => append_number(alloc, file, u64::from(number))?,
        b'+' => append_number(alloc, file, u64::from(number) + 1)?,
        _ => file.push(byte)?,
    }
    Ok(())
}

/// Appends what a byte of a repeated text means, and returns which part of an escape the next is.
fn append_byte(
    alloc: Global,
    file: &mut Vec<u8>,
    escape: Escape,
    byte: u8,
    number: u32,
) -> Result<Escape, AllocError> {
    match (escape, byte) {
        (Escape::None, b'\\') => return Ok(Escape::Open),
        (Escape::None, _) => file.push(byte)?,
        (Escape::Open, b'x') => return Ok(Escape::Hex),
        (Escape::Open, _) => append_escaped(alloc, file, byte, number)?,
        (Escape::Hex, _) => return Ok(Escape::Digit(digit(byte))),
        (Escape::Digit(high), _) => file.push(high.wrapping_mul(16) | digit(byte))?,
    }
    Ok(Escape::None)
}

/// The count and the text of a line `*N TEXT`.
fn repeats(line: &str) -> Option<(u32, &str)> {
    let (count, text) = line.strip_prefix('*')?.split_once(' ')?;
    match count.parse::<u32>() {
        Ok(count) => Some((count, text)),
        Err(_) => None,
    }
}

/// Appends a text the time of this number.
fn append_once(
    alloc: Global,
    file: &mut Vec<u8>,
    text: &str,
    number: u32,
) -> Result<(), AllocError> {
    let mut escape = Escape::None;
    for byte in text.bytes() {
        escape = append_byte(alloc, file, escape, byte, number)?;
    }
    Ok(())
}

/// Appends what a line of a script means to a file.
pub fn append_line(alloc: Global, file: &mut Vec<u8>, line: &str) -> Result<(), AllocError> {
    match repeats(line) {
        None => {
            file.extend_from_slice(line.as_bytes())?;
            file.push(b'\n')?;
        }
        Some((count, text)) => {
            let is_plain = text.bytes().all(|byte| byte != b'\\');
            for number in 0..count {
                if is_plain {
                    file.extend_from_slice(text.as_bytes())?;
                } else {
                    append_once(alloc, file, text, number)?;
                }
            }
        }
    }
    Ok(())
}
