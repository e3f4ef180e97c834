//! The spelling of numbers, quoted texts and names.
ghost use Rattle.std.specs.Char.{is_ascii_digit};
ghost use Rattle.std.specs.Fmt.{digit_glyph, signed_decimal};
ghost use Rattle.std.specs.Prelude.{◌≡◌, ◌<◌, ◌++◌, decimal, true, OnOk};
ghost use Rattle.ir_tokens.specs.Bytes as bytes;
ghost use Rattle.ir_text.specs.Spelling as spec;
ghost use Rattle.std.specs.List.{list_all};

use am_base::OutOfMemory;
use am_lists::Bytes;
use ir_tokens::is_digits;
use ir_tree::Name;
use itoa::Buffer;

// Numbers.

/// Writes a number of at least 0.
pub fn put_decimal(out: &mut Bytes, n: u64) -> Result<(), OutOfMemory>
    ensures { OnOk result (out.new ≡ out.old ++ decimal n) }
{
    let mut buffer = Buffer::new();
    out.extend(buffer.format(n).as_bytes())?;
    Ok(())
}

/// Writes a number, with `-` before it if it is negative.
pub fn put_signed(out: &mut Bytes, n: i128) -> Result<(), OutOfMemory>
    ensures { OnOk result (out.new ≡ out.old ++ signed_decimal n) }
{
    let mut buffer = Buffer::new();
    out.extend(buffer.format(n).as_bytes())?;
    Ok(())
}

// Texts in quotes.

/// The upper-case hexadecimal digit of a number below 16.
fn digit(value: u8) -> u8
    requires { value < 16 }
    ensures { result ≡ digit_glyph true value }
{
    if value < 10 {
        b'0' + value
    } else {
        b'A' + (value - 10)
    }
}

fn is_shown(byte: u8) -> bool
    ensures { result ≡ spec.is_shown byte }
{
    byte >= 32 && byte <= 126 && !(byte == b'"' || byte == b'\\')
}

fn put_escaped_byte(out: &mut Bytes, byte: u8) -> Result<(), OutOfMemory>
    ensures { OnOk result (out.new ≡ out.old ++ spec.escaped_byte byte) }
{
    if is_shown(byte) {
        out.push(byte)?;
        return Ok(());
    }
    out.push(b'\\')?;
    out.push(digit(byte / 16))?;
    out.push(digit(byte % 16))?;
    Ok(())
}

fn put_escaped(out: &mut Bytes, text: &[u8]) -> Result<(), OutOfMemory>
    ensures { OnOk result (out.new ≡ out.old ++ spec.escaped text.now) }
{
    'each: for byte in text {
        put_escaped_byte(out, *byte)?;
    }
    Ok(())
}

/// Writes a text in quotes.
pub fn put_quoted(out: &mut Bytes, text: &[u8]) -> Result<(), OutOfMemory>
    ensures { OnOk result (out.new ≡ out.old ++ spec.in_quotes text.now) }
{
    out.push(b'"')?;
    put_escaped(out, text)?;
    out.push(b'"')?;
    Ok(())
}

// Names.

fn is_run_byte(b: u8) -> bool
    ensures { result ≡ bytes.is_run_byte b }
{
    b.is_ascii_alphanumeric() || matches!(b, b'-' | b'$' | b'.' | b'_')
}

fn all_run_bytes(text: &[u8]) -> bool
    ensures { result ≡ list_all bytes.is_run_byte text.now }
{
    text.iter().all(|b| is_run_byte(*b))
}

fn is_run(text: &[u8]) -> bool
    ensures { result ≡ spec.is_run text.now }
{
    !text.is_empty() && all_run_bytes(text)
}

fn begins_with_digit(text: &[u8]) -> bool
    ensures { result ≡ bytes.begins is_ascii_digit text.now }
{
    match text.first() {
        Some(b) => b.is_ascii_digit(),
        None => false,
    }
}

fn is_plain(text: &[u8]) -> bool
    ensures { result ≡ spec.is_plain text.now }
{
    is_run(text) && !begins_with_digit(text)
}

fn is_plain_label(text: &[u8]) -> bool
    ensures { result ≡ spec.is_plain_label text.now }
{
    is_run(text) && !is_digits(text)
}

/// Writes the name of a local or a global.
pub fn put_name(out: &mut Bytes, name: &Name) -> Result<(), OutOfMemory>
    ensures { OnOk result (out.new ≡ out.old ++ spec.spelled_name spec.is_plain name.now) }
{
    match name {
        Name::Number(n) => put_decimal(out, u64::from(*n)),
        Name::Text(text) => {
            if is_plain(text.as_slice()) {
                out.extend(text.as_slice())?;
                return Ok(());
            }
            put_quoted(out, text.as_slice())
        }
    }
}

/// Writes the name of a label.
pub fn put_label_name(out: &mut Bytes, name: &Name) -> Result<(), OutOfMemory>
    ensures { OnOk result (out.new ≡ out.old ++ spec.spelled_name spec.is_plain_label name.now) }
{
    match name {
        Name::Number(number) => put_decimal(out, u64::from(*number)),
        Name::Text(text) => {
            if is_plain_label(text.as_slice()) {
                out.extend(text.as_slice())?;
                return Ok(());
            }
            put_quoted(out, text.as_slice())
        }
    }
}
