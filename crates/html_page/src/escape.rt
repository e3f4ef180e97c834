//! Bytes of the input in a page.

ghost use Rattle.std.specs.Prelude.{◌≡◌, ◌<◌, ◌++◌, ◌∷◌, [], flat_map, OnOk};
ghost use Rattle.html_page.specs.Escaped as spec;

use am_base::OutOfMemory;
use am_lists::Bytes;

/// The byte of a hexadecimal digit.
fn hex_digit(n: u8) -> u8
    requires { n < 16 }
    ensures { result ≡ spec.hex_digit n }
{
    if n < 10 { 48 + n } else { 55 + n }
}

/// Appends `\` and the two hexadecimal digits of a byte.
fn put_hex(out: &mut Bytes, b: u8) -> Result<(), OutOfMemory>
    ensures { OnOk result (out.new ≡ out.old ++ spec.hex_of b) }
{
    out.push(b'\\')?;
    out.push(hex_digit(b / 16))?;
    out.push(hex_digit(b % 16))?;
    Ok(())
}

/// Appends a byte: as itself, as the name of its character, or in hexadecimal.
fn put_byte(out: &mut Bytes, b: u8) -> Result<(), OutOfMemory>
    ensures { OnOk result (out.new ≡ out.old ++ spec.escaped_byte b) }
{
    if b == b'<' {
        out.extend(b"&lt;")?;
    } else if b == b'>' {
        out.extend(b"&gt;")?;
    } else if b == b'&' {
        out.extend(b"&amp;")?;
    } else if b == b'"' {
        out.extend(b"&quot;")?;
    } else if b == b'\'' {
        out.extend(b"&#39;")?;
    } else if b < 32 || 126 < b {
        put_hex(out, b)?;
    } else {
        out.push(b)?;
    }
    Ok(())
}

/// Appends a text of the input, whatever its bytes are, as character data that shows it: `<`, `>`,
/// `&` and both quotes by the names of their characters (HTML Living Standard, "Character
/// references"), a byte that isn't a printed one of ASCII as `\` and two hexadecimal digits. The
/// law `escaped_text_has_no_markup` says that none of it is markup.
pub fn put_text(out: &mut Bytes, text: &[u8]) -> Result<(), OutOfMemory>
    ensures { OnOk result (out.new ≡ out.old ++ spec.escaped text.now) }
{
    'bytes: for b in text {
        put_byte(out, *b)?;
    }
    Ok(())
}
