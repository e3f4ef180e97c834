//! Numbers in a page.

ghost use Rattle.std.specs.Prelude.{◌≡◌, ◌++◌, OnOk};
ghost use Rattle.html_page.specs.Numbers as spec;

use am_base::OutOfMemory;
use am_lists::Bytes;
use itoa::Buffer;

/// Appends a digit behind which so many others stand.
fn put_digit(out: &mut Bytes, digit: u8, behind: usize) -> Result<(), OutOfMemory>
    ensures { OnOk result (out.new ≡ out.old ++ spec.digit_text digit behind) }
{
    out.push(digit)?;
    if behind > 0 && behind % 3 == 0 {
        out.push(b',')?;
    }
    Ok(())
}

/// Appends digits with a comma before each three of them from the end.
fn put_grouped(out: &mut Bytes, digits: &[u8]) -> Result<(), OutOfMemory>
    ensures { OnOk result (out.new ≡ out.old ++ spec.grouped digits.now) }
{
    'each: for (k, digit) in digits.iter().enumerate() {
        put_digit(out, *digit, digits.len() - 1 - k)?;
    }
    Ok(())
}

/// Appends a number in decimal with a comma between each three digits.
pub(crate) fn put_thousands(out: &mut Bytes, n: u64) -> Result<(), OutOfMemory>
    ensures { OnOk result (out.new ≡ out.old ++ spec.thousands n) }
{
    let mut buffer = Buffer::new();
    put_grouped(out, buffer.format(n).as_bytes())
}
