//! Numbers in the lines of a text: alone, behind a byte, and as a list separated by blanks.
#![tactic(auto)]

ghost use Rattle.std.specs.Prelude.{◌≡◌, ◌++◌, ◌∷◌, decimal, flat_map, OnOk};
ghost use Rattle.line_parts.specs.Parts.{spaced};

use am_base::OutOfMemory;
use am_lists::Bytes;
use itoa::Buffer;

/// Appends a number in decimal.
pub fn put_number(out: &mut Bytes, n: u64) -> Result<(), OutOfMemory>
    ensures { OnOk result (out.new ≡ out.old ++ decimal n) }
{
    let mut buffer = Buffer::new();
    out.extend(buffer.format(n).as_bytes())?;
    Ok(())
}

/// Appends a byte and, behind it, a number in decimal.
pub fn put_after(out: &mut Bytes, byte: u8, n: u64) -> Result<(), OutOfMemory>
    ensures { OnOk result (out.new ≡ out.old ++ byte ∷ decimal n) }
{
    out.push(byte)?;
    put_number(out, n)
}

/// Appends each number behind a blank.
#[tactic(auto, using(crate::proofs::MoreParts::blanks_more))]
fn put_blanks(out: &mut Bytes, numbers: &[u32]) -> Result<(), OutOfMemory>
    ensures { OnOk result (out.new ≡ out.old ++ flat_map (λ k. 32 ∷ decimal k) numbers.now) }
{
    'numbers: for n in numbers {
        put_after(out, b' ', u64::from(*n))?;
    }
    Ok(())
}

/// Appends numbers in decimal, with one blank between each two.
pub fn put_spaced(out: &mut Bytes, numbers: &[u32]) -> Result<(), OutOfMemory>
    ensures { OnOk result (out.new ≡ out.old ++ spaced numbers.now) }
{
    match numbers {
        [] => Ok(()),
        [first, rest @ ..] => {
            put_number(out, u64::from(*first))?;
            put_blanks(out, rest)
        }
    }
}
