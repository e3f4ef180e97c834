//! The text of one mutant's run by itself.

ghost use Rattle.std.specs.Prelude.{◌≡◌, ◌-◌, ◌^◌, ◌++◌, IfOk, OnOk};
ghost use Rattle.am_base.specs.Word.{bits_of};
ghost use Rattle.hex.specs.Hex.{encode_lower};
ghost use Rattle.command_texts.specs.Alone as spec;

use am_base::{Ending, OutOfMemory, Outcome, Width};
use am_lists::Bytes;
use code_form::TyScalar;
use line_parts::{put_after, put_number};
use std::alloc::Global;

/// Half of the number of words of a width.
fn half_of(w: Width) -> u64
    ensures { result ≡ 2 ^ (bits_of w - 1) }
{
    match w {
        Width::W1 => 1,
        Width::W8 => 0x80,
        Width::W16 => 0x8000,
        Width::W32 => 0x8000_0000,
        Width::W64 => 0x8000_0000_0000_0000,
    }
}

/// Appends the signed value of a word.
fn put_signed(out: &mut Bytes, w: Width, a: u64) -> Result<(), OutOfMemory>
    ensures { OnOk result (out.new ≡ out.old ++ spec.signed_text w a) }
{
    let half = half_of(w);
    if a < half {
        put_number(out, a)
    } else {
        put_after(out, b'-', half.saturating_sub(a - half))
    }
}

/// Appends the value of a word of a type.
fn put_value(out: &mut Bytes, ty: Option<TyScalar>, a: u64) -> Result<(), OutOfMemory>
    ensures { OnOk result (out.new ≡ out.old ++ spec.value_text ty a) }
{
    match ty {
        Some(TyScalar::Int(Width::W1)) | Some(TyScalar::Ptr) | None => put_number(out, a),
        Some(TyScalar::Int(w)) => put_signed(out, w, a),
    }
}

/// Appends an ending of a run of a function with this result.
fn put_ending(out: &mut Bytes, ty: Option<TyScalar>, ending: Ending) -> Result<(), OutOfMemory>
    ensures { OnOk result (out.new ≡ out.old ++ spec.ending_text ty ending) }
{
    match ending {
        Ending::Return(None) => {
            out.extend(b"return")?;
            Ok(())
        }
        Ending::Return(Some(a)) => {
            out.extend(b"return ")?;
            put_value(out, ty, a)
        }
        Ending::Exit(a) => {
            out.extend(b"exit ")?;
            put_signed(out, Width::W32, a)
        }
        Ending::Trap(trap) => {
            out.extend(b"trap ")?;
            put_number(out, u64::from(trap.number()))
        }
        Ending::Budget => {
            out.extend(b"budget")?;
            Ok(())
        }
    }
}

/// Appends two lower-case digits for each byte.
fn put_hex(alloc: Global, out: &mut Bytes, bytes: &[u8]) -> Result<(), OutOfMemory>
    ensures { OnOk result (out.new ≡ out.old ++ encode_lower bytes.now) }
{
    let digits = hex::encode(alloc, bytes)?;
    out.extend(digits.as_bytes())?;
    Ok(())
}

/// Returns the two lines `alone,M,NAME,ENDING,LENGTH` and `output,HEX` of the run of a mutant on
/// the test with this name: its outcome, and how many changes it made. `ty` is the type of the
/// function's result. ENDING is `return`, `return V`, `exit C`, `trap K` or `budget`: V is signed
/// for i8 to i64, and unsigned for i1 and ptr; C is signed. HEX has two lower-case digits for each
/// byte of the output.
pub fn alone_text(
    alloc: Global,
    mutant: u64,
    name: &[u8],
    ty: Option<TyScalar>,
    outcome: &Outcome,
    length: u64,
) -> Result<Bytes, OutOfMemory>
    ensures { IfOk result (λ text. text ≡ spec.alone_text mutant name.now ty outcome.now length) }
{
    let mut text = Bytes::new(alloc);
    text.extend(b"alone,")?;
    put_number(&mut text, mutant)?;
    text.push(b',')?;
    text.extend(name)?;
    text.push(b',')?;
    put_ending(&mut text, ty, outcome.ending)?;
    put_after(&mut text, b',', length)?;
    text.extend(b"\noutput,")?;
    put_hex(alloc, &mut text, outcome.output.as_slice())?;
    text.push(b'\n')?;
    Ok(text)
}
