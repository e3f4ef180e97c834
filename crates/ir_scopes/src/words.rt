//! The words of written numbers.
ghost use Rattle.std.specs.Prelude.{◌≡◌, ◌^◌, ◌<◌, ◌≤◌};
ghost use Rattle.am_base.specs.Word as spec;
ghost use Rattle.am_base.specs.Word.{bits_of};

use am_base::Width;

/// How many words of a width there are.
fn count(w: Width) -> u128
    ensures value { result ≡ 2 ^ bits_of w }
    ensures some { 0 < result }
    ensures few { result ≤ 2 ^ 64 }
{
    match w {
        Width::W1 => 2,
        Width::W8 => 256,
        Width::W16 => 65_536,
        Width::W32 => 4_294_967_296,
        Width::W64 => 18_446_744_073_709_551_616,
    }
}

/// Returns the word of a whole number: the number modulo 2 to the width.
pub fn word_of(w: Width, n: i128) -> u64
    ensures { result ≡ spec.word_of w n }
{
    let count = count(w);
    if n < 0 {
        (count - 1 - !n as u128 % count) as u64
    } else {
        (n as u128 % count) as u64
    }
}
