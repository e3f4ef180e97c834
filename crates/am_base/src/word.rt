//! Words of 1 to 64 bits and the operations on them.

ghost use Rattle.std.specs.Prelude.{◌≡◌, ◌<◌, ◌≤◌, ◌%◌, ◌^◌, ◌-◌, ◌*◌, ◌/◌, ◌&&◌, ◌==◌};
ghost use Rattle.std.specs.Int.RustNames.{int_div, int_rem};
ghost use Rattle.am_base.specs.Word.{IsWord, bits_of, signed, word_of, compare_of, convert_of, binary_of, divided, division_trap, unless_trap, floor_div};

use crate::outcome::Trap;

// Widths and operations.

/// How many bits a word has. A word of a width is a number from 0 to 2 to the width, less 1. Its
/// signed value is the word itself below half of that range, and else the word less 2 to the width:
/// two's complement, as in the LLVM Language Reference, "Integer Type". An address is a word of
/// width 64.
#[derive(Clone, Copy, Debug, PartialEq, Eq, Hash)]
pub enum Width {
    W1,
    W8,
    W16,
    W32,
    W64,
}

/// An operation on two words of one width. LLVM Language Reference, "Binary Operations" and
/// "Bitwise Binary Operations".
#[derive(Clone, Copy, Debug, PartialEq, Eq, Hash)]
pub enum BinOp {
    /// The sum, modulo 2 to the width.
    Add,
    /// The difference, modulo 2 to the width.
    Sub,
    /// The product, modulo 2 to the width.
    Mul,
    /// The quotient of the words, rounded down.
    UDiv,
    /// The quotient of the signed values, rounded toward zero.
    SDiv,
    /// The remainder of the words.
    URem,
    /// The remainder of the signed values, with the sign of the first.
    SRem,
    /// The first word times 2 to the second, modulo 2 to the width: 0 from the width on.
    Shl,
    /// The first word by 2 to the second, rounded down: 0 from the width on.
    LShr,
    /// The signed value of the first word by 2 to the second, rounded down: 0 or -1 from the width
    /// on.
    AShr,
    And,
    Or,
    Xor,
}

/// A comparison of two words of one width: `U..` compares the words, `S..` their signed values.
/// LLVM Language Reference, "icmp Instruction".
#[derive(Clone, Copy, Debug, PartialEq, Eq, Hash)]
pub enum Pred {
    Eq,
    Ne,
    Ugt,
    Uge,
    Ult,
    Ule,
    Sgt,
    Sge,
    Slt,
    Sle,
}

/// A conversion of a word to another width. LLVM Language Reference, "Conversion Operations".
#[derive(Clone, Copy, Debug, PartialEq, Eq, Hash)]
pub enum Cast {
    /// The word modulo 2 to the new width.
    Trunc,
    /// The word itself.
    ZExt,
    /// The signed value, modulo 2 to the new width.
    SExt,
    /// An address, modulo 2 to the new width.
    PtrToInt,
    /// The word itself, as an address.
    IntToPtr,
}

// Words and their signed values.

/// How many bits a word has.
fn bits(w: Width) -> u32
    ensures value { result ≡ bits_of w }
    ensures most { result ≤ 64 }
    ensures least { 1 ≤ result }
{
    match w {
        Width::W1 => 1,
        Width::W8 => 8,
        Width::W16 => 16,
        Width::W32 => 32,
        Width::W64 => 64,
    }
}

/// `x` modulo 2 to the width.
fn wrap(w: Width, x: u64) -> u64
    ensures { result ≡ x % 2 ^ bits_of w }
{
    match w {
        Width::W1 => x & 1,
        Width::W8 => x & 0xff,
        Width::W16 => x & 0xffff,
        Width::W32 => x & 0xffff_ffff,
        Width::W64 => x,
    }
}

/// The word of the least signed value.
fn half(w: Width) -> u64
    ensures value { result ≡ 2 ^ (bits_of w - 1) }
{
    match w {
        Width::W1 => 1,
        Width::W8 => 0x80,
        Width::W16 => 0x8000,
        Width::W32 => 0x8000_0000,
        Width::W64 => 0x8000_0000_0000_0000,
    }
}

/// The signed value of a word.
fn to_signed(w: Width, a: u64) -> i64
    requires { IsWord w a }
    ensures { result ≡ signed w a }
{
    let half = half(w);
    if a < half {
        a.cast_signed()
    } else {
        a.wrapping_sub(half).wrapping_sub(half).cast_signed()
    }
}

/// The word of a signed value.
fn from_signed(w: Width, z: i64) -> u64
    ensures { result ≡ word_of w z }
{
    wrap(w, z.cast_unsigned())
}

// Comparisons and conversions.

/// Whether a comparison holds of two words of the width. It refuses nothing.
pub fn compare(p: Pred, w: Width, a: u64, b: u64) -> bool
    requires left { IsWord w a }
    requires right { IsWord w b }
    ensures { result ≡ compare_of p w a b }
{
    match p {
        Pred::Eq => a == b,
        Pred::Ne => a != b,
        Pred::Ugt => a > b,
        Pred::Uge => a >= b,
        Pred::Ult => a < b,
        Pred::Ule => a <= b,
        Pred::Sgt => to_signed(w, a) > to_signed(w, b),
        Pred::Sge => to_signed(w, a) >= to_signed(w, b),
        Pred::Slt => to_signed(w, a) < to_signed(w, b),
        Pred::Sle => to_signed(w, a) <= to_signed(w, b),
    }
}

/// Converts a word of the first width to the second. It refuses nothing. The result of `ZExt` and
/// `IntToPtr` is a word of the new width where that is no narrower than the old.
pub fn convert(c: Cast, from: Width, to: Width, a: u64) -> u64
    requires { IsWord from a }
    ensures { result ≡ convert_of c from to a }
{
    match c {
        Cast::Trunc | Cast::PtrToInt => wrap(to, a),
        Cast::ZExt | Cast::IntToPtr => a,
        Cast::SExt => from_signed(to, to_signed(from, a)),
    }
}

// Shifts. The LLVM Language Reference leaves a shift by the width or more undefined; here it is
// what the formula gives.

/// Returns the word times `2^b`, modulo `2^w`.
#[tactic(auto, using(crate::proofs::Words::shifted_out))]
fn shift_left(w: Width, a: u64, b: u64) -> u64
    ensures { result ≡ (a * 2 ^ b) % 2 ^ bits_of w }
{
    if b < 64 { wrap(w, a << b) } else { 0 }
}

/// Returns the word divided by `2^b`, rounded down.
#[tactic(auto, using(crate::proofs::Words::shifted_down))]
fn shift_right(a: u64, b: u64) -> u64
    ensures { result ≡ a / 2 ^ b }
{
    if b < 64 { a >> b } else { 0 }
}

/// Returns the signed value divided by `2^b`, rounded down.
#[tactic(auto, using(crate::proofs::Words::floor_far))]
fn floor_shift(z: i64, b: u64) -> i64
    ensures { result ≡ floor_div z (2 ^ b) }
{
    if b < 63 {
        z >> b
    } else if z < 0 {
        -1
    } else {
        0
    }
}

/// Returns the word of the signed value divided by `2^b`, rounded down.
fn shift_signed(w: Width, a: u64, b: u64) -> u64
    requires { IsWord w a }
    ensures { result ≡ word_of w (floor_div (signed w a) (2 ^ b)) }
{
    from_signed(w, floor_shift(to_signed(w, a), b))
}

// Divisions. What the LLVM Language Reference leaves undefined is a trap here; the traps are this
// project's own.

/// The quotient of two words.
fn divide(a: u64, b: u64) -> Result<u64, Trap>
    ensures { result ≡ divided b (Ok (a / b)) }
{
    if b == 0 {
        return Err(Trap::DivideByZero);
    }
    Ok(a / b)
}

/// The remainder of two words.
fn remainder(a: u64, b: u64) -> Result<u64, Trap>
    ensures { result ≡ divided b (Ok (a % b)) }
{
    if b == 0 {
        return Err(Trap::DivideByZero);
    }
    Ok(a % b)
}

/// The trap of a signed division, if it has one.
fn signed_trap(w: Width, a: u64, b: u64) -> Option<Trap>
    ensures { result ≡ division_trap w a b }
{
    if b == 0 {
        Some(Trap::DivideByZero)
    } else if a == half(w) && b == wrap(w, u64::MAX) {
        Some(Trap::DivideOverflow)
    } else {
        None
    }
}

/// The quotient of two signed values that has no trap.
fn quotient(w: Width, a: u64, b: u64) -> u64
    requires left { IsWord w a }
    requires right { IsWord w b }
    requires fits { division_trap w a b ≡ None }
    ensures { result ≡ word_of w (int_div (signed w a) (signed w b)) }
{
    from_signed(w, to_signed(w, a) / to_signed(w, b))
}

/// The remainder of two signed values that has no trap.
fn signed_remainder(w: Width, a: u64, b: u64) -> u64
    requires left { IsWord w a }
    requires right { IsWord w b }
    requires fits { division_trap w a b ≡ None }
    ensures { result ≡ word_of w (int_rem (signed w a) (signed w b)) }
{
    from_signed(w, to_signed(w, a) % to_signed(w, b))
}

/// The quotient of two signed values, or its trap.
fn divide_signed(w: Width, a: u64, b: u64) -> Result<u64, Trap>
    requires left { IsWord w a }
    requires right { IsWord w b }
    ensures { result ≡ unless_trap (division_trap w a b) (word_of w (int_div (signed w a) (signed w b))) }
{
    match signed_trap(w, a, b) {
        Some(trap) => Err(trap),
        None => Ok(quotient(w, a, b)),
    }
}

/// The remainder of two signed values, or its trap.
fn remainder_signed(w: Width, a: u64, b: u64) -> Result<u64, Trap>
    requires left { IsWord w a }
    requires right { IsWord w b }
    ensures { result ≡ unless_trap (division_trap w a b) (word_of w (int_rem (signed w a) (signed w b))) }
{
    match signed_trap(w, a, b) {
        Some(trap) => Err(trap),
        None => Ok(signed_remainder(w, a, b)),
    }
}

/// Answers the word of an operation on two words. It refuses a division or remainder by zero as
/// `DivideByZero`, and the signed division and remainder of the least value by -1 as
/// `DivideOverflow`, and nothing else.
pub fn binary(op: BinOp, w: Width, a: u64, b: u64) -> Result<u64, Trap>
    requires left { IsWord w a }
    requires right { IsWord w b }
    ensures { result ≡ binary_of op w a b }
{
    match op {
        BinOp::Add => Ok(wrap(w, a.wrapping_add(b))),
        BinOp::Sub => Ok(wrap(w, a.wrapping_sub(b))),
        BinOp::Mul => Ok(wrap(w, a.wrapping_mul(b))),
        BinOp::UDiv => divide(a, b),
        BinOp::SDiv => divide_signed(w, a, b),
        BinOp::URem => remainder(a, b),
        BinOp::SRem => remainder_signed(w, a, b),
        BinOp::Shl => Ok(shift_left(w, a, b)),
        BinOp::LShr => Ok(shift_right(a, b)),
        BinOp::AShr => Ok(shift_signed(w, a, b)),
        BinOp::And => Ok(a & b),
        BinOp::Or => Ok(a | b),
        BinOp::Xor => Ok(a ^ b),
    }
}
