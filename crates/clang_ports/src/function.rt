//! The functions, by what they do.

use am_base::Width;

/// A test of ISO C (`ctype.h`), in the C locale, on a word of 32 bits.
#[derive(Clone, Copy, PartialEq, Eq)]
pub enum CharTest {
    /// `isalpha`
    Alpha,
    /// `isalnum`
    Alnum,
    /// `isupper`
    Upper,
    /// `islower`
    Lower,
    /// `isxdigit`
    HexDigit,
    /// `isprint`
    Printed,
    /// `ispunct`
    Punct,
}

/// A change of the case of a letter (ISO C, `ctype.h`), in the C locale.
#[derive(Clone, Copy, PartialEq, Eq)]
pub enum CharCase {
    /// `toupper`
    Upper,
    /// `tolower`
    Lower,
}

/// Which of two words is chosen (LLVM Language Reference, "Standard C/C++ Library Intrinsics").
#[derive(Clone, Copy, PartialEq, Eq)]
pub enum Choice {
    /// `llvm.smax`
    SignedMost,
    /// `llvm.smin`
    SignedLeast,
    /// `llvm.umax`
    UnsignedMost,
    /// `llvm.umin`
    UnsignedLeast,
}

/// A pure function of words.
#[derive(Clone, Copy, PartialEq, Eq)]
pub enum PureFunction {
    /// A test of a character: 1 where it holds, else 0.
    Test(CharTest),
    /// A change of the case of a character.
    ToCase(CharCase),
    /// The absolute value of a word of this width (`llvm.abs`); the least value is its own.
    Absolute(Width),
    /// The greater or the smaller of two words of this width.
    Chosen(Choice, Width),
}
