//! Four functions of the C library as ports.
ghost use Rattle.std.specs.Prelude.{◌≡◌, ℕ, List, [], ◌∷◌, IfOk};
ghost use Rattle.am_base.specs.declared.word.Width.{Width};
ghost use Rattle.am_base.specs.Word.{IsWord, first_of};
ghost use Rattle.ports.specs.Words.{AreWords};
ghost use Rattle.ports.specs.Known.{sign_of_word};

use crate::port::Port;
use am_base::{OutOfMemory, Width};
use am_lists::Items;
use code_form::PortSign;
use std::alloc::Global;
use std::marker::{Model, PhantomData};

/// A function from one word of a width to another word of it.
pub trait Function {
    ghost name: { List ℕ };

    ghost width: { Width };

    ghost word: { ℕ → ℕ };

    /// The bytes of the name, without `@`.
    fn name() -> &'static [u8]
        ensures { result.now ≡ name };

    /// The width of the argument and of the answer.
    fn width() -> Width
        ensures { result ≡ width };

    /// The answer to a word of the width.
    fn word(a: u64) -> u64
        requires { IsWord width a }
        ensures { result ≡ word a };
}

/// A port that answers by a function from one word to another. Contracts see how often it was asked.
#[derive(Drop)]
pub struct Known<F: Function> {
    sign: PortSign,
    asked: u64,
    function: PhantomData<F>,
}

impl<F: Function> Model for Known<F> {
    ghost use Rattle.std.specs.Prelude.{ℕ, ◌≡◌};
    ghost use Rattle.ports.specs.Known.{sign_of_word};

    ghost Value = { ℕ };

    ghost view = { λ p. p.asked };

    ghost invariant = { λ p. p.sign ≡ sign_of_word F.name F.width };
}

impl<F: Function> Known<F> {
    /// A port that was never asked. It is refused only for want of memory.
    pub fn new(alloc: Global) -> Result<Known<F>, OutOfMemory>
        ensures { IfOk result (λ p. p ≡ 0) }
    {
        Ok(Known {
            sign: sign_of(alloc, F::name(), F::width())?,
            asked: 0,
            function: PhantomData,
        })
    }

    /// How often it was asked.
    pub fn asked(&self) -> u64
        ensures { result ≡ self.now }
    {
        self.asked
    }
}

impl<F: Function> Port for Known<F> {
    ghost use Rattle.std.specs.Prelude.{Some};
    ghost use Rattle.ports.specs.Known.{sign_of_word};

    ghost sign = { λ p. sign_of_word F.name F.width };

    ghost answers = { λ p args. Some (F.word (first_of args)) };

    ghost asked = { λ p. p };

    fn sign(&self) -> &PortSign {
        &self.sign
    }

    fn ask(&mut self, args: &[u64]) -> Option<u64> {
        self.asked += 1;
        Some(F::word(only(args, F::width())))
    }
}

/// The one argument of a function of one word.
fn only(args: &[u64], w: Width) -> u64
    requires { AreWords (w ∷ []) args.now }
    ensures value { result ≡ first_of args.now }
    ensures word { IsWord w result }
{
    args[0]
}

/// The sign of a function from one word of a width to another word of it.
fn sign_of(alloc: Global, name: &[u8], w: Width) -> Result<PortSign, OutOfMemory>
    ensures { IfOk result (λ s. s ≡ sign_of_word name.now w) }
{
    Ok(PortSign {
        name: Items::from_slice(alloc, name)?,
        params: Items::from_slice(alloc, &[w])?,
        result: Some(w),
    })
}

/// The absolute value of a word of 32 bits, modulo 2^32 (ISO C, `abs`).
pub struct AbsOf;

impl Function for AbsOf {
    ghost use Rattle.std.specs.Prelude.{codes};
    ghost use Rattle.am_base.specs.declared.word.Width.TheVariants.{W32};
    ghost use Rattle.ports.specs.Known.{absolute};

    ghost name = { codes "abs" };

    ghost width = { W32 };

    ghost word = { absolute W32 };

    fn name() -> &'static [u8] {
        b"abs"
    }

    fn width() -> Width {
        Width::W32
    }

    fn word(a: u64) -> u64 {
        if a < 1 << 31 { a } else { (1 << 32) - a }
    }
}

/// The port `i32 @abs(i32)`.
pub type Abs = Known<AbsOf>;

/// The absolute value of a word of 64 bits, modulo 2^64 (ISO C, `labs`).
pub struct LabsOf;

impl Function for LabsOf {
    ghost use Rattle.std.specs.Prelude.{codes};
    ghost use Rattle.am_base.specs.declared.word.Width.TheVariants.{W64};
    ghost use Rattle.ports.specs.Known.{absolute};

    ghost name = { codes "labs" };

    ghost width = { W64 };

    ghost word = { absolute W64 };

    fn name() -> &'static [u8] {
        b"labs"
    }

    fn width() -> Width {
        Width::W64
    }

    fn word(a: u64) -> u64 {
        if a < 1 << 63 { a } else { u64::MAX - a + 1 }
    }
}

/// The port `i64 @labs(i64)`.
pub type Labs = Known<LabsOf>;

/// 1 for the decimal digits, the words 48 to 57, else 0 (ISO C, `isdigit`; the answer 1 is this project's own).
pub struct IsDigitOf;

impl Function for IsDigitOf {
    ghost use Rattle.std.specs.Prelude.{codes};
    ghost use Rattle.am_base.specs.declared.word.Width.TheVariants.{W32};
    ghost use Rattle.ports.specs.Known.{digit_test};

    ghost name = { codes "isdigit" };

    ghost width = { W32 };

    ghost word = { digit_test };

    fn name() -> &'static [u8] {
        b"isdigit"
    }

    fn width() -> Width {
        Width::W32
    }

    fn word(a: u64) -> u64 {
        if a >= 48 && a <= 57 { 1 } else { 0 }
    }
}

/// The port `i32 @isdigit(i32)`.
pub type IsDigit = Known<IsDigitOf>;

/// 1 for white space, the words 9 to 13 and 32, else 0 (ISO C, `isspace` in the C locale; the answer 1 is this project's own).
pub struct IsSpaceOf;

impl Function for IsSpaceOf {
    ghost use Rattle.std.specs.Prelude.{codes};
    ghost use Rattle.am_base.specs.declared.word.Width.TheVariants.{W32};
    ghost use Rattle.ports.specs.Known.{space_test};

    ghost name = { codes "isspace" };

    ghost width = { W32 };

    ghost word = { space_test };

    fn name() -> &'static [u8] {
        b"isspace"
    }

    fn width() -> Width {
        Width::W32
    }

    fn word(a: u64) -> u64 {
        if (a >= 9 && a <= 13) || a == 32 { 1 } else { 0 }
    }
}

/// The port `i32 @isspace(i32)`.
pub type IsSpace = Known<IsSpaceOf>;
