//! What the functions answer.

ghost use Rattle.std.specs.Prelude.{◌≡◌, ◌∷◌, []};
ghost use Rattle.am_base.specs.Word.{IsWord};
ghost use Rattle.ports.specs.Known.{absolute};
ghost use Rattle.ports.specs.Words.{AreWords};
ghost use Rattle.clang_ports.specs.Answers as spec;
ghost use Rattle.clang_ports.specs.Signs.{params_of};
ghost use Rattle.clang_ports.specs.declared.function.PureFunction.TheVariants.{Chosen};

use crate::function::{CharCase, CharTest, Choice, PureFunction};
use am_base::{Pred, Width, compare};

/// Whether a word is from `low` to `high`.
fn within(low: u64, high: u64, a: u64) -> bool
    ensures { result ≡ spec.within low high a }
{
    low <= a && a <= high
}

/// Whether a test of a character holds.
fn holds(test: CharTest, a: u64) -> bool
    ensures { result ≡ spec.holds_of test a }
{
    match test {
        CharTest::Alpha => within(65, 90, a) || within(97, 122, a),
        CharTest::Alnum => within(48, 57, a) || (within(65, 90, a) || within(97, 122, a)),
        CharTest::Upper => within(65, 90, a),
        CharTest::Lower => within(97, 122, a),
        CharTest::HexDigit => within(48, 57, a) || (within(65, 70, a) || within(97, 102, a)),
        CharTest::Printed => within(32, 126, a),
        CharTest::Punct => {
            within(33, 47, a) || (within(58, 64, a) || (within(91, 96, a) || within(123, 126, a)))
        }
    }
}

/// A letter in the other case, and all else as it is.
fn cased(to: CharCase, a: u64) -> u64
    ensures { result ≡ spec.cased to a }
{
    match to {
        CharCase::Upper => { if within(97, 122, a) { a - 32 } else { a } }
        CharCase::Lower => { if within(65, 90, a) { a + 32 } else { a } }
    }
}

/// The comparison by which the first of two words is chosen.
fn order(choice: Choice) -> Pred
    ensures { result ≡ spec.order_of choice }
{
    match choice {
        Choice::SignedMost => Pred::Sgt,
        Choice::SignedLeast => Pred::Slt,
        Choice::UnsignedMost => Pred::Ugt,
        Choice::UnsignedLeast => Pred::Ult,
    }
}

/// The absolute value of a word, modulo 2 to its width.
fn absolute(w: Width, a: u64) -> u64
    requires { IsWord w a }
    ensures { result ≡ absolute w a }
{
    match w {
        Width::W1 => a,
        Width::W8 => { if a < 1 << 7 { a } else { (1 << 8) - a } }
        Width::W16 => { if a < 1 << 15 { a } else { (1 << 16) - a } }
        Width::W32 => { if a < 1 << 31 { a } else { (1 << 32) - a } }
        Width::W64 => { if a < 1 << 63 { a } else { u64::MAX - a + 1 } }
    }
}

/// The first of two words where the comparison holds, else the second.
fn chosen(choice: Choice, w: Width, args: &[u64]) -> u64
    requires { AreWords (w ∷ w ∷ []) args.now }
    ensures { result ≡ spec.answer_of (Chosen choice w) args.now }
{
    let (a, b) = (args[0], args[1]);
    if compare(order(choice), w, a, b) {
        a
    } else {
        b
    }
}

/// Returns the answer of a function to a word for each of its parameters, each of its width.
pub fn answer(function: PureFunction, args: &[u64]) -> u64
    requires { AreWords (params_of function) args.now }
    ensures { result ≡ spec.answer_of function args.now }
{
    match function {
        PureFunction::Test(test) => { if holds(test, args[0]) { 1 } else { 0 } }
        PureFunction::ToCase(to) => cased(to, args[0]),
        PureFunction::Absolute(w) => absolute(w, args[0]),
        PureFunction::Chosen(choice, w) => chosen(choice, w, args),
    }
}
