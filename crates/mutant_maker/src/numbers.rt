//! The numbers in place of a number.
ghost use Rattle.std.specs.Prelude.{◌≡◌, ◌==◌, ◌+◌, ◌-◌, ◌%◌, ◌^◌, map, IfOk, OnOk};
ghost use Rattle.std.specs.List.{list_any};
ghost use Rattle.am_base.specs.Word.{IsWord, bits_of};
ghost use Rattle.am_base.specs.Word as words;
ghost use Rattle.mutant_maker.specs.Makers as spec;

use am_base::{OutOfMemory, Width};
use am_lists::Items;
use code_form::TyScalar;
use ir_scopes::word_of;
use ir_tree::Opd;
use std::alloc::Global;

/// Returns the greatest word of a width.
fn last(w: Width) -> u64
    ensures { result + 1 ≡ 2 ^ bits_of w }
{
    match w {
        Width::W1 => 1,
        Width::W8 => 0xff,
        Width::W16 => 0xffff,
        Width::W32 => 0xffff_ffff,
        Width::W64 => 0xffff_ffff_ffff_ffff,
    }
}

/// Returns the word of the least signed value.
fn half(w: Width) -> u64
    ensures { result ≡ 2 ^ (bits_of w - 1) }
{
    match w {
        Width::W1 => 1,
        Width::W8 => 0x80,
        Width::W16 => 0x8000,
        Width::W32 => 0x8000_0000,
        Width::W64 => 0x8000_0000_0000_0000,
    }
}

/// Returns a word plus 1.
#[tactic(auto, using(crate::proofs::Words::wrapped_up, crate::proofs::Words::one_up))]
fn plus_1(w: Width, a: u64) -> u64
    requires { IsWord w a }
    ensures { result ≡ (a + 1) % 2 ^ bits_of w }
{
    if a == last(w) { 0 } else { a + 1 }
}

/// Returns a word minus 1.
#[tactic(auto, using(crate::proofs::Words::wrapped_down, crate::proofs::Words::one_down))]
fn minus_1(w: Width, a: u64) -> u64
    requires { IsWord w a }
    ensures { result ≡ (a + (2 ^ bits_of w - 1)) % 2 ^ bits_of w }
{
    if a == 0 { last(w) } else { a - 1 }
}

/// Returns the signed value of a word.
fn signed(w: Width, a: u64) -> i128
    ensures { result ≡ words.signed w a }
{
    let value = i128::from(a);
    if a < half(w) {
        value
    } else {
        value - i128::from(last(w)) - 1
    }
}

fn has(words: &[u64], word: u64) -> bool
    ensures { result ≡ list_any (λ a. a == word) words.now }
{
    words.iter().any(|a| *a == word)
}

/// Adds a word, unless it is the old one or stands there already.
fn add_word(old: u64, words: &mut Items<u64>, word: u64) -> Result<(), OutOfMemory>
    ensures { OnOk result (words.new ≡ spec.with_word old words.old word) }
{
    if old == word || has(words.as_slice(), word) {
        return Ok(());
    }
    words.push(word)?;
    Ok(())
}

/// Returns the words in place of a word: it plus 1 and minus 1, then 0, then 1, each once.
fn new_words(alloc: Global, w: Width, a: u64) -> Result<Items<u64>, OutOfMemory>
    requires { IsWord w a }
    ensures { IfOk result (λ words. words ≡ spec.new_words w a) }
{
    let mut words = Items::new(alloc);
    add_word(a, &mut words, plus_1(w, a))?;
    add_word(a, &mut words, minus_1(w, a))?;
    add_word(a, &mut words, 0)?;
    add_word(a, &mut words, 1)?;
    Ok(words)
}

/// Returns the signed values of the words in place of a word.
fn signed_words(alloc: Global, w: Width, a: u64) -> Result<Items<i128>, OutOfMemory>
    requires { IsWord w a }
    ensures { IfOk result (λ numbers. numbers ≡ map (words.signed w) (spec.new_words w a)) }
{
    let words = new_words(alloc, w, a)?;
    let mut numbers = Items::new(alloc);
    'each: for word in words.as_slice() {
        numbers.push(signed(w, *word))?;
    }
    Ok(numbers)
}

fn is_wide(w: Width) -> bool
    ensures { result ≡ spec.is_wide w }
{
    match w {
        Width::W1 => false,
        Width::W8 | Width::W16 | Width::W32 | Width::W64 => true,
    }
}

/// Returns the numbers in place of an operand: none unless it is a number of i8 to i64.
pub(crate) fn new_numbers(
    alloc: Global,
    kind: Option<TyScalar>,
    operand: &Opd,
) -> Result<Items<i128>, OutOfMemory>
    ensures { IfOk result (λ numbers. numbers ≡ spec.new_numbers kind operand.now) }
{
    match (kind, operand) {
        (Some(TyScalar::Int(w)), Opd::Number(z)) => {
            if is_wide(w) {
                signed_words(alloc, w, word_of(w, *z))
            } else {
                Ok(Items::new(alloc))
            }
        }
        _ => Ok(Items::new(alloc)),
    }
}
