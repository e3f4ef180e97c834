//! The parts of a field, and the outcomes that a list of tests expects.

ghost use Rattle.std.specs.Prelude.{◌≡◌};
ghost use Rattle.std.specs.Option.{option_copied};
ghost use Rattle.code_form.specs.Sound.{width_of};
ghost use Rattle.test_suite.specs.Expected as spec;

use am_base::{Ending, Trap, Width};
use code_form::TyScalar;
use list_records::{number_within, word_within};

/// What stands behind a word with which the text begins.
#[tactic(auto, unfolding(crate::specs::Expected::after))]
fn after<'a>(word: &[u8], text: &'a [u8]) -> Option<&'a [u8]>
    ensures { option_copied result ≡ spec.after word.now text.now }
{
    if text.starts_with(word) {
        Some(&text[word.len()..])
    } else {
        None
    }
}

/// Where the first of a separator stands.
fn place_of(separator: u8, text: &[u8]) -> Option<usize>
    ensures { result ≡ spec.place_of separator text.now }
{
    text.iter().position(|b| *b == separator)
}

/// What stands before the first of a separator, and all where there is none.
pub(crate) fn front_part(separator: u8, text: &[u8]) -> &[u8]
    ensures { result.now ≡ spec.front_part (spec.place_of separator text.now) text.now }
{
    match place_of(separator, text) {
        Some(at) => text.split_at(at).0,
        None => text,
    }
}

/// What stands behind the first of a separator, where there is one.
pub(crate) fn back_part(separator: u8, text: &[u8]) -> Option<&[u8]>
    ensures { option_copied result ≡ spec.back_part (spec.place_of separator text.now) text.now }
{
    match place_of(separator, text) {
        Some(at) => Some(text.split_at(at + 1).1),
        None => None,
    }
}

/// The trap with a number.
fn trap_numbered(number: u64) -> Option<Trap>
    ensures { result ≡ spec.trap_numbered number }
{
    match number {
        1 => Some(Trap::DivideByZero),
        2 => Some(Trap::DivideOverflow),
        3 => Some(Trap::AddressRange),
        4 => Some(Trap::ConstantWrite),
        5 => Some(Trap::UnsetRegister),
        6 => Some(Trap::Unreachable),
        7 => Some(Trap::Abort),
        8 => Some(Trap::DepthFull),
        9 => Some(Trap::RegistersFull),
        10 => Some(Trap::MemoryFull),
        11 => Some(Trap::OutputFull),
        12 => Some(Trap::PortRefused),
        _ => None,
    }
}

/// The width of a type: a pointer has 64 bits.
fn width_of(ty: TyScalar) -> Width
    ensures { result ≡ width_of ty }
{
    match ty {
        TyScalar::Int(w) => w,
        TyScalar::Ptr => Width::W64,
    }
}

fn returned(result_type: Option<TyScalar>, text: &[u8]) -> Option<Ending>
    ensures { result ≡ spec.returned result_type text.now }
{
    match result_type {
        None => {
            if text == b"return".as_slice() {
                Some(Ending::Return(None))
            } else {
                None
            }
        }
        Some(ty) => {
            let word = word_within(width_of(ty), after(b"return ", text)?)?;
            Some(Ending::Return(Some(word)))
        }
    }
}

fn exited(text: &[u8]) -> Option<Ending>
    ensures { result ≡ spec.exited text.now }
{
    let word = word_within(Width::W32, after(b"exit ", text)?)?;
    Some(Ending::Exit(word))
}

fn trapped(text: &[u8]) -> Option<Ending>
    ensures { result ≡ spec.trapped text.now }
{
    let number = number_within(12, after(b"trap ", text)?)?;
    let trap = trap_numbered(number)?;
    Some(Ending::Trap(trap))
}

/// The ending that a text spells, for a function with this result.
fn ending_of(result_type: Option<TyScalar>, text: &[u8]) -> Option<Ending>
    ensures { result ≡ spec.ending_of result_type text.now }
{
    if let Some(ending) = returned(result_type, text) {
        return Some(ending);
    }
    match exited(text) {
        Some(ending) => Some(ending),
        None => trapped(text),
    }
}

/// The ending that a field expects, or none where it is empty. `None` iff the field spells neither.
pub(crate) fn expected_ending(result_type: Option<TyScalar>, text: &[u8]) -> Option<Option<Ending>>
    ensures { result ≡ spec.expected_ending result_type text.now }
{
    if text.is_empty() {
        return Some(None);
    }
    match ending_of(result_type, front_part(b':', text)) {
        Some(ending) => Some(Some(ending)),
        None => None,
    }
}

/// The output that a field expects: what stands behind the first `:`.
pub(crate) fn expected_output(text: &[u8]) -> &[u8]
    ensures { result.now ≡ spec.expected_output text.now }
{
    match back_part(b':', text) {
        Some(output) => output,
        None => &[],
    }
}
