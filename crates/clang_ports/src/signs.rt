//! The names and types of the functions.

ghost use Rattle.std.specs.Prelude.{◌≡◌, ◌++◌, IfOk, OnOk};
ghost use Rattle.clang_ports.specs.Signs as spec;

use crate::function::{CharCase, CharTest, Choice, PureFunction};
use am_base::{OutOfMemory, Width};
use am_lists::{Bytes, Items};
use code_form::PortSign;
use std::alloc::Global;

fn test_name(test: CharTest) -> &'static [u8]
    ensures { result.now ≡ spec.test_name test }
{
    match test {
        CharTest::Alpha => b"isalpha",
        CharTest::Alnum => b"isalnum",
        CharTest::Upper => b"isupper",
        CharTest::Lower => b"islower",
        CharTest::HexDigit => b"isxdigit",
        CharTest::Printed => b"isprint",
        CharTest::Punct => b"ispunct",
    }
}

fn case_name(to: CharCase) -> &'static [u8]
    ensures { result.now ≡ spec.case_name to }
{
    match to {
        CharCase::Upper => b"toupper",
        CharCase::Lower => b"tolower",
    }
}

fn choice_name(choice: Choice) -> &'static [u8]
    ensures { result.now ≡ spec.choice_name choice }
{
    match choice {
        Choice::SignedMost => b"llvm.smax.",
        Choice::SignedLeast => b"llvm.smin.",
        Choice::UnsignedMost => b"llvm.umax.",
        Choice::UnsignedLeast => b"llvm.umin.",
    }
}

fn type_name(w: Width) -> &'static [u8]
    ensures { result.now ≡ spec.type_name w }
{
    match w {
        Width::W1 => b"i1",
        Width::W8 => b"i8",
        Width::W16 => b"i16",
        Width::W32 => b"i32",
        Width::W64 => b"i64",
    }
}

/// A name with the name of a type behind it.
fn typed(alloc: Global, name: &[u8], w: Width) -> Result<Bytes, OutOfMemory>
    ensures { IfOk result (λ all. all ≡ name.now ++ spec.type_name w) }
{
    let mut all = Items::from_slice(alloc, name)?;
    all.extend(type_name(w))?;
    Ok(all)
}

fn name_of(alloc: Global, function: PureFunction) -> Result<Bytes, OutOfMemory>
    ensures { IfOk result (λ name. name ≡ spec.name_of function) }
{
    match function {
        PureFunction::Test(test) => Ok(Items::from_slice(alloc, test_name(test))?),
        PureFunction::ToCase(to) => Ok(Items::from_slice(alloc, case_name(to))?),
        PureFunction::Absolute(w) => typed(alloc, b"llvm.abs.", w),
        PureFunction::Chosen(choice, w) => typed(alloc, choice_name(choice), w),
    }
}

fn params_of(alloc: Global, function: PureFunction) -> Result<Items<Width>, OutOfMemory>
    ensures { IfOk result (λ params. params ≡ spec.params_of function) }
{
    let params = match function {
        PureFunction::Test(_) | PureFunction::ToCase(_) => Items::from_slice(alloc, &[Width::W32])?,
        PureFunction::Absolute(w) => Items::from_slice(alloc, &[w, Width::W1])?,
        PureFunction::Chosen(_, w) => Items::from_slice(alloc, &[w, w])?,
    };
    Ok(params)
}

fn width_of(function: PureFunction) -> Width
    ensures { result ≡ spec.width_of function }
{
    match function {
        PureFunction::Test(_) | PureFunction::ToCase(_) => Width::W32,
        PureFunction::Absolute(w) => w,
        PureFunction::Chosen(_, w) => w,
    }
}

/// Returns the name and the types of a function. It is refused only for want of memory.
pub(crate) fn sign_of(alloc: Global, function: PureFunction) -> Result<PortSign, OutOfMemory>
    ensures { IfOk result (λ sign. sign ≡ spec.sign_of function) }
{
    Ok(PortSign {
        name: name_of(alloc, function)?,
        params: params_of(alloc, function)?,
        result: Some(width_of(function)),
    })
}
