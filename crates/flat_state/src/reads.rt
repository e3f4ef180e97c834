//! What is read off a code by number.
ghost use Rattle.std.specs.Prelude.{◌≡◌, ◌<◌, length, slice_get, unwrap_or};
ghost use Rattle.code_form.specs.Places.{no_block, function_at, result_at};

use code_form::{Code, Func};

/// The register that the instruction of a place writes, if it has a value.
pub fn result_register(code: &Code, place: u32) -> Option<u32>
    ensures { result ≡ result_at code.now place }
{
    match code.results.get(place as usize) {
        Some(r) => *r,
        None => None,
    }
}

/// The function with a number.
pub fn function(code: &Code, f: u32) -> &Func
    requires { f < length code.now.funcs }
    ensures { result.now ≡ function_at code.now f }
{
    &code.funcs.as_slice()[f as usize]
}

/// The first place of a function.
pub fn first_place(f: &Func) -> u32
    requires { 0 < length f.now.blocks }
    ensures { result ≡ (unwrap_or (slice_get f.now.blocks 0) no_block).first }
{
    f.blocks.as_slice()[0].first
}
