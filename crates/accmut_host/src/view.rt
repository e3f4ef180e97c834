//! What `accmut_view` does with the words that it is given.

use crate::adapters::{FileShelf, StdoutSink};
use crate::program::words;
use crate::said::say;
use accmut_app::{Status, accmut_view};
use am_base::OutOfMemory;
use exec_core::Meter;
use explanations::Program;
use picker::{DepthFirst, Picker};
use ports::{Abs, IsDigit, IsSpace, Labs, Port};
use std::process::ExitCode;
use std::rt::{Env, Files};

/// Carries out what words ask for, with the picker `depth` and the ports `abs`, `labs`, `isdigit`
/// and `isspace`.
fn view<R: Files + Print + AllocGlobal>(
    rt: &R,
    words: &[String],
    sink: &mut StdoutSink<'_, R>,
) -> Result<Status, OutOfMemory> {
    let alloc = rt.alloc();
    let mut shelf = FileShelf::new(rt);
    let mut picker: Box<dyn Picker> = Box::new(alloc, DepthFirst::new())?;
    let abs: Box<dyn Port> = Box::new(alloc, Abs::new(alloc)?)?;
    let labs: Box<dyn Port> = Box::new(alloc, Labs::new(alloc)?)?;
    let is_digit: Box<dyn Port> = Box::new(alloc, IsDigit::new(alloc)?)?;
    let is_space: Box<dyn Port> = Box::new(alloc, IsSpace::new(alloc)?)?;
    let mut ports = vec![in alloc; abs, labs, is_digit, is_space]?;
    let mut meter = Meter::new();
    Ok(accmut_view(
        alloc,
        words,
        &mut shelf,
        sink,
        &mut picker,
        &mut ports,
        &mut meter,
    ))
}

/// Carries out what the words after the program's name ask for: `number` or `page`. It returns the
/// number of the status as the exit status, and what a status other than 0 means is told on standard
/// error. Want of memory for what is made here is status 7.
pub fn run_view<R: Env + Files + Print + Eprint + AllocGlobal>(rt: &R) -> ExitCode {
    let Ok(words) = words(rt) else {
        say(rt, Program::View, &[], Status::OutOfMemory, b"");
        return ExitCode::from(Status::OutOfMemory.number());
    };
    let mut sink = StdoutSink::new(rt, rt.alloc());
    let status = view(rt, words.as_slice(), &mut sink).unwrap_or(Status::OutOfMemory);
    say(rt, Program::View, words.as_slice(), status, sink.front());
    ExitCode::from(status.number())
}
