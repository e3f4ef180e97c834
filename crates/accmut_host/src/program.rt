//! What the program does with the words that it is given.

use crate::adapters::{FileShelf, StdoutSink};
use crate::said::say;
use accmut_app::{Status, accmut};
use am_base::OutOfMemory;
use exec_core::Meter;
use explanations::Program;
use picker::{BreadthFirst, DepthFirst, Picker, SmallestFirst};
use ports::{Abs, IsDigit, IsSpace, Labs, Port};
use std::env;
use std::process::ExitCode;
use std::rt::{Env, Files};

/// The words after the program's name.
pub(crate) fn words<R: Env + AllocGlobal>(rt: &R) -> Result<Vec<String>, OutOfMemory> {
    let Ok(args) = env::args(rt) else {
        return Err(OutOfMemory);
    };
    Ok(args.skip(1).collect(rt.alloc())?)
}

/// Carries out what words ask for, with the pickers `depth`, `breadth` and `smallest`, and the
/// ports `abs`, `labs`, `isdigit` and `isspace`.
fn run<R: Files + Print + AllocGlobal>(
    rt: &R,
    words: &[String],
    sink: &mut StdoutSink<'_, R>,
) -> Result<Status, OutOfMemory> {
    let alloc = rt.alloc();
    let mut shelf = FileShelf::new(rt);
    let depth: Box<dyn Picker> = Box::new(alloc, DepthFirst::new())?;
    let breadth: Box<dyn Picker> = Box::new(alloc, BreadthFirst::new())?;
    let smallest: Box<dyn Picker> = Box::new(alloc, SmallestFirst::new())?;
    let pickers = vec![in alloc; depth, breadth, smallest]?;
    let abs: Box<dyn Port> = Box::new(alloc, Abs::new(alloc)?)?;
    let labs: Box<dyn Port> = Box::new(alloc, Labs::new(alloc)?)?;
    let is_digit: Box<dyn Port> = Box::new(alloc, IsDigit::new(alloc)?)?;
    let is_space: Box<dyn Port> = Box::new(alloc, IsSpace::new(alloc)?)?;
    let mut ports = vec![in alloc; abs, labs, is_digit, is_space]?;
    let mut meter = Meter::new();
    Ok(accmut(
        alloc, words, &mut shelf, sink, pickers, &mut ports, &mut meter,
    ))
}

/// Carries out what the words after the program's name ask for, and returns the number of the
/// status as the exit status. What a status other than 0 means, and which tests the unchanged
/// program fails, is told on standard error. Want of memory for what is made here is status 7.
pub fn run_program<R: Env + Files + Print + Eprint + AllocGlobal>(rt: &R) -> ExitCode {
    let Ok(words) = words(rt) else {
        say(rt, Program::Accmut, &[], Status::OutOfMemory, b"");
        return ExitCode::from(Status::OutOfMemory.number());
    };
    let mut sink = StdoutSink::new(rt, rt.alloc());
    let status = run(rt, words.as_slice(), &mut sink).unwrap_or(Status::OutOfMemory);
    say(rt, Program::Accmut, words.as_slice(), status, sink.front());
    ExitCode::from(status.number())
}
