//! What is said to a person on standard error.

use crate::adapters::read_once;
use accmut_app::Status;
use am_base::MAX_FILE_BYTES;
use explanations::{
    Program, Refusal, about_module, about_mutants, about_tests, line_at, line_of_record,
    refusal_of, wrong_word,
};
use std::fs;
use std::rt::Files;

/// How many bytes of a line of a file are shown.
const SHOWN_BYTES: usize = 200;

/// Says what a status other than Done means, by the words of the command and the first bytes that
/// standard output got; and on Done which tests the unchanged program fails.
pub fn say<R: Files + Eprint + AllocGlobal>(
    rt: &R,
    program: Program,
    words: &[String],
    status: Status,
    front: &[u8],
) {
    let text = str::from_utf8(front).unwrap_or("");
    let name = program.name();
    match status {
        Status::Done => say_failing(rt, text),
        Status::Usage => say_usage(rt, program, word(words, 0)),
        Status::ModuleRefused | Status::MutantsRefused | Status::TestsRefused => {
            say_refusal(rt, words, text)
        }
        Status::ReadFault | Status::TooLong => say_file(rt, program, words),
        Status::WriteFault => {
            let _ = eprintln!(rt; "{name}: standard output could not be written");
        }
        Status::OutOfMemory => {
            let _ = eprintln!(rt; "{name}: memory ran out");
        }
        Status::TooMany => {
            let _ = eprintln!(rt; "{name}: the list would have more than 65,535 mutants");
        }
    }
}

/// A word of the command; the empty one where there is none.
fn word(words: &[String], at: usize) -> &str {
    match words.get(at) {
        Some(word) => word.as_str(),
        None => "",
    }
}

/// Says what the commands are.
fn say_usage<R: Eprint>(rt: &R, program: Program, first: &str) {
    let (name, commands) = (program.name(), program.commands());
    if let Some(wrong) = wrong_word(program, first) {
        let _ = eprintln!(rt; "{name}: {wrong}: {first:?}");
    }
    let _ = eprintln!(rt; "{name}: {commands}");
}

/// Says which tests the unchanged program fails, by the first two lines of a report: the names of
/// the tests, and the letters of mutant 0.
fn say_failing<R: Eprint>(rt: &R, report: &str) {
    let Some((names, rest)) = report.split_once('\n') else {
        return;
    };
    let Some((letters, _)) = rest.split_once('\n') else {
        return;
    };
    let (Some(names), Some(letters)) = (names.strip_prefix("mutant,"), letters.strip_prefix("0,"))
    else {
        return;
    };
    'tests: for (name, letter) in names.split(',').zip(letters.split(',')) {
        if letter != "." {
            let _ = eprintln!(rt;
                "accmut: the unchanged program fails the test {name} ({letter}): what the test expects is wrong, \
                and it says nothing of the mutants"
            );
        }
    }
}

/// Says where and why a file is refused.
fn say_refusal<R: Files + Eprint + AllocGlobal>(rt: &R, words: &[String], text: &str) {
    let Some(refusal) = refusal_of(text) else {
        return;
    };
    match refusal.file {
        "module" => say_line(rt, word(words, 1), refusal, about_module(refusal.code)),
        "mutants" => say_record(rt, word(words, 2), refusal, about_mutants(refusal.code)),
        _ => say_record(rt, word(words, 3), refusal, about_tests(refusal.code)),
    }
}

/// Says why a line of a module is refused, and shows it.
fn say_line<R: Files + Eprint + AllocGlobal>(
    rt: &R,
    name: &str,
    refusal: Refusal<'_>,
    about: Option<&'static str>,
) {
    let (number, code, about) = (refusal.number, refusal.code, about.unwrap_or(""));
    let _ = eprintln!(rt; "{name}:{number}: {code}: {about}");
    show_line(rt, name, number);
}

/// Says why a record of a list is refused, and shows its first line.
fn say_record<R: Files + Eprint + AllocGlobal>(
    rt: &R,
    name: &str,
    refusal: Refusal<'_>,
    about: Option<&'static str>,
) {
    let (record, code, about) = (refusal.number, refusal.code, about.unwrap_or(""));
    match line_in(rt, name, record) {
        Some(line) => {
            let _ = eprintln!(rt; "{name}: record {record} (line {line}): {code}: {about}");
            show_line(rt, name, line);
        }
        None => {
            let _ = eprintln!(rt; "{name}: record {record}: {code}: {about}");
        }
    }
}

/// The line in which a record of a file begins.
fn line_in<R: Files + AllocGlobal>(rt: &R, name: &str, record: u64) -> Option<u64> {
    let bytes = fs::read(rt, name).ok()?;
    line_of_record(bytes.as_slice(), record)
}

/// Shows a line of a file, or its front, where it is text.
fn show_line<R: Files + Eprint + AllocGlobal>(rt: &R, name: &str, number: u64) {
    let Ok(bytes) = fs::read(rt, name) else {
        return;
    };
    let Some(line) = line_at(bytes.as_slice(), number) else {
        return;
    };
    let shown = line.get(..SHOWN_BYTES).unwrap_or(line);
    if let Ok(shown) = str::from_utf8(shown) {
        let _ = eprintln!(rt; "    {shown}");
    }
}

/// Says which of the named files can't be read, or is too long.
fn say_file<R: Files + Eprint + AllocGlobal>(rt: &R, program: Program, words: &[String]) {
    'files: for name in words.iter().skip(1).take(3) {
        if say_fault(rt, name.as_str()) {
            return;
        }
    }
    let name = program.name();
    let _ = eprintln!(rt; "{name}: a file could not be read");
}

/// Says why a file can't be read, or that it is too long, and whether that is so.
fn say_fault<R: Files + Eprint>(rt: &R, name: &str) -> bool {
    let mut byte = [0u8; 1];
    match read_once(rt, name, MAX_FILE_BYTES as u64, &mut byte) {
        Err(error) => {
            let _ = eprintln!(rt; "{name}: can't be read: {error}");
            true
        }
        Ok(0) => false,
        Ok(_) => {
            let _ = eprintln!(rt; "{name}: longer than {MAX_FILE_BYTES} bytes");
            true
        }
    }
}
