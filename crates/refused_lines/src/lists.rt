//! The lines on a list of mutants and on a suite of tests.

ghost use Rattle.std.specs.Prelude.{◌≡◌, IfOk, Some, codes};
ghost use Rattle.refused_lines.specs.Refusals as spec;

use crate::line::refused_line;
use am_base::OutOfMemory;
use am_lists::Bytes;
use mutant_records::MutantError;
use std::alloc::Global;
use test_suite::TestError;

fn mutants_line(alloc: Global, row: u32, code: &str) -> Result<Bytes, OutOfMemory>
    ensures { IfOk result (λ line. line ≡ spec.refused_line (codes "mutants") row code.now) }
{
    refused_line(alloc, "mutants", u64::from(row), code)
}

fn tests_line(alloc: Global, row: u32, code: &str) -> Result<Bytes, OutOfMemory>
    ensures { IfOk result (λ line. line ≡ spec.refused_line (codes "tests") row code.now) }
{
    refused_line(alloc, "tests", u64::from(row), code)
}

/// Returns the line for what `read_mutants` refuses: `refused,mutants,ROW,CODE`. For its
/// `OutOfMemory` there is none, and this answers `OutOfMemory` too.
pub fn refused_mutants_line(alloc: Global, error: MutantError) -> Result<Bytes, OutOfMemory>
    ensures { IfOk result (λ line. spec.mutants_line error ≡ Some line) }
{
    match error {
        MutantError::Lengths { row } => mutants_line(alloc, row, "Lengths"),
        MutantError::Header { row } => mutants_line(alloc, row, "Header"),
        MutantError::Numbering { row } => mutants_line(alloc, row, "Numbering"),
        MutantError::UnknownFunction { row } => mutants_line(alloc, row, "UnknownFunction"),
        MutantError::NoPlace { row } => mutants_line(alloc, row, "NoPlace"),
        MutantError::SamePlace { row } => mutants_line(alloc, row, "SamePlace"),
        MutantError::NotAnInstruction { row } => mutants_line(alloc, row, "NotAnInstruction"),
        MutantError::NotOfItsType { row } => mutants_line(alloc, row, "NotOfItsType"),
        MutantError::Limit { row } => mutants_line(alloc, row, "Limit"),
        MutantError::OutOfMemory => Err(OutOfMemory),
    }
}

/// Returns the line for what `read_tests` refuses: `refused,tests,ROW,CODE`. For its
/// `OutOfMemory` there is none, and this answers `OutOfMemory` too.
pub fn refused_tests_line(alloc: Global, error: TestError) -> Result<Bytes, OutOfMemory>
    ensures { IfOk result (λ line. spec.tests_line error ≡ Some line) }
{
    match error {
        TestError::Lengths { row } => tests_line(alloc, row, "Lengths"),
        TestError::Header { row } => tests_line(alloc, row, "Header"),
        TestError::Name { row } => tests_line(alloc, row, "Name"),
        TestError::DoubleName { row } => tests_line(alloc, row, "DoubleName"),
        TestError::UnknownFunction { row } => tests_line(alloc, row, "UnknownFunction"),
        TestError::Arguments { row } => tests_line(alloc, row, "Arguments"),
        TestError::Budget { row } => tests_line(alloc, row, "Budget"),
        TestError::Expect { row } => tests_line(alloc, row, "Expect"),
        TestError::Limit { row } => tests_line(alloc, row, "Limit"),
        TestError::OutOfMemory => Err(OutOfMemory),
    }
}

/// Returns the line for a wanted mutant that a list hasn't: `refused,mutants,M,NoRecord`.
pub fn no_mutant_line(alloc: Global, mutant: u64) -> Result<Bytes, OutOfMemory>
    ensures { IfOk result (λ line. line ≡ spec.no_mutant_line mutant) }
{
    refused_line(alloc, "mutants", mutant, "NoRecord")
}

/// Returns the line for a wanted test that a suite hasn't: `refused,tests,T,NoRecord`.
pub fn no_test_line(alloc: Global, test: u64) -> Result<Bytes, OutOfMemory>
    ensures { IfOk result (λ line. line ≡ spec.no_test_line test) }
{
    refused_line(alloc, "tests", test, "NoRecord")
}
