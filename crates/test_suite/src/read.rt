//! How a list of tests is read.

ghost use Rattle.std.specs.Prelude.{◌≡◌, ◌≤◌, ◌<◌, ◌+◌, ℕ, List, [], ◌∷◌, ◌++◌, length, not, true, false, IfOk, OnOk};
ghost use Rattle.std.specs.List.{list_all, list_any};
ghost use Rattle.std.specs.Option.{option_copied};
ghost use Rattle.std.specs.Str.{bytes_eq};
ghost use Rattle.csv.specs.Records.{fields_of};
ghost use Rattle.code_form.specs.Places.{function_at};
ghost use Rattle.code_form.specs.Sound.{IsSound};
ghost use Rattle.function_names.specs.Names.{function_named, number_in};
ghost use Rattle.list_records.specs.Records.{Fields, Gave, field_of, rows_of};
ghost use Rattle.test_suite.specs.Suite.{FitsSuite};
ghost use Rattle.test_suite.specs.Tests as spec;

use crate::error::TestError;
use crate::expected::{back_part, expected_ending, expected_output, front_part};
use crate::suite::{Suite, Test};
use am_base::{
    Ending, MAX_BUDGET, MAX_INPUT_BYTES, MAX_OUTPUT_BYTES, MAX_TEST_NAME_BYTES, MAX_TESTS,
    OutOfMemory, Outcome,
};
use am_lists::{Bytes, Items};
use code_form::{Case, Code, Func, TyScalar};
use csv::{ByteRecord, Reader};
use function_names::FunctionNames;
use indexmap::IndexSet;
use list_records::{field, next_record, number_within, reader_of, word_within};
use std::alloc::Global;

// The fields of a record.

/// Whether record 0 names the fields.
fn is_header(row: &ByteRecord) -> bool
    ensures { result ≡ spec.is_header (fields_of row.now) }
{
    row.len() == 6
        && field(row, 0) == b"name".as_slice()
        && field(row, 1) == b"function".as_slice()
        && field(row, 2) == b"arguments".as_slice()
        && field(row, 3) == b"input".as_slice()
        && field(row, 4) == b"budget".as_slice()
        && field(row, 5) == b"expected".as_slice()
}

fn is_name_byte(b: u8) -> bool
    ensures { result ≡ spec.is_name_byte b }
{
    b.is_ascii_alphanumeric() || b == b'_' || b == b'.' || b == b'-'
}

fn are_name_bytes(text: &[u8]) -> bool
    ensures { result ≡ list_all spec.is_name_byte text.now }
{
    text.iter().all(|b| is_name_byte(*b))
}

/// Whether the text is 1 to 64 letters, digits, `_`, `.` or `-`.
pub(crate) fn is_test_name(text: &[u8]) -> bool
    ensures { result ≡ spec.is_test_name text.now }
{
    1 <= text.len() && text.len() <= MAX_TEST_NAME_BYTES && are_name_bytes(text)
}

fn argument_of(ty: TyScalar, text: &[u8]) -> Option<u64>
    ensures { result ≡ spec.argument_of ty text.now }
{
    match ty {
        TyScalar::Int(w) => word_within(w, text),
        TyScalar::Ptr => None,
    }
}

fn some_text(text: &[u8]) -> Option<&[u8]>
    ensures { option_copied result ≡ spec.some_text text.now }
{
    if text.is_empty() { None } else { Some(text) }
}

/// The words of the arguments; `None` iff the field isn't one decimal number for each parameter.
pub(crate) fn arguments_of(
    alloc: Global,
    types: &[TyScalar],
    text: &[u8],
) -> Result<Option<Items<u64>>, OutOfMemory>
    ensures { IfOk result (λ words. words ≡ spec.arguments_of types.now text.now) }
{
    let mut words = Items::new(alloc);
    let mut rest = some_text(text);
    'each: for ty in types {
        let text = match rest {
            Some(text) => text,
            None => return Ok(None),
        };
        let Some(word) = argument_of(*ty, front_part(b' ', text)) else {
            return Ok(None);
        };
        words.push(word)?;
        rest = back_part(b' ', text);
    }
    match rest {
        None => Ok(Some(words)),
        Some(_) => Ok(None),
    }
}

pub(crate) fn budget_of(default_budget: u64, text: &[u8]) -> Option<u64>
    ensures { result ≡ spec.budget_of default_budget text.now }
{
    if text.is_empty() {
        Some(default_budget)
    } else {
        number_within(MAX_BUDGET, text)
    }
}

/// Whether there are more tests, input or output than the limits allow.
fn is_over_limit(number: u32, row: &ByteRecord) -> bool
    ensures limit { result ≡ false → number ≤ MAX_TESTS }
    ensures value { result ≡ spec.is_over_limit number (fields_of row.now) }
{
    number > MAX_TESTS
        || field(row, 3).len() > MAX_INPUT_BYTES as usize
        || expected_output(field(row, 5)).len() > MAX_OUTPUT_BYTES as usize
}

// Records, one by one.

/// Makes a test of a record.
fn test_made(
    alloc: Global,
    function: u32,
    args: Items<u64>,
    budget: u64,
    ending: Option<Ending>,
    row: &ByteRecord,
) -> Result<Test, OutOfMemory>
    ensures { IfOk result (λ test. test ≡ spec.test_made function args budget ending (fields_of row.now)) }
{
    let name = Bytes::from_slice(alloc, field(row, 0))?;
    let input = Bytes::from_slice(alloc, field(row, 3))?;
    let expected = match ending {
        None => None,
        Some(ending) => Some(Outcome {
            ending,
            output: Bytes::from_slice(alloc, expected_output(field(row, 5)))?,
        }),
    };
    let case = Case {
        function,
        args,
        input,
        budget,
    };
    Ok(Test {
        name,
        case,
        expected,
    })
}

/// Reads the fields of a record behind the name of its function.
fn read_case(
    alloc: Global,
    f: &Func,
    function: u32,
    default_budget: u64,
    number: u32,
    row: &ByteRecord,
) -> Result<Result<Test, TestError>, OutOfMemory>
    ensures test { IfOk result (λ test. test ≡ spec.case_read f.now function default_budget number (fields_of row.now)) }
    ensures name { IfOk result (λ test. IfOk test (λ t. t.name ≡ field_of (fields_of row.now) 0)) }
    ensures limit { IfOk result (λ test. IfOk test (λ t. number ≤ MAX_TESTS)) }
{
    let Some(args) = arguments_of(alloc, f.params.as_slice(), field(row, 2))? else {
        return Ok(Err(TestError::Arguments { row: number }));
    };
    let Some(budget) = budget_of(default_budget, field(row, 4)) else {
        return Ok(Err(TestError::Budget { row: number }));
    };
    let Some(ending) = expected_ending(f.result, field(row, 5)) else {
        return Ok(Err(TestError::Expect { row: number }));
    };
    if is_over_limit(number, row) {
        return Ok(Err(TestError::Limit { row: number }));
    }
    Ok(Ok(test_made(alloc, function, args, budget, ending, row)?))
}

/// Adds the name of a test, and returns whether it is new.
fn add_name(alloc: Global, names: &mut IndexSet<Bytes>, name: &[u8]) -> Result<bool, OutOfMemory>
    ensures new { IfOk result (λ is_new. is_new ≡ not (list_any (bytes_eq name.now) names.old.keys)) }
    ensures names { IfOk result (λ is_new. is_new ≡ true → names.new.keys ≡ names.old.keys ++ name.now ∷ []) }
{
    Ok(names.insert(Bytes::from_slice(alloc, name)?)?)
}

/// Reads the fields of a record from the name of its function on.
fn read_call(
    alloc: Global,
    code: &Code,
    functions: &FunctionNames,
    default_budget: u64,
    number: u32,
    row: &ByteRecord,
) -> Result<Result<Test, TestError>, OutOfMemory>
    requires named { (name : List ℕ) → number_in functions.now name ≡ function_named code.now name }
    ensures test { IfOk result (λ test. test ≡ spec.call_read code.now default_budget number (fields_of row.now)) }
    ensures name { IfOk result (λ test. IfOk test (λ t. t.name ≡ field_of (fields_of row.now) 0)) }
    ensures limit { IfOk result (λ test. IfOk test (λ t. number ≤ MAX_TESTS)) }
{
    let name = Bytes::from_slice(alloc, field(row, 1))?;
    let Some(function) = functions.find(&name) else {
        return Ok(Err(TestError::UnknownFunction { row: number }));
    };
    match code.funcs.get(function as usize) {
        Some(f) => read_case(alloc, f, function, default_budget, number, row),
        None => unreachable!(),
    }
}

/// Reads a record behind tests with these names, and adds its name to them.
fn read_record(
    alloc: Global,
    code: &Code,
    functions: &FunctionNames,
    default_budget: u64,
    names: &mut IndexSet<Bytes>,
    number: u32,
    row: &ByteRecord,
) -> Result<Result<Test, TestError>, OutOfMemory>
    requires named { (name : List ℕ) → number_in functions.now name ≡ function_named code.now name }
    ensures test { IfOk result (λ test. test ≡ spec.record_read code.now default_budget names.old.keys number (fields_of row.now)) }
    ensures names { IfOk result (λ test. IfOk test (λ t. names.new.keys ≡ names.old.keys ++ t.name ∷ [])) }
    ensures limit { IfOk result (λ test. IfOk test (λ t. number ≤ MAX_TESTS)) }
{
    if row.len() != 6 {
        return Ok(Err(TestError::Lengths { row: number }));
    }
    if !is_test_name(field(row, 0)) {
        return Ok(Err(TestError::Name { row: number }));
    }
    if !add_name(alloc, names, field(row, 0))? {
        return Ok(Err(TestError::DoubleName { row: number }));
    }
    read_call(alloc, code, functions, default_budget, number, row)
}

/// Reads the records behind the header.
fn read_records(
    alloc: Global,
    code: &Code,
    default_budget: u64,
    reader: &mut Reader<&[u8]>,
    row: &mut ByteRecord,
) -> Result<Result<Items<Test>, TestError>, OutOfMemory>
    requires { IsSound code.now }
    ensures { (text : List ℕ) (header : Fields) (records : List Fields) → Gave text reader.old (header ∷ []) → rows_of text ≡ header ∷ records
        → IfOk result (λ tests. tests ≡ spec.tests_read code.now default_budget [] records) }
{
    let functions = FunctionNames::new(alloc, code)?;
    let mut names = IndexSet::new(alloc);
    let mut tests = Items::new(alloc);
    'each: for number in 1..MAX_TESTS + 2 {
        if !next_record(reader, row)? {
            return Ok(Ok(tests));
        }
        match read_record(
            alloc,
            code,
            &functions,
            default_budget,
            &mut names,
            number,
            row,
        )? {
            Err(fault) => return Ok(Err(fault)),
            Ok(test) => tests.push(test)?,
        }
    }
    unreachable!()
}

/// Reads a list of tests.
fn read_suite(
    alloc: Global,
    text: &[u8],
    code: &Code,
    default_budget: u64,
) -> Result<Result<Suite, TestError>, OutOfMemory>
    requires { IsSound code.now }
    ensures { IfOk result (λ suite. suite ≡ spec.suite_read code.now default_budget (rows_of text.now)) }
{
    let mut reader = reader_of(alloc, text);
    let mut row = ByteRecord::new(alloc);
    if !next_record(&mut reader, &mut row)? {
        return Ok(Err(TestError::Header { row: 0 }));
    }
    if !is_header(&row) {
        return Ok(Err(TestError::Header { row: 0 }));
    }
    match read_records(alloc, code, default_budget, &mut reader, &mut row)? {
        Ok(tests) => Ok(Ok(Suite { tests })),
        Err(fault) => Ok(Err(fault)),
    }
}

/// Reads a list of tests for a code. The text is read as `csv` reads it with `;` between fields:
/// its first record is `name;function;arguments;input;budget;expected`, and each further one is a
/// test. A test whose budget is empty gets `default_budget`, from 1 to `MAX_BUDGET` steps. The first
/// record with a fault is refused, with its first fault in the order of `TestError`.
pub fn read_tests(
    alloc: Global,
    text: &[u8],
    code: &Code,
    default_budget: u64,
) -> Result<Suite, TestError>
    requires sound { IsSound code.now }
    requires some { 1 ≤ default_budget }
    requires few { default_budget ≤ MAX_BUDGET }
    ensures answer { spec.Answers (spec.suite_read code.now default_budget (rows_of text.now)) result }
    ensures fits { IfOk result (FitsSuite code.now) }
{
    match read_suite(alloc, text, code, default_budget) {
        Ok(answer) => answer,
        Err(OutOfMemory) => Err(TestError::OutOfMemory),
    }
}
