//! What the codes of a refused list of mutants and of a refused suite mean.

/// Returns what a code of a refused list of mutants means and what helps; `None` where it is no such
/// code. The faults are those of docs/FORMATS.md.
pub fn about_mutants(code: &str) -> Option<&'static str> {
    let text = match code {
        "Lengths" =>
            "a record hasn't as many fields as its header; put a field with ; or \" in it between quotes",
        "Header" => {
            "the first record has to be function;instruction;replacement, or the same behind mutant;"
        }
        "Numbering" => {
            "the first field has to be the mutant's number, that of the record before or one more, \
            and 1 at first; a mutant has at most 4 records"
        }
        "UnknownFunction" => "the module defines no function of this name (without @)",
        "NoPlace" => {
            "the function has no instruction of this number; they are counted from 1 in the order of \
            the text, phi included"
        }
        "SamePlace" => "an earlier record of the same mutant replaces this instruction",
        "NotAnInstruction" =>
            "the replacement isn't one whole instruction; leave its result and = out",
        "NotOfItsType" => {
            "this instruction can't be where the original is: its result has another type, it isn't a \
            branch or return where the original is one, or it breaks a rule there"
        }
        "Limit" => "the list has more than 65,535 mutants",
        "NoRecord" => "the list has no mutant of this number",
        _ => return None,
    };
    Some(text)
}

/// Returns what a code of a refused suite of tests means and what helps; `None` where it is no such
/// code. The faults are those of docs/FORMATS.md.
pub fn about_tests(code: &str) -> Option<&'static str> {
    let text = match code {
        "Lengths" => "a record hasn't six fields; put a field with ; or \" in it between quotes",
        "Header" => "the first record has to be name;function;arguments;input;budget;expected",
        "Name" => "a test's name is 1 to 64 letters, digits, _ . or -",
        "DoubleName" => "an earlier test has this name",
        "UnknownFunction" => "the module defines no function of this name (without @)",
        "Arguments" => {
            "there has to be one decimal number for each parameter, with one blank between them, and \
            no parameter may be a pointer"
        }
        "Budget" => "the budget is empty or a number from 1 to 10000000",
        "Expect" => {
            "what is expected is empty or return, return N, exit N or trap K, and behind a : the output"
        }
        "Limit" =>
            "the suite has more than 1,024 tests, or an input or an expected output is too long",
        "NoRecord" => "the suite has no test of this number",
        _ => return None,
    };
    Some(text)
}
