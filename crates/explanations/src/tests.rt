//! Lines taken apart, places in files, and that each code has its words.

use crate::{
    Program, about_module, about_mutants, about_tests, line_at, line_of_record, refusal_of,
    wrong_word,
};
use std::test::Fail;

/// The codes of a refused module.
const MODULE_CODES: [&str; 27] = [
    "BadByte",
    "OpenQuote",
    "NotAnItem",
    "DoubleName",
    "NumberOrder",
    "UnknownType",
    "RecursiveType",
    "TypeTooLarge",
    "ScalarWanted",
    "UnknownName",
    "TypeDiffers",
    "LiteralRange",
    "UnknownLabel",
    "PhiPlace",
    "PhiEntries",
    "BlockOpen",
    "UnknownCallee",
    "CallDiffers",
    "ReturnDiffers",
    "SwitchCase",
    "GetPath",
    "ResultName",
    "InitDiffers",
    "EntryTarget",
    "CastWidth",
    "DeclareDiffers",
    "Limit",
];

/// The codes of a refused list of mutants.
const MUTANT_CODES: [&str; 10] = [
    "Lengths",
    "Header",
    "Numbering",
    "UnknownFunction",
    "NoPlace",
    "SamePlace",
    "NotAnInstruction",
    "NotOfItsType",
    "Limit",
    "NoRecord",
];

/// The codes of a refused suite.
const TEST_CODES: [&str; 10] = [
    "Lengths",
    "Header",
    "Name",
    "DoubleName",
    "UnknownFunction",
    "Arguments",
    "Budget",
    "Expect",
    "Limit",
    "NoRecord",
];

#[test]
fn each_code_has_its_words(rt: HostRuntime) -> Result<(), Fail> {
    for code in MODULE_CODES {
        assert!(rt; about_module(code).is_some(), "{code}");
    }
    for code in MUTANT_CODES {
        assert!(rt; about_mutants(code).is_some(), "{code}");
    }
    for code in TEST_CODES {
        assert!(rt; about_tests(code).is_some(), "{code}");
    }
    assert!(rt; about_module("Header").is_none());
    Ok(())
}

/// A list whose second record, the first behind the header, has a line end between quotes.
const LIST: &[u8] = b"\xEF\xBB\xBFa;b\n\n1;\"x\n\"\"y\"\r\n2;z\n";

#[test]
fn places_are_found(rt: HostRuntime) -> Result<(), Fail> {
    for (record, line) in [(0, Some(1)), (1, Some(3)), (2, Some(5)), (3, None)] {
        assert_eq!(rt; line_of_record(LIST, record), line);
    }
    for (number, line) in [
        (0, None),
        (2, Some(&b""[..])),
        (3, Some(&b"1;\"x"[..])),
        (6, Some(&b""[..])),
        (7, None),
    ] {
        assert_eq!(rt; line_at(LIST, number), line);
    }
    Ok(())
}

#[test]
fn a_line_is_taken_apart(rt: HostRuntime) -> Result<(), Fail> {
    let found = refusal_of("refused,mutants,17,NoPlace\n").map(|r| (r.file, r.number, r.code));
    assert_eq!(rt; found, Some(("mutants", 17, "NoPlace")));
    for text in [
        "refused,mutants,17,NoPlace",
        "mutant,a\n0,.\n",
        "refused,tests,x,Name\n",
        "",
    ] {
        assert!(rt; refusal_of(text).is_none(), "{text:?}");
    }
    Ok(())
}

#[test]
fn a_wrong_word_is_told(rt: HostRuntime) -> Result<(), Fail> {
    for (program, word, is_wrong) in [
        (Program::Accmut, "--help", false),
        (Program::Accmut, "number", true),
        (Program::View, "-h", false),
        (Program::View, "run", true),
    ] {
        assert_eq!(rt; wrong_word(program, word).is_some(), is_wrong);
    }
    assert_eq!(rt;
        wrong_word(Program::View, "number"),
        Some("this command doesn't take these words")
    );
    Ok(())
}
