//! Tests of `lex`.
use super::*;
use TokenKind::{
    CString, Global as GlobalName, Hash, Label, Local, Meta, Number, Quoted, Sign, Word,
};
use am_base::MAX_FILE_BYTES;
use std::alloc::Global;
use std::fmt::Write;
use std::process::Abort;
use std::test::Fail;

/// The tokens of the text, each as its kind and its bytes.
fn rendered(rt: &impl Abort, alloc: Global, text: &str) -> Result<String, Fail> {
    assert!(rt; text.len() <= MAX_FILE_BYTES);
    let mut out = String::new(alloc);
    for token in &lex(alloc, text.as_bytes())? {
        let spelling = text
            .get(token.from as usize..token.to as usize)
            .ok_or("a place of the text")?;
        write!(out, "{:?} {} ", token.kind, spelling)?;
    }
    Ok(out)
}

/// Asserts that the text has this fault.
fn expect_fault(rt: &impl Abort, alloc: Global, text: &str, want: LexError) {
    let bytes = text.as_bytes();
    assert!(rt; bytes.len() <= MAX_FILE_BYTES);
    assert_eq!(rt; lex(alloc, bytes).err(), Some(want), "in {text:?}");
}

/// Asserts that the texts have these tokens, each as its kind and its bytes.
fn expect_tokens(rt: &impl Abort, alloc: Global, cases: &[(&str, &str)]) -> Result<(), Fail> {
    for &(text, want) in cases {
        assert_eq!(rt; rendered(rt, alloc, text)?.as_str(), want, "of {text:?}");
    }
    Ok(())
}

#[test]
fn tokens_of_names_and_labels(rt: HostRuntime) -> Result<(), Fail> {
    let cases = [
        (
            "%a %007 %4294967295 %00000000000000000001 %-5 %a-b %\"\" %5:",
            "Local %a Local %007 Local %4294967295 Local %00000000000000000001 Local %-5 Local \
             %a-b Local %\"\" Local %5 Sign(58) : ",
        ),
        (
            "@.str.1 @$a_b @7 @\"x y\"",
            "Global @.str.1 Global @$a_b Global @7 Global @\"x y\" ",
        ),
        (
            "5: 007: -5: 1abc: a.b: \"a\":\"\": a :",
            "Label 5: Label 007: Label -5: Label 1abc: Label a.b: Label \"a\": Label \"\": Word \
             a Sign(58) : ",
        ),
        (
            "4294967295: 4294967296: 00000000004294967295: 00000000004294967296:",
            "Label 4294967295: Number 4294967296 Sign(58) : Label 00000000004294967295: Number \
             00000000004294967296 Sign(58) : ",
        ),
    ];
    expect_tokens(&rt, rt.alloc(), &cases)
}

#[test]
fn tokens_of_quotes_words_and_signs(rt: HostRuntime) -> Result<(), Fail> {
    let cases = [
        (
            "c\"a\\00\" c\"\": c \"a\" xc\"a\" c: c",
            "CString c\"a\\00\" CString c\"\" Sign(58) : Word c Quoted \"a\" Word xc Quoted \
             \"a\" Label c: Word c ",
        ),
        (
            "\"a\\22b\" \"a\\\" b \"a;\nb\"",
            "Quoted \"a\\22b\" Quoted \"a\\\" Word b Quoted \"a;\nb\" ",
        ),
        (
            "0 -1 00 --1 - 1- 1.5 x $ 99999999999999999999",
            "Number 0 Number -1 Number 00 Word --1 Word - Word 1- Word 1.5 Word x Word $ Number \
             99999999999999999999 ",
        ),
        (
            "#0 #0abc #12345678901234567890 !0 !{ !\"a\" !llvm.ident !a\\3Ab ! !!",
            "Hash #0 Hash #0 Word abc Hash #12345678901234567890 Meta !0 Meta ! Sign(123) { Meta \
             ! Quoted \"a\" Meta !llvm.ident Meta !a\\3Ab Meta ! Meta ! Meta ! ",
        ),
        (
            "()[]{}<>,=*:|",
            "Sign(40) ( Sign(41) ) Sign(91) [ Sign(93) ] Sign(123) { Sign(125) } Sign(60) < \
             Sign(62) > Sign(44) , Sign(61) = Sign(42) * Sign(58) : Sign(124) | ",
        ),
        ("; a \" ~ \n b;c;d\n\te\r;", "Word b Word e "),
        ("", ""),
    ];
    expect_tokens(&rt, rt.alloc(), &cases)
}

/// Bytes outside ASCII are a fault by themselves, and allowed in quotes and comments.
#[test]
fn bytes_of_quoted_texts_and_comments(rt: HostRuntime) -> Result<(), Fail> {
    for byte in [0, 0x7f, 0x80, 0xff] {
        let alone = lex(rt.alloc(), &[byte]).err();
        assert_eq!(rt; alone, Some(LexError::BadByte { at: 0 }), "byte {byte}");
        let text = [b'c', b'"', byte, b'"', b'"', byte, b'"', b';', byte];
        let tokens = lex(rt.alloc(), &text)?;
        let want = [(CString, 0, 4), (Quoted, 4, 7)];
        assert_eq!(rt; tokens.len(), 2, "byte {byte}");
        for (token, (kind, from, to)) in tokens.iter().zip(want) {
            assert_eq!(rt; (token.kind, token.from, token.to), (kind, from, to));
        }
    }
    Ok(())
}

#[test]
fn faults_of_texts(rt: HostRuntime) {
    let cases: [(&str, LexError); 23] = [
        ("~", LexError::BadByte { at: 0 }),
        ("source_filename = \"max", LexError::OpenQuote { at: 18 }),
        ("a \"", LexError::OpenQuote { at: 2 }),
        ("\"a\" \"b", LexError::OpenQuote { at: 4 }),
        ("%\"abc", LexError::BadByte { at: 0 }),
        ("@\"abc", LexError::BadByte { at: 0 }),
        ("  c\"abc", LexError::OpenQuote { at: 3 }),
        ("% a", LexError::BadByte { at: 0 }),
        ("a @", LexError::BadByte { at: 2 }),
        ("%4294967296", LexError::BadByte { at: 0 }),
        ("@1abc", LexError::BadByte { at: 0 }),
        ("#a", LexError::BadByte { at: 0 }),
        ("#-1", LexError::BadByte { at: 0 }),
        ("#", LexError::BadByte { at: 0 }),
        ("a\\b", LexError::BadByte { at: 1 }),
        ("a\0", LexError::BadByte { at: 1 }),
        ("a \u{e9}", LexError::BadByte { at: 2 }),
        ("\u{feff}a", LexError::BadByte { at: 0 }),
        ("a ~ \"", LexError::BadByte { at: 2 }),
        ("a \" ~", LexError::OpenQuote { at: 2 }),
        ("a+b", LexError::BadByte { at: 1 }),
        ("a/b", LexError::BadByte { at: 1 }),
        ("'", LexError::BadByte { at: 0 }),
    ];
    for (text, want) in cases {
        expect_fault(&rt, rt.alloc(), text, want);
    }
}

/// A module in the shape that Clang writes it: a function, attributes and metadata, in 39 lines.
const MAX: &str = "\
; ModuleID = 'max.c'\n\
source_filename = \"max.c\"\n\
target datalayout = \"e-m:e-p270:32:32-p271:32:32-p272:64:64-i64:64-f80:128-n8:16:32:64-S128\"\n\
target triple = \"x86_64-pc-linux-gnu\"\n\
\n\
; Function Attrs: noinline nounwind optnone uwtable\n\
define dso_local i32 @max(i32 noundef %0, i32 noundef %1) #0 {\n\
\x20\x20%3 = alloca i32, align 4\n\
\x20\x20%4 = alloca i32, align 4\n\
\x20\x20store i32 %0, ptr %3, align 4\n\
\x20\x20store i32 %1, ptr %4, align 4\n\
\x20\x20br label %5\n\
\n\
5:                                                ; preds = %9, %2\n\
\x20\x20%6 = load i32, ptr %3, align 4\n\
\x20\x20%7 = load i32, ptr %4, align 4\n\
\x20\x20%8 = icmp slt i32 %6, %7\n\
\x20\x20br i1 %8, label %9, label %11\n\
\n\
9:                                                ; preds = %5\n\
\x20\x20%10 = load i32, ptr %4, align 4\n\
\x20\x20store i32 %10, ptr %3, align 4\n\
\x20\x20br label %5, !llvm.loop !6\n\
\n\
11:                                               ; preds = %5\n\
\x20\x20%12 = load i32, ptr %3, align 4\n\
\x20\x20ret i32 %12\n\
}\n\
\n\
attributes #0 = { noinline nounwind optnone uwtable \"frame-pointer\"=\"all\" }\n\
\n\
!llvm.module.flags = !{!0, !1}\n\
!llvm.ident = !{!5}\n\
\n\
!0 = !{i32 1, !\"wchar_size\", i32 4}\n\
!1 = !{i32 8, !\"PIC Level\", i32 2}\n\
!5 = !{!\"clang\"}\n\
!6 = distinct !{!6, !7}\n\
!7 = !{!\"llvm.loop.mustprogress\"}\n";

#[test]
fn kinds_of_a_module(rt: HostRuntime) -> Result<(), Fail> {
    assert!(rt; MAX.len() <= MAX_FILE_BYTES);
    let tokens = lex(rt.alloc(), MAX.as_bytes())?;
    let counts = [
        (Local, 27),
        (GlobalName, 1),
        (Label, 3),
        (CString, 0),
        (Quoted, 9),
        (Number, 13),
        (Word, 69),
        (Hash, 2),
        (Meta, 25),
    ];
    for (kind, want) in counts {
        assert_eq!(rt;
            tokens.iter().filter(|t| t.kind == kind).count(),
            want,
            "of {kind:?}"
        );
    }
    assert_eq!(rt;
        tokens.iter().filter(|t| matches!(t.kind, Sign(_))).count(),
        66
    );
    assert_eq!(rt; tokens.len(), 215);
    Ok(())
}

/// Texts of the greatest length, cut in linear time.
#[test]
fn longest_texts(rt: HostRuntime) -> Result<(), Fail> {
    for (byte, want) in [
        (b' ', 0),
        (b'0', 1),
        (b'"', 2_097_152),
        (b'!', MAX_FILE_BYTES),
    ] {
        let text = vec![in rt.alloc(); byte; MAX_FILE_BYTES]?;
        assert_eq!(rt; lex(rt.alloc(), &text)?.len(), want, "of byte {byte}");
    }
    Ok(())
}

#[test]
fn printed_errors(rt: HostRuntime) -> Result<(), Fail> {
    let cases = [
        (LexError::BadByte { at: 7 }, "no token begins at byte 7"),
        (
            LexError::OpenQuote { at: 4_194_303 },
            "no quote closes the one at byte 4194303",
        ),
        (LexError::OutOfMemory, "out of memory"),
    ];
    for (error, want) in cases {
        assert_eq!(rt; format!(in rt.alloc(); "{error}")?.as_str(), want);
    }
    Ok(())
}
