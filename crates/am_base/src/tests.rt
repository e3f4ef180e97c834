//! Operations at the edges of their words, and shelves and sinks that fail in mid-stream.
ghost use Rattle.std.specs.Prelude.{◌↔◌, IsTrue};
ghost use Rattle.am_base.specs.Word.{IsWord};

use super::*;
use std::alloc::{AllocError, Global};
use std::process::Abort;
use std::test::Fail;

/// Words of a width that tell most: a quarter of the range, the greatest signed value, the least,
/// and the greatest word.
struct Words {
    width: Width,
    quarter: u64,
    most: u64,
    least: u64,
    all: u64,
}

const WORDS: [Words; 4] = [
    Words {
        width: Width::W8,
        quarter: 0x40,
        most: 0x7f,
        least: 0x80,
        all: 0xff,
    },
    Words {
        width: Width::W16,
        quarter: 0x4000,
        most: 0x7fff,
        least: 0x8000,
        all: 0xffff,
    },
    Words {
        width: Width::W32,
        quarter: 0x4000_0000,
        most: 0x7fff_ffff,
        least: 0x8000_0000,
        all: 0xffff_ffff,
    },
    Words {
        width: Width::W64,
        quarter: 0x4000_0000_0000_0000,
        most: 0x7fff_ffff_ffff_ffff,
        least: 0x8000_0000_0000_0000,
        all: 0xffff_ffff_ffff_ffff,
    },
];

fn is_word(w: Width, a: u64) -> bool
    ensures { IsTrue result ↔ IsWord w a }
{
    match w {
        Width::W1 => a < 2,
        Width::W8 => a < 0x100,
        Width::W16 => a < 0x1_0000,
        Width::W32 => a < 0x1_0000_0000,
        Width::W64 => true,
    }
}

type Row = (BinOp, u64, u64, Result<u64, Trap>);

fn check_rows(rt: &impl Abort, width: Width, rows: &[Row]) {
    for (op, a, b, want) in rows {
        let (op, a, b) = (*op, *a, *b);
        assert!(rt; is_word(width, a) && is_word(width, b));
        assert_eq!(rt; binary(op, width, a, b), *want, "{op:?} {width:?} {a} {b}");
    }
}

fn arithmetic(w: &Words) -> [Row; 20] {
    let (most, least, all) = (w.most, w.least, w.all);
    [
        (BinOp::Add, all, 1, Ok(0)),
        (BinOp::Add, most, 1, Ok(least)),
        (BinOp::Add, least, least, Ok(0)),
        (BinOp::Sub, 0, 1, Ok(all)),
        (BinOp::Sub, least, 1, Ok(most)),
        (BinOp::Sub, 1, all, Ok(2)),
        (BinOp::Mul, all, all, Ok(1)),
        (BinOp::Mul, least, all, Ok(least)),
        (BinOp::UDiv, all, least, Ok(1)),
        (BinOp::UDiv, least, all, Ok(0)),
        (BinOp::UDiv, 1, 0, Err(Trap::DivideByZero)),
        (BinOp::SDiv, all, least, Ok(0)),
        (BinOp::SDiv, 1, all, Ok(all)),
        (BinOp::SDiv, least, all, Err(Trap::DivideOverflow)),
        (BinOp::SDiv, least, 0, Err(Trap::DivideByZero)),
        (BinOp::URem, all, least, Ok(most)),
        (BinOp::URem, 0, 0, Err(Trap::DivideByZero)),
        (BinOp::SRem, least, most, Ok(all)),
        (BinOp::SRem, least, all, Err(Trap::DivideOverflow)),
        (BinOp::SRem, all, 0, Err(Trap::DivideByZero)),
    ]
}

fn bits_and_shifts(w: &Words) -> [Row; 15] {
    let (quarter, most, least, all) = (w.quarter, w.most, w.least, w.all);
    [
        (BinOp::Shl, 1, 1, Ok(2)),
        (BinOp::Shl, quarter, 1, Ok(least)),
        (BinOp::Shl, least, 1, Ok(0)),
        (BinOp::Shl, all, least, Ok(0)),
        (BinOp::LShr, all, 1, Ok(most)),
        (BinOp::LShr, all, all, Ok(0)),
        (BinOp::AShr, least, 1, Ok(least | quarter)),
        (BinOp::AShr, least, all, Ok(all)),
        (BinOp::AShr, most, all, Ok(0)),
        (BinOp::And, all, least, Ok(least)),
        (BinOp::And, most, least, Ok(0)),
        (BinOp::Or, most, least, Ok(all)),
        (BinOp::Or, 0, 1, Ok(1)),
        (BinOp::Xor, all, least, Ok(most)),
        (BinOp::Xor, all, all, Ok(0)),
    ]
}

/// At one bit the word 1 is the least signed value and -1 at once.
const ONE_BIT: [Row; 15] = [
    (BinOp::Add, 1, 1, Ok(0)),
    (BinOp::Sub, 0, 1, Ok(1)),
    (BinOp::Mul, 1, 1, Ok(1)),
    (BinOp::UDiv, 1, 1, Ok(1)),
    (BinOp::UDiv, 1, 0, Err(Trap::DivideByZero)),
    (BinOp::SDiv, 0, 1, Ok(0)),
    (BinOp::SDiv, 1, 1, Err(Trap::DivideOverflow)),
    (BinOp::URem, 1, 1, Ok(0)),
    (BinOp::SRem, 1, 1, Err(Trap::DivideOverflow)),
    (BinOp::Shl, 1, 1, Ok(0)),
    (BinOp::LShr, 1, 1, Ok(0)),
    (BinOp::AShr, 1, 1, Ok(1)),
    (BinOp::And, 1, 0, Ok(0)),
    (BinOp::Or, 1, 0, Ok(1)),
    (BinOp::Xor, 1, 1, Ok(0)),
];

#[test]
fn operates(rt: HostRuntime) {
    check_rows(&rt, Width::W1, &ONE_BIT);
    for words in &WORDS {
        check_rows(&rt, words.width, &arithmetic(words));
        check_rows(&rt, words.width, &bits_and_shifts(words));
    }
}

/// Each comparison of two equal words, of -1 and 0, of 1 and -1, and of 1 and 0.
const COMPARISONS: [(Pred, [bool; 4]); 10] = [
    (Pred::Eq, [true, false, false, false]),
    (Pred::Ne, [false, true, true, true]),
    (Pred::Ugt, [false, true, false, true]),
    (Pred::Uge, [true, true, false, true]),
    (Pred::Ult, [false, false, true, false]),
    (Pred::Ule, [true, false, true, false]),
    (Pred::Sgt, [false, false, true, true]),
    (Pred::Sge, [true, false, true, true]),
    (Pred::Slt, [false, true, false, false]),
    (Pred::Sle, [true, true, false, false]),
];

fn check_comparison(rt: &impl Abort, pred: Pred, width: Width, pair: (u64, u64), want: bool) {
    let (a, b) = pair;
    assert!(rt; is_word(width, a) && is_word(width, b));
    assert_eq!(rt;
        compare(pred, width, a, b),
        want,
        "{pred:?} {width:?} {a} {b}"
    );
}

fn check_width(rt: &impl Abort, pred: Pred, words: &Words, want: &[bool; 4]) {
    let (least, all) = (words.least, words.all);
    let pairs = [(least, least), (all, 0), (1, all), (1, 0)];
    for (pair, want) in pairs.iter().zip(want) {
        check_comparison(rt, pred, words.width, *pair, *want);
    }
}

/// At one bit the words 1 and 0 are -1 and 0.
#[test]
fn compares(rt: HostRuntime) {
    for (pred, want) in &COMPARISONS {
        check_comparison(&rt, *pred, Width::W1, (1, 1), want[0]);
        check_comparison(&rt, *pred, Width::W1, (1, 0), want[1]);
        for words in &WORDS {
            check_width(&rt, *pred, words, want);
        }
    }
}

const CONVERSIONS: [(Cast, Width, Width, u64, u64); 16] = [
    (Cast::Trunc, Width::W8, Width::W1, 0xff, 1),
    (Cast::Trunc, Width::W16, Width::W8, 0x8000, 0),
    (Cast::Trunc, Width::W32, Width::W16, 0x1_8000, 0x8000),
    (Cast::Trunc, Width::W64, Width::W32, u64::MAX, 0xffff_ffff),
    (Cast::ZExt, Width::W1, Width::W8, 1, 1),
    (Cast::ZExt, Width::W8, Width::W64, 0x80, 0x80),
    (Cast::ZExt, Width::W32, Width::W64, 0xffff_ffff, 0xffff_ffff),
    (Cast::SExt, Width::W1, Width::W8, 1, 0xff),
    (Cast::SExt, Width::W8, Width::W16, 0x80, 0xff80),
    (Cast::SExt, Width::W16, Width::W32, 0x7fff, 0x7fff),
    (
        Cast::SExt,
        Width::W32,
        Width::W64,
        0x8000_0000,
        0xffff_ffff_8000_0000,
    ),
    (Cast::SExt, Width::W8, Width::W64, 0xff, u64::MAX),
    (Cast::PtrToInt, Width::W64, Width::W8, 0x1_00ff, 0xff),
    (Cast::PtrToInt, Width::W64, Width::W64, u64::MAX, u64::MAX),
    (Cast::IntToPtr, Width::W8, Width::W64, 0xff, 0xff),
    (Cast::IntToPtr, Width::W64, Width::W64, 1, 1),
];

#[test]
fn converts(rt: HostRuntime) {
    for (cast, from, to, a, want) in &CONVERSIONS {
        assert!(rt; is_word(*from, *a));
        assert_eq!(rt;
            convert(*cast, *from, *to, *a),
            *want,
            "{cast:?} {from:?} {to:?} {a}"
        );
    }
}

/// A shelf of one file of this many bytes 7, whose call of this number fails.
fn shelf_of(alloc: Global, length: usize, failing: u64) -> Result<MemoryShelf, AllocError> {
    let mut files = Vec::new(alloc);
    files.push(("a".to_string(alloc)?, vec![in alloc; 7; length]?))?;
    Ok(MemoryShelf::new(files, [failing].to_vec(alloc)?))
}

/// The length of a file, the number of the call that fails, and what `read_whole` answers.
type ReadRow = (usize, u64, Result<usize, ReadFailed>);

const READS: [ReadRow; 6] = [
    (3, 1, Err(ReadFailed::Fault)),
    (3, 2, Err(ReadFailed::Fault)),
    (3, 3, Ok(3)),
    (0, 2, Ok(0)),
    (MAX_FILE_BYTES, 3, Ok(MAX_FILE_BYTES)),
    (MAX_FILE_BYTES + 1, 2, Err(ReadFailed::TooLong)),
];

/// Whether `read_whole` answers as the row says, with bytes 7 alone.
fn reads(alloc: Global, row: &ReadRow) -> Result<bool, AllocError> {
    let mut into = vec![in alloc; 0; MAX_FILE_BYTES + 1]?;
    let mut shelf = shelf_of(alloc, row.0, row.1)?;
    let answer = read_whole(&mut shelf, "a", into.as_mut_slice());
    let count = answer.unwrap_or(0);
    Ok(answer == row.2 && into.iter().take(count).all(|byte| *byte == 7))
}

#[test]
fn reads_whole_files(rt: HostRuntime) -> Result<(), Fail> {
    for row in &READS {
        assert!(rt; reads(rt.alloc(), row)?, "{row:?}");
    }
    Ok(())
}

/// The room of a sink, the bytes after which it fails, a text, whether it is taken whole, and the
/// bytes that were written then.
type WriteRow = (usize, Option<u64>, &'static str, bool, &'static str);

const WRITES: [WriteRow; 6] = [
    (8, None, "abcdef", true, "abcdef"),
    (6, None, "abcdef", true, "abcdef"),
    (5, None, "abcdef", false, "abcde"),
    (8, Some(4), "abcdef", false, "abcd"),
    (8, Some(0), "a", false, ""),
    (0, Some(0), "", true, ""),
];

/// Whether `write_whole` ends as the row says.
fn writes(alloc: Global, row: &WriteRow) -> Result<bool, OutOfMemory> {
    let mut sink = MemorySink::new(alloc, row.0, row.1)?;
    let answer = write_whole(&mut sink, row.2.as_bytes());
    Ok(answer.is_ok() == row.3 && sink.written() == row.4.as_bytes())
}

#[test]
fn writes_whole_texts(rt: HostRuntime) -> Result<(), Fail> {
    for row in &WRITES {
        assert!(rt; writes(rt.alloc(), row)?, "{row:?}");
    }
    Ok(())
}

const TRAPS: [Trap; 12] = [
    Trap::DivideByZero,
    Trap::DivideOverflow,
    Trap::AddressRange,
    Trap::ConstantWrite,
    Trap::UnsetRegister,
    Trap::Unreachable,
    Trap::Abort,
    Trap::DepthFull,
    Trap::RegistersFull,
    Trap::MemoryFull,
    Trap::OutputFull,
    Trap::PortRefused,
];

#[test]
fn numbers_traps(rt: HostRuntime) {
    for (number, trap) in (1..).zip(&TRAPS) {
        assert_eq!(rt; trap.number(), number, "{trap:?}");
    }
}
