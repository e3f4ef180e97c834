//! Each kernel against its plain formula, at lengths around its blocks, with the words 0, 1, the
//! least and the greatest of a width in the first and in the last lane.
ghost use Rattle.std.specs.Prelude.{◌≡◌, ◌≤◌, ◌↔◌, IsTrue, length, IfOk};
ghost use Rattle.std.specs.List.{All};
ghost use Rattle.am_base.specs.Word.{IsWord};

use crate::{and_not_planes, and_planes, binary_lanes, compare_lanes, equal_mask, page_differs};
use am_base::{BinOp, Pred, Width, binary, compare};
use std::alloc::{AllocError, Global};
use std::process::Abort;
use std::test::Fail;

/// No lane, one lane, and lanes around one block of 8, one of 32 and one of 64.
const LENGTHS: [usize; 12] = [0, 1, 7, 8, 9, 31, 32, 33, 63, 64, 65, 1_000];

/// 0, 1, the word of the least signed value, and the word of -1.
const WORDS: [(Width, [u64; 4]); 5] = [
    (Width::W1, [0, 1, 1, 1]),
    (Width::W8, [0, 1, 0x80, 0xff]),
    (Width::W16, [0, 1, 0x8000, 0xffff]),
    (Width::W32, [0, 1, 0x8000_0000, 0xffff_ffff]),
    (Width::W64, [0, 1, 0x8000_0000_0000_0000, u64::MAX]),
];

const OPERATIONS: [BinOp; 13] = [
    BinOp::Add,
    BinOp::Sub,
    BinOp::Mul,
    BinOp::UDiv,
    BinOp::SDiv,
    BinOp::URem,
    BinOp::SRem,
    BinOp::Shl,
    BinOp::LShr,
    BinOp::AShr,
    BinOp::And,
    BinOp::Or,
    BinOp::Xor,
];

const COMPARISONS: [Pred; 10] = [
    Pred::Eq,
    Pred::Ne,
    Pred::Ugt,
    Pred::Uge,
    Pred::Ult,
    Pred::Ule,
    Pred::Sgt,
    Pred::Sge,
    Pred::Slt,
    Pred::Sle,
];

fn is_word(w: Width, a: u64) -> bool
    ensures { IsTrue result ↔ IsWord w a }
{
    match w {
        Width::W1 => a < 2,
        Width::W8 => a < 0x100,
        Width::W16 => a < 0x1_0000,
        Width::W32 => a < 0x1_0000_0000,
        Width::W64 => true,
    }
}

/// That many words, of which all but the last are `first`.
fn lanes(alloc: Global, w: Width, len: usize, first: u64, last: u64) -> Result<Vec<u64>, AllocError>
    requires first_word { IsWord w first }
    requires last_word { IsWord w last }
    ensures len { IfOk result (λ words. length words.items ≡ len) }
    ensures words { IfOk result (λ words. All (IsWord w) words.items) }
{
    let mut words = Vec::with_capacity(alloc, len)?;
    'lanes: for lane in 0..len {
        words.push(if lane + 1 == len { last } else { first })?;
    }
    Ok(words)
}

/// That many words that no kernel leaves as they are.
fn room(alloc: Global, len: usize) -> Result<Vec<u64>, AllocError>
    ensures { IfOk result (λ words. length words.items ≡ len) }
{
    let mut words = Vec::new(alloc);
    words.resize(len, 0xdead)?;
    Ok(words)
}

fn check_binary(
    rt: &impl Abort,
    alloc: Global,
    op: BinOp,
    w: Width,
    a: &[u64],
    b: &[u64],
) -> Result<(), AllocError>
    requires right { length b.now ≡ length a.now }
    requires left_words { All (IsWord w) a.now }
    requires right_words { All (IsWord w) b.now }
{
    let mut out = room(alloc, a.len())?;
    let mut traps = Vec::new(alloc);
    traps.resize(a.len(), 99)?;
    binary_lanes(op, w, a, b, &mut out, &mut traps);
    'lanes: for i in 0..a.len() {
        let want = match binary(op, w, a[i], b[i]) {
            Ok(word) => (word, 0),
            Err(trap) => (0, trap.number() as u8),
        };
        assert_eq!(rt; (out[i], traps[i]), want, "{op:?} {w:?} {i}");
    }
    Ok(())
}

fn check_compare(
    rt: &impl Abort,
    alloc: Global,
    pred: Pred,
    w: Width,
    a: &[u64],
    b: &[u64],
) -> Result<(), AllocError>
    requires right { length b.now ≡ length a.now }
    requires left_words { All (IsWord w) a.now }
    requires right_words { All (IsWord w) b.now }
{
    let mut out = room(alloc, a.len())?;
    compare_lanes(pred, w, a, b, &mut out);
    'lanes: for i in 0..a.len() {
        let want = u64::from(compare(pred, w, a[i], b[i]));
        assert_eq!(rt; out[i], want, "{pred:?} {w:?} {i}");
    }
    Ok(())
}

fn check_planes(rt: &impl Abort, alloc: Global, a: &[u64], b: &[u64]) -> Result<(), AllocError>
    requires { length b.now ≡ length a.now }
{
    let mut both = room(alloc, a.len())?;
    let mut first = room(alloc, a.len())?;
    and_planes(a, b, &mut both);
    and_not_planes(a, b, &mut first);
    'lanes: for i in 0..a.len() {
        assert_eq!(rt; (both[i], first[i]), (a[i] & b[i], a[i] & !b[i]), "{i}");
    }
    Ok(())
}

/// The bits past the last word are clear.
fn check_mask(rt: &impl Abort, alloc: Global, a: &[u64], x: u64) -> Result<(), AllocError>
    requires { length a.now ≤ 1000 }
{
    let mut out = room(alloc, a.len().div_ceil(64))?;
    equal_mask(a, x, &mut out);
    'bits: for i in 0..64 * out.len() {
        let bit = out[i / 64] >> (i % 64) & 1;
        assert_eq!(rt; bit == 1, i < a.len() && a[i] == x, "{i}");
    }
    Ok(())
}

fn check_operations(
    rt: &impl Abort,
    alloc: Global,
    w: Width,
    a: &[u64],
    b: &[u64],
) -> Result<(), AllocError>
    requires right { length b.now ≡ length a.now }
    requires left_words { All (IsWord w) a.now }
    requires right_words { All (IsWord w) b.now }
{
    'operations: for op in &OPERATIONS {
        check_binary(rt, alloc, *op, w, a, b)?;
    }
    Ok(())
}

fn check_comparisons(
    rt: &impl Abort,
    alloc: Global,
    w: Width,
    a: &[u64],
    b: &[u64],
) -> Result<(), AllocError>
    requires right { length b.now ≡ length a.now }
    requires left_words { All (IsWord w) a.now }
    requires right_words { All (IsWord w) b.now }
{
    'comparisons: for pred in &COMPARISONS {
        check_compare(rt, alloc, *pred, w, a, b)?;
    }
    Ok(())
}

fn check_lengths(
    rt: &impl Abort,
    alloc: Global,
    w: Width,
    first: u64,
    last: u64,
) -> Result<(), AllocError>
    requires first_word { IsWord w first }
    requires last_word { IsWord w last }
{
    'lengths: for len in &LENGTHS {
        let a = lanes(alloc, w, *len, first, last)?;
        let b = lanes(alloc, w, *len, last, first)?;
        check_operations(rt, alloc, w, &a, &b)?;
        check_comparisons(rt, alloc, w, &a, &b)?;
        check_planes(rt, alloc, &a, &b)?;
        assert!(rt; *len <= 1_000);
        check_mask(rt, alloc, &a, last)?;
    }
    Ok(())
}

/// Each pair of these words.
fn check_words(
    rt: &impl Abort,
    alloc: Global,
    w: Width,
    words: &[u64; 4],
) -> Result<(), AllocError> {
    'pairs: for pair in 0..16usize {
        let (first, last) = (words[pair / 4], words[pair % 4]);
        assert!(rt; is_word(w, first) && is_word(w, last));
        check_lengths(rt, alloc, w, first, last)?;
    }
    Ok(())
}

#[test]
fn words_and_masks(rt: HostRuntime) -> Result<(), Fail> {
    for (w, words) in &WORDS {
        check_words(&rt, rt.alloc(), *w, words)?;
    }
    Ok(())
}

/// Two lists that differ in their first byte, in their last one, or not at all.
#[test]
fn pages_that_differ(rt: HostRuntime) -> Result<(), Fail> {
    for len in &LENGTHS {
        let mut page = Vec::new(rt.alloc());
        page.resize(*len, 5u8)?;
        let mut other = page.clone()?;
        assert!(rt; !page_differs(&page, &other));
        if let Some(byte) = other.get_mut(0) {
            *byte = 6;
            assert!(rt; page_differs(&page, &other), "{len}");
        }
        if let Some(byte) = page.get_mut(0) {
            *byte = 6;
        }
        if let Some(byte) = page.last_mut() {
            *byte = 7;
            assert!(rt; page_differs(&page, &other), "{len}");
        }
    }
    Ok(())
}
