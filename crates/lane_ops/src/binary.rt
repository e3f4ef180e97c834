//! Operations on the words of all lanes, with the traps of each lane.
ghost use Rattle.std.specs.Prelude.{◌≡◌, ℕ, ◌<◌, ◌≤◌, length, take};
ghost use Rattle.std.specs.List.{All};
ghost use Rattle.std.specs.Simd.Lanes.{zip2};
ghost use Rattle.am_base.specs.Word.{IsWord};
ghost use Rattle.lane_ops.specs.Lane.{lane_word, lane_trap};

use crate::arithmetic::{Difference, Product, Sum};
use crate::bits::{AllSet, AnySet, OneSet};
use crate::blocks::blocks;
use crate::shifts::{ShiftLeft, ShiftRight, ShiftSigned};
use crate::words::Words;
use am_base::{BinOp, Width, binary};

/// The operation on the lanes of all whole blocks. Returns the index of the first lane that is
/// left, which is 0 for the operations that can trap.
fn word_blocks(op: BinOp, w: Width, a: &[u64], b: &[u64], out: &mut [u64]) -> usize
    requires right { length b.now ≡ length a.now }
    requires room { length out.old ≡ length a.now }
    requires left_words { All (IsWord w) a.now }
    requires right_words { All (IsWord w) b.now }
    ensures within { result ≤ length a.now }
    ensures words { take result out.new ≡
        zip2 (lane_word op w) (take result a.now) (take result b.now) }
    ensures traps { 0 < result → (x y : ℕ) → lane_trap op w x y ≡ 0 }
{
    match op {
        BinOp::Add => blocks(&Sum(Words::new(w)), a, b, out),
        BinOp::Sub => blocks(&Difference(Words::new(w)), a, b, out),
        BinOp::Mul => blocks(&Product(Words::new(w)), a, b, out),
        BinOp::Shl => blocks(&ShiftLeft(Words::new(w)), a, b, out),
        BinOp::LShr => blocks(&ShiftRight(w), a, b, out),
        BinOp::AShr => blocks(&ShiftSigned(Words::new(w)), a, b, out),
        BinOp::And => blocks(&AllSet(w), a, b, out),
        BinOp::Or => blocks(&AnySet(w), a, b, out),
        BinOp::Xor => blocks(&OneSet(w), a, b, out),
        BinOp::UDiv | BinOp::SDiv | BinOp::URem | BinOp::SRem => 0,
    }
}

/// The operation on the lanes from an index on, where those before it are done.
#[inline(always)]
fn single_lanes(
    op: BinOp,
    w: Width,
    a: &[u64],
    b: &[u64],
    out: &mut [u64],
    traps: &mut [u8],
    from: usize,
)
    requires right { length b.now ≡ length a.now }
    requires room { length out.old ≡ length a.now }
    requires trap_room { length traps.old ≡ length a.now }
    requires left_words { All (IsWord w) a.now }
    requires right_words { All (IsWord w) b.now }
    requires within { from ≤ length a.now }
    requires words_done { take from out.old ≡
        zip2 (lane_word op w) (take from a.now) (take from b.now) }
    requires traps_done { take from traps.old ≡
        zip2 (lane_trap op w) (take from a.now) (take from b.now) }
    ensures words { out.new ≡ zip2 (lane_word op w) a.now b.now }
    ensures traps { traps.new ≡ zip2 (lane_trap op w) a.now b.now }
{
    for i in from..a.len() {
        match binary(op, w, a[i], b[i]) {
            Ok(word) => {
                out[i] = word;
                traps[i] = 0;
            }
            Err(trap) => {
                out[i] = 0;
                traps[i] = trap.number() as u8;
            }
        }
    }
}

/// The same, with a loop of its own for each division, so that no lane picks the operation anew.
fn last_lanes(
    op: BinOp,
    w: Width,
    a: &[u64],
    b: &[u64],
    out: &mut [u64],
    traps: &mut [u8],
    from: usize,
)
    requires right { length b.now ≡ length a.now }
    requires room { length out.old ≡ length a.now }
    requires trap_room { length traps.old ≡ length a.now }
    requires left_words { All (IsWord w) a.now }
    requires right_words { All (IsWord w) b.now }
    requires within { from ≤ length a.now }
    requires words_done { take from out.old ≡
        zip2 (lane_word op w) (take from a.now) (take from b.now) }
    requires traps_done { take from traps.old ≡
        zip2 (lane_trap op w) (take from a.now) (take from b.now) }
    ensures words { out.new ≡ zip2 (lane_word op w) a.now b.now }
    ensures traps { traps.new ≡ zip2 (lane_trap op w) a.now b.now }
{
    match op {
        BinOp::UDiv => single_lanes(BinOp::UDiv, w, a, b, out, traps, from),
        BinOp::SDiv => single_lanes(BinOp::SDiv, w, a, b, out, traps, from),
        BinOp::URem => single_lanes(BinOp::URem, w, a, b, out, traps, from),
        BinOp::SRem => single_lanes(BinOp::SRem, w, a, b, out, traps, from),
        _ => single_lanes(op, w, a, b, out, traps, from),
    }
}

/// Writes for each lane the word that the operation on the word of `a` and the word of `b` gives,
/// and 0 into the lane of traps; where the operation traps, 0 and the number of the trap. Divisions
/// and remainders go lane by lane. LLVM Language Reference, "Binary Operations" and "Bitwise Binary
/// Operations"; the traps are this project's own. All slices have one length, and the words are of
/// width `w`. Takes no memory. O(n).
pub fn binary_lanes(op: BinOp, w: Width, a: &[u64], b: &[u64], out: &mut [u64], traps: &mut [u8])
    requires right { length b.now ≡ length a.now }
    requires room { length out.old ≡ length a.now }
    requires trap_room { length traps.old ≡ length a.now }
    requires left_words { All (IsWord w) a.now }
    requires right_words { All (IsWord w) b.now }
    ensures words { out.new ≡ zip2 (lane_word op w) a.now b.now }
    ensures traps { traps.new ≡ zip2 (lane_trap op w) a.now b.now }
{
    let at = word_blocks(op, w, a, b, out);
    traps[..at].fill(0);
    last_lanes(op, w, a, b, out, traps, at);
}
