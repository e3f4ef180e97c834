//! The lines of the splits.

ghost use Rattle.std.specs.Prelude.{◌≡◌, ◌++◌, ◌∷◌, [], decimal, flat_map, slice_get, unwrap_or, OnOk, Some};
ghost use Rattle.work_report.specs.Report.{split_line, split_lines, split_text};

use crate::names::name_of;
use am_base::OutOfMemory;
use am_lists::{Bytes, Items};
use exec_core::Split;
use line_parts::{put_after, put_spaced};
use test_suite::Suite;

fn put_split(out: &mut Bytes, name: &[u8], split: &Split) -> Result<(), OutOfMemory>
    ensures { OnOk result (out.new ≡ out.old ++ split_line name.now split.now) }
{
    out.extend(b"split,")?;
    out.extend(name)?;
    put_after(out, b',', split.step)?;
    out.push(b',')?;
    put_spaced(out, split.parts.as_slice())?;
    out.push(b'\n')?;
    Ok(())
}

/// Returns the splits of test `t`, counted from 0.
fn splits_of(splits: &[Items<Split>], t: usize) -> &[Split]
    ensures { result.now ≡ unwrap_or (slice_get splits.now t) [] }
{
    match splits.get(t) {
        Some(list) => list.as_slice(),
        None => &[],
    }
}

/// Appends the lines of the splits of one test.
#[tactic(auto, using(crate::proofs::MoreLines::splits_more))]
fn put_list(out: &mut Bytes, name: &[u8], splits: &[Split]) -> Result<(), OutOfMemory>
    ensures { OnOk result (out.new ≡ out.old ++ flat_map (split_line name.now) splits.now) }
{
    'splits: for split in splits {
        put_split(out, name, split)?;
    }
    Ok(())
}

fn put_test(
    out: &mut Bytes,
    suite: &Suite,
    splits: &[Items<Split>],
    t: usize,
) -> Result<(), OutOfMemory>
    ensures { OnOk result (out.new ≡ out.old ++ split_lines suite.now splits.now t) }
{
    put_list(out, name_of(suite, t), splits_of(splits, t))
}

/// Appends the split lines of all tests.
pub(crate) fn put_splits(
    out: &mut Bytes,
    suite: &Suite,
    splits: &[Items<Split>],
) -> Result<(), OutOfMemory>
    ensures { OnOk result (out.new ≡ out.old ++ split_text suite.now (Some splits.now)) }
{
    'tests: for t in 0..splits.len() {
        put_test(out, suite, splits, t)?;
    }
    Ok(())
}
