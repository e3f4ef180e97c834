//! The list of mutants of a workload.

ghost use Rattle.std.specs.Prelude.{◌≡◌, ◌++◌, ◌<◌, IfOk, OnOk};
ghost use Rattle.workload.specs.Workload.{masked, records, remainder_record, wider_record};
ghost use Rattle.workload.specs.Workload as spec;

use am_base::OutOfMemory;
use am_lists::Bytes;
use line_parts::put_number;
use std::alloc::Global;

/// Appends what the mask of number `k` stands on.
fn put_masked(out: &mut Bytes, k: u64) -> Result<(), OutOfMemory>
    ensures { OnOk result (out.new ≡ out.old ++ masked k) }
{
    if k == 0 {
        out.extend(b"%i")?;
    } else {
        out.extend(b"%x")?;
        put_number(out, k - 1)?;
    }
    Ok(())
}

/// The divisor in the place of the mask of number `k`.
fn divisor(n: u64, k: u64) -> u64
    ensures { result ≡ spec.divisor n k }
{
    if k % 100 == (100 - n % 100) % 100 {
        10
    } else {
        1000
    }
}

/// Appends the record that makes the mask of number `k` wider.
fn put_wider(out: &mut Bytes, k: u64) -> Result<(), OutOfMemory>
    requires { k < 1000 }
    ensures { OnOk result (out.new ≡ out.old ++ wider_record k) }
{
    out.extend(b"l;")?;
    put_number(out, k + 3)?;
    out.extend(b";and i32 ")?;
    put_masked(out, k)?;
    out.extend(b", 255\n")?;
    Ok(())
}

/// Appends the record that makes a remainder of the mask of number `k`.
fn put_remainder(out: &mut Bytes, n: u64, k: u64) -> Result<(), OutOfMemory>
    requires { k < 1000 }
    ensures { OnOk result (out.new ≡ out.old ++ remainder_record n k) }
{
    out.extend(b"l;")?;
    put_number(out, k + 3)?;
    out.extend(b";urem i32 ")?;
    put_masked(out, k)?;
    out.extend(b", ")?;
    put_number(out, divisor(n, k))?;
    out.push(b'\n')?;
    Ok(())
}

/// Appends the records of all masks.
#[tactic(auto, using(crate::proofs::More::records_none, crate::proofs::More::records_more))]
fn put_records(out: &mut Bytes, n: u64) -> Result<(), OutOfMemory>
    ensures { OnOk result (out.new ≡ out.old ++ records n 1000) }
{
    'masks: for k in 0..1000 {
        put_wider(out, k)?;
        put_remainder(out, n, k)?;
    }
    Ok(())
}

/// The list of mutants: two for each mask of the module.
pub(crate) fn mutants_text(alloc: Global, n: u64) -> Result<Bytes, OutOfMemory>
    ensures { IfOk result (λ text. text ≡ spec.mutants_text n) }
{
    let mut out = Bytes::new(alloc);
    out.extend(b"function;instruction;replacement\n")?;
    put_records(&mut out, n)?;
    Ok(out)
}
