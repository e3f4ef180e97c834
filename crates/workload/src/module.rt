//! The module of a workload.

ghost use Rattle.std.specs.Prelude.{◌≡◌, ◌++◌, ◌<◌, IfOk, OnOk};
ghost use Rattle.workload.specs.Workload.{mask_line, mask_lines, module_head, module_tail};
ghost use Rattle.workload.specs.Workload as spec;

use am_base::OutOfMemory;
use am_lists::Bytes;
use line_parts::put_number;
use std::alloc::Global;

/// Appends the mask behind the one of number `j`.
fn put_mask(out: &mut Bytes, j: u64) -> Result<(), OutOfMemory>
    requires { j < 999 }
    ensures { OnOk result (out.new ≡ out.old ++ mask_line j) }
{
    out.extend(b"  %x")?;
    put_number(out, j + 1)?;
    out.extend(b" = and i32 %x")?;
    put_number(out, j)?;
    out.extend(b", 127\n")?;
    Ok(())
}

/// Appends the masks behind the first one.
#[tactic(auto, using(crate::proofs::More::masks_none, crate::proofs::More::masks_more))]
fn put_masks(out: &mut Bytes) -> Result<(), OutOfMemory>
    ensures { OnOk result (out.new ≡ out.old ++ mask_lines 999) }
{
    'masks: for j in 0..999 {
        put_mask(out, j)?;
    }
    Ok(())
}

/// Appends the lines before the masks behind the first one.
fn put_head(out: &mut Bytes) -> Result<(), OutOfMemory>
    ensures { OnOk result (out.new ≡ out.old ++ module_head) }
{
    out.extend(b"define i32 @l() {\nentry:\n  br label %loop\nloop:\n")?;
    out.extend(b"  %i = phi i32 [ 0, %entry ], [ %j, %loop ]\n  %x0 = and i32 %i, 127\n")?;
    Ok(())
}

/// Appends the lines behind the masks.
fn put_tail(out: &mut Bytes) -> Result<(), OutOfMemory>
    ensures { OnOk result (out.new ≡ out.old ++ module_tail) }
{
    out.extend(b"  %j = add i32 %i, 1\n  %c = icmp ult i32 %j, 99\n")?;
    out.extend(b"  br i1 %c, label %loop, label %done\ndone:\n  ret i32 %x999\n}\n")?;
    Ok(())
}

/// Returns the module: one function without parameters, which goes 99 rounds through 1,000 masks.
pub(crate) fn module_text(alloc: Global) -> Result<Bytes, OutOfMemory>
    ensures { IfOk result (λ text. text ≡ spec.module_text) }
{
    let mut out = Bytes::new(alloc);
    put_head(&mut out)?;
    put_masks(&mut out)?;
    put_tail(&mut out)?;
    Ok(out)
}
