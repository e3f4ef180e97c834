//! Layouts of structs with padding, worked out by hand.

ghost use Rattle.std.specs.Prelude.{◌≡◌, ◌≤◌, length, IfOk};
ghost use Rattle.type_layout.specs.Types.{layout_of};

use crate::{Ty, align_of, offset, size_of};
use am_base::{MAX_TYPE_BYTES, OutOfMemory, Width};
use sqlite_items::{Boxed, Items};
use std::alloc::Global;
use std::test::Fail;

/// `{ i8, [3 x i16], i32, i8 }`.
fn padded(alloc: Global) -> Result<Ty, OutOfMemory>
    ensures small { IfOk result (λ t. (layout_of t).most ≤ MAX_TYPE_BYTES) }
    ensures fields { IfOk result (λ t. length (layout_of t).offsets ≡ 4) }
{
    let halves = Boxed::new(alloc, Ty::Int(Width::W16))?;
    let mut fields = Items::new(alloc);
    fields.push(Ty::Int(Width::W8))?;
    fields.push(Ty::Array(3, halves))?;
    fields.push(Ty::Int(Width::W32))?;
    fields.push(Ty::Int(Width::W8))?;
    Ok(Ty::Struct(fields))
}

fn scalar(w: Width) -> (u64, u64) {
    let t = Ty::Int(w);
    (size_of(&t), align_of(&t))
}

#[test]
fn lays_out_types(rt: HostRuntime) -> Result<(), Fail> {
    assert_eq!(rt; scalar(Width::W1), (1, 1));
    assert_eq!(rt; scalar(Width::W16), (2, 2));
    assert_eq!(rt; scalar(Width::W64), (8, 8));

    // a hole of one byte before the halves, none before the word, and three at the end
    let t = padded(rt.alloc())?;
    assert_eq!(rt; offset(&t, 0), 0);
    assert_eq!(rt; offset(&t, 1), 2);
    assert_eq!(rt; offset(&t, 2), 8);
    assert_eq!(rt; offset(&t, 3), 12);
    assert_eq!(rt; size_of(&t), 16);
    assert_eq!(rt; align_of(&t), 4);
    Ok(())
}
