//! How much room a value of a type takes.
ghost use Rattle.std.specs.Prelude.{◌≡◌, ◌<◌, ◌≤◌, Some, IfOk, false};
ghost use Rattle.std.specs.Option.{option_copied};
ghost use Rattle.am_base.specs.declared.limits.TheConstants.{MAX_TYPE_BYTES};
ghost use Rattle.type_layout.specs.Types.{size_of, align_of};
ghost use Rattle.type_table.specs.declared.shape.Extent.{Extent};
ghost use Rattle.ir_rules.specs.Types.{is_large, expanded};

use am_base::OutOfMemory;
use ir_tree::TyText;
use ir_types::Types;
use std::alloc::Global;
use type_table::Extent;

fn size_and_align(extent: Option<&Extent>) -> (u64, u64)
    ensures size { (e : Extent) → option_copied extent.entry ≡ Some e → result.0 ≡ e.size }
    ensures align { (e : Extent) → option_copied extent.entry ≡ Some e → result.1 ≡ e.align }
{
    match extent {
        None => (0, 1),
        Some(extent) => (extent.size, extent.align),
    }
}

/// Returns the size and the alignment of a type, in bytes.
pub fn room_of(alloc: Global, types: &mut Types<'_>, ty: &TyText) -> Result<(u64, u64), OutOfMemory>
    requires { is_large types.old.defs ty.now ≡ false }
    ensures defs { types.new.defs ≡ types.old.defs }
    ensures size { IfOk result (λ r. r.0 ≡ size_of (expanded types.old.defs ty.now)) }
    ensures align { IfOk result (λ r. r.1 ≡ align_of (expanded types.old.defs ty.now)) }
    ensures small { IfOk result (λ r. r.0 ≤ MAX_TYPE_BYTES) }
    ensures some { IfOk result (λ r. 0 < r.1) }
    ensures few { IfOk result (λ r. r.1 ≤ 8) }
{
    let number = types.number(alloc, ty)?;
    Ok(size_and_align(types.table().extent(number)))
}
