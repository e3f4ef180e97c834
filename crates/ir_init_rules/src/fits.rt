//! The rule on initialisers.
ghost use Rattle.std.specs.Prelude.{◌≡◌, ◌&&◌, ◌<◌, length, IfOk};
ghost use Rattle.type_layout.specs.declared.ty.Ty.{out-Ty};
ghost use Rattle.type_table.specs.Table.{Keeps, type_at};
ghost use Rattle.ir_rules.specs.Initialisers as rule;
ghost use Rattle.ir_type_rules.specs.Alone.{types_alone};
ghost use Rattle.ir_init_rules.specs.Levels as levels;
ghost use Rattle.ir_init_rules.specs.Fits as spec;

use crate::levels::{constant_fits, is_array_of, is_struct_of, kind_at, part_at, text_fits};
use crate::same::same_types;
use am_base::OutOfMemory;
use ir_tree::{Init, Item, TyText};
use ir_types::Types;
use std::alloc::Global;

fn both(a: bool, b: bool) -> bool
    ensures { result ≡ (a && b) }
{
    a && b
}

/// Whether an initialiser fits the type with a number. It takes time about linear in the
/// initialiser.
#[cycle(fits)]
fn init_fits(
    alloc: Global,
    types: &mut Types<'_>,
    init: &Init,
    n: usize,
) -> Result<bool, OutOfMemory>
    requires { n < length types.old.types }
    ensures defs { types.new.defs ≡ types.old.defs }
    ensures kept { Keeps types.old.types types.new.types }
    ensures fits { IfOk result (λ b. b ≡ rule.init_fits types.old.defs init.now (type_at types.old.types n)) }
{
    match init {
        Init::One(a) => Ok(constant_fits(kind_at(types.table(), n), a)),
        Init::Text(text) => Ok(text_fits(types.table(), text.as_slice(), n)),
        Init::Array(elements) => {
            let list = elements.as_slice();
            let whole = is_array_of(types.table(), list.len(), n);
            elements_fit(alloc, types, whole, list, n)
        }
        Init::Struct(fields) => {
            let list = fields.as_slice();
            let whole = is_struct_of(types.table(), list.len(), n);
            elements_fit(alloc, types, whole, list, n)
        }
    }
}

/// Whether each element fits its part of the type with a number, and something else holds too. It
/// ends at the first element that doesn't fit, so at most one walk along two types that differ is
/// made.
#[cycle(fits)]
fn elements_fit(
    alloc: Global,
    types: &mut Types<'_>,
    whole: bool,
    elements: &[(TyText, Init)],
    n: usize,
) -> Result<bool, OutOfMemory>
    requires { n < length types.old.types }
    ensures defs { types.new.defs ≡ types.old.defs }
    ensures kept { Keeps types.old.types types.new.types }
    ensures fits { IfOk result (λ b. b ≡ (whole && spec.elements_fit types.old.defs
        (levels.part_type (out-Ty (type_at types.old.types n))) elements.now)) }
{
    let mut fits = whole;
    'each: for (k, element) in elements.iter().enumerate() {
        if !fits {
            return Ok(false);
        }
        let here = element_fits(alloc, types, element, n, k)?;
        fits = both(fits, here);
    }
    Ok(fits)
}

/// Whether an element fits part `k` of the type with a number.
#[cycle(fits)]
fn element_fits(
    alloc: Global,
    types: &mut Types<'_>,
    element: &(TyText, Init),
    n: usize,
    k: usize,
) -> Result<bool, OutOfMemory>
    requires { n < length types.old.types }
    ensures defs { types.new.defs ≡ types.old.defs }
    ensures kept { Keeps types.old.types types.new.types }
    ensures fits { IfOk result (λ b. b ≡ spec.element_fits types.old.defs
        (levels.part_type (out-Ty (type_at types.old.types n)) k) element.now) }
{
    match part_at(types.table(), n, k) {
        None => Ok(false),
        Some(wanted) => {
            let own = types.number(alloc, &element.0)?;
            let same = same_types(types.table(), own, wanted);
            let fits = init_fits(alloc, types, &element.1, wanted)?;
            Ok(both(same, fits))
        }
    }
}

/// Whether the item is a global whose initialiser doesn't fit its type.
pub fn init_differs(alloc: Global, types: &mut Types<'_>, item: &Item) -> Result<bool, OutOfMemory>
    ensures defs { types.new.defs ≡ types.old.defs }
    ensures broken { IfOk result (λ b. b ≡ rule.init_differs (types_alone types.old.defs) item.now) }
{
    match item {
        Item::Global(_, _, ty, init) => {
            let number = types.number(alloc, ty)?;
            let fits = init_fits(alloc, types, init, number)?;
            Ok(!fits)
        }
        _ => Ok(false),
    }
}
