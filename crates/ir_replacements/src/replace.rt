//! A replacement in a place of the code.
ghost use Rattle.std.specs.Prelude.{◌≡◌, IfOk};
ghost use Rattle.ir_rules.specs.Codes as codes;
ghost use Rattle.ir_rules.specs.Replacements.{replacement_by};
ghost use Rattle.ir_op_codes.specs.Alone.{code_alone};
ghost use Rattle.ir_op_codes.specs.Settings.{OpFits};
ghost use Rattle.ir_replacements.specs.Prepared.{HasFew, IsItemOf, IsPrepared, replaced};

use crate::breaks::{Around, breaks_rule};
use crate::places::{Places, Spot};
use crate::shapes::differs;
use am_base::OutOfMemory;
use code_form::{Instr, Place};
use ir_call_rules::Ports;
use ir_names::NameTable;
use ir_op_codes::{Names, op_code};
use ir_pass::Frame;
use ir_rules::Entity;
use ir_scopes::KindTable;
use ir_tree::{Item, Op};
use ir_types::Types;
use std::alloc::Global;

/// What is known of a module, its types aside.
#[derive(Drop)]
pub struct Prepared<'a> {
    /// The items of the module.
    pub items: &'a [Item],
    /// The integers and pointers that types stand for.
    pub kinds: KindTable,
    /// The global names, each by its first definition.
    pub entities: NameTable<Entity>,
    /// The ports that are handed in.
    pub ports: Ports<'a>,
    /// The addresses of the globals.
    pub addresses: NameTable<u64>,
    /// The instructions by their places, each with its function.
    pub places: Places<'a>,
}

/// Returns the code of an instruction that stands in a function.
fn code_in(
    alloc: Global,
    types: &mut Types<'_>,
    known: &Prepared<'_>,
    frame: &Frame,
    op: &Op,
) -> Result<Instr, OutOfMemory>
    requires few { HasFew known.now frame.now }
    requires fits { OpFits types.old.defs op.now }
    ensures defs { types.new.defs ≡ types.old.defs }
    ensures code { let s = code_alone types.old.defs frame.now.function.table known.now.entities known.now.ports in
        IfOk result (λ i. i ≡ codes.op_code s known.now.addresses op.now) }
{
    let names = Names {
        locals: &frame.function.table,
        entities: &known.entities,
        ports: &known.ports,
        addresses: &known.addresses,
    };
    let code = op_code(alloc, types, &names, op);
    let Names {
        locals: _,
        entities: _,
        ports: _,
        addresses: _,
    } = names;
    code
}

/// Returns the instruction that `op`, by itself the item `item`, is in the place of the one at a
/// spot. `None` iff it is of another kind, or breaks a rule there.
fn replaced_at(
    alloc: Global,
    types: &mut Types<'_>,
    known: &Prepared<'_>,
    frame: &Frame,
    spot: &Spot<'_>,
    item: &Item,
    op: &Op,
) -> Result<Option<Instr>, OutOfMemory>
    requires few { HasFew known.now frame.now }
    requires instruction { IsItemOf item.now op.now }
    ensures defs { types.new.defs ≡ types.old.defs }
    ensures found { IfOk result (λ found.
        found ≡ replaced types.old.defs known.now frame.now spot.now item.now op.now) }
{
    if differs(&known.kinds, spot.op, &spot.labels, op) {
        return Ok(None);
    }
    let around = Around {
        kinds: &known.kinds,
        entities: &known.entities,
        ports: &known.ports,
        locals: &frame.function.table,
        result: frame.result,
    };
    if breaks_rule(alloc, types, &around, item, op)? {
        return Ok(None);
    }
    Ok(Some(code_in(alloc, types, known, frame, op)?))
}

/// Returns the instruction that an item is in a place of the code. `None` iff there is no such
/// place, or the item is no instruction that can stand there.
pub fn replacement_in(
    alloc: Global,
    types: &mut Types<'_>,
    known: &Prepared<'_>,
    place: Place,
    item: &Item,
) -> Result<Option<Instr>, OutOfMemory>
    requires { IsPrepared types.old.defs known.now }
    ensures defs { types.new.defs ≡ types.old.defs }
    ensures found { IfOk result (λ found.
        found ≡ replacement_by known.now.items.now known.now.ports place.0 item.now) }
{
    let Item::Instr(_, op) = item else {
        return Ok(None);
    };
    let Some(spot) = known.places.spots.get(place.0 as usize) else {
        return Ok(None);
    };
    let Some(frame) = known.places.frames.get(spot.frame) else {
        return Ok(None);
    };
    replaced_at(alloc, types, known, frame, spot, item, op.get())
}
