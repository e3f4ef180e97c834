//! What decides on replacements in the code of a module, prepared once.
ghost use Rattle.std.specs.Prelude.{◌≡◌, ◌≤◌, ◌^◌, IfOk, None, false, length};
ghost use Rattle.ir_rules.specs.Memory as memory;
ghost use Rattle.ir_rules.specs.Replacements.{replacement_by};
ghost use Rattle.ir_rules.specs.Rules.{fault};
ghost use Rattle.ir_rules.specs.Types.{type_defs};
ghost use Rattle.ir_sound.specs.Whole.{AreWhole};
ghost use Rattle.ir_op_codes.specs.Alone.{AreSame};
ghost use Rattle.ir_replacements.specs.Prepared.{IsPrepared};

use crate::places::places_of;
use crate::replace::{Prepared, replacement_in};
use am_base::OutOfMemory;
use code_form::{Instr, Place, PortSign};
use ir_call_rules::Ports;
use ir_names::NameTable;
use ir_scopes::entities_of;
use ir_tree::Item;
use ir_types::Types;
use std::alloc::Global;
use std::marker::Model;

/// What decides on replacements in the code of a module without a fault. Contracts see it as the
/// module's items and the ports that are handed in.
#[derive(Drop)]
pub struct Checker<'a> {
    types: Types<'a>,
    known: Prepared<'a>,
}

impl<'a> Model for Checker<'a> {
    ghost use Rattle.std.specs.Coded.{codes};
    ghost use Rattle.code_form.specs.contracts.sign.PortSign as sign;
    ghost use Rattle.ir_tree.specs.contracts.item.Item as item;
    ghost use Rattle.ir_replacements.specs.Prepared.{IsPrepared, Subject};

    ghost Value = { Subject };

    ghost coded = { Prim.hlevel (codes, sign.the_row.coded, item.the_row.coded) };

    ghost view = { λ c. record { items = c.known.items.now; signs = c.known.ports } };

    ghost invariant = { λ c. IsPrepared c.types.defs c.known };
}

/// Returns what is known of a module without a fault, whose globals have these addresses.
fn prepared<'a>(
    alloc: Global,
    types: &Types<'_>,
    items: &'a [Item],
    signs: &'a [PortSign],
    addresses: NameTable<u64>,
) -> Result<Prepared<'a>, OutOfMemory>
    requires few { length signs.now ≤ 2 ^ 32 }
    requires types { types.now.defs ≡ type_defs items.now }
    requires whole { AreWhole false items.now }
    requires faultless { fault items.now signs.now ≡ None }
    requires placed { AreSame addresses (memory.addresses_of (type_defs items.now) items.now) }
    ensures known { IfOk result (λ known. IsPrepared types.now.defs known) }
    ensures items { IfOk result (λ known. known.items.now ≡ items.now) }
    ensures signs { IfOk result (λ known. known.ports ≡ signs.now) }
{
    let kinds = types.kinds(alloc)?;
    let entities = entities_of(alloc, &kinds, items)?;
    let places = places_of(alloc, &kinds, items)?;
    let ports = Ports::new(alloc, signs)?;
    Ok(Prepared {
        items,
        kinds,
        entities,
        ports,
        addresses,
        places,
    })
}

impl<'a> Checker<'a> {
    /// Returns what decides on the replacements in the code of a module, whose globals have these
    /// addresses. It takes time about linear in the items.
    pub fn over(
        alloc: Global,
        items: &'a [Item],
        signs: &'a [PortSign],
        addresses: NameTable<u64>,
    ) -> Result<Checker<'a>, OutOfMemory>
        requires few { length signs.now ≤ 2 ^ 32 }
        requires whole { AreWhole false items.now }
        requires faultless { fault items.now signs.now ≡ None }
        requires placed { AreSame addresses (memory.addresses_of (type_defs items.now) items.now) }
        ensures items { IfOk result (λ checker. checker.items ≡ items.now) }
        ensures signs { IfOk result (λ checker. checker.signs ≡ signs.now) }
    {
        let types = Types::of(alloc, items)?;
        let known = prepared(alloc, &types, items, signs, addresses)?;
        Ok(Checker { types, known })
    }

    /// Returns the instruction that an item is in a place of the code. `None` iff there is no such
    /// place, or the item is no instruction that can stand there. It takes time about linear in
    /// what is written in the item. It decides over the same afterwards, also after an error.
    pub fn replacement(
        &mut self,
        alloc: Global,
        place: Place,
        item: &Item,
    ) -> Result<Option<Instr>, OutOfMemory>
        ensures kept { self.new ≡ self.old }
        ensures found { IfOk result (λ found.
            found ≡ replacement_by self.old.items self.old.signs place.0 item.now) }
    {
        replacement_in(alloc, &mut self.types, &self.known, place, item)
    }
}
