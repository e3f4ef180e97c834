//! The first fault of a module.
ghost use Rattle.std.specs.Prelude.{◌≡◌, ◌≤◌, ◌^◌, [], length, IfOk};
ghost use Rattle.ir_room.specs.Rooms.{IsRoomOf};
ghost use Rattle.ir_rules.specs.Types.{type_defs};
ghost use Rattle.ir_rules.specs.Rules.{fault};

use am_base::OutOfMemory;
use code_form::PortSign;
use ir_call_rules::Ports;
use ir_checker::{Known, first_fault};
use ir_rules::Fault;
use ir_scopes::entities_of;
use ir_tree::Item;
use ir_typed_rules::TypedRules;
use std::alloc::Global;

/// Returns the first item in text order that breaks a rule, with the least rule that it breaks;
/// `None` iff each item keeps all rules. Items are numbered from 0.
///
/// `ports` are the signs of the ports that are handed in; of two with one name the first counts.
/// Beside the tables of the type definitions it takes time about linear in the items.
pub fn fault_of(
    alloc: Global,
    items: &[Item],
    ports: &[PortSign],
) -> Result<Option<Fault>, OutOfMemory>
    requires { length ports.now ≤ 2 ^ 32 }
    ensures { IfOk result (λ found. found ≡ fault items.now ports.now) }
{
    let named = Ports::new(alloc, ports)?;
    let mut rules = TypedRules::of(alloc, items)?;
    fault_by(alloc, items, &named, &mut rules)
}

/// Returns the first fault of a module by its ports and rules, where the rules have judged no item.
fn fault_by(
    alloc: Global,
    items: &[Item],
    ports: &Ports<'_>,
    rules: &mut TypedRules<'_>,
) -> Result<Option<Fault>, OutOfMemory>
    requires defs { rules.old.types.defs ≡ type_defs items.now }
    requires room { IsRoomOf rules.old.types.defs [] rules.old.room }
    ensures { IfOk result (λ found. found ≡ fault items.now ports.now) }
{
    let kinds = rules.types.kinds(alloc)?;
    let entities = entities_of(alloc, &kinds, items)?;
    let known = Known {
        kinds: &kinds,
        entities: &entities,
        ports,
    };
    first_fault(alloc, &known, rules, items)
}
