//! The least rule that an item breaks.
ghost use Rattle.std.specs.Prelude.{◌≡◌, IfOk};
ghost use Rattle.ir_rules.specs.Settings.{Setting};
ghost use Rattle.ir_rules.specs.Rules.{least_rule};
ghost use Rattle.ir_scopes.specs.Kinds.{kind_in};
ghost use Rattle.ir_checker.specs.Judged.{Fits, AreOf};

use crate::broken::{Known, Notes, TypeBreaks};
use crate::groups::{block_rules, call_rules, last_rules, name_rules, operand_rules};
use am_base::OutOfMemory;
use ir_operand_rules::Tables;
use ir_pass::{Frame, Seen};
use ir_rules::Rule;
use ir_tree::Item;
use std::alloc::Global;

/// Returns the least rule that an item breaks; `None` iff it keeps all of them. The pass has come
/// over the item: `frame` has what its function defines with it, `notes` and `seen` are those of
/// before. It takes time about linear in the item and, of a `phi`, in the branches to its block.
pub fn rule_of(
    alloc: Global,
    known: &Known<'_>,
    frame: &Frame,
    seen: &Seen,
    notes: &Notes,
    typed: &TypeBreaks,
    item: &Item,
) -> Result<Option<Rule>, OutOfMemory>
    ensures { let kind = kind_in known.now.kinds.now.names in IfOk result (λ rule. (s : Setting)
        → Fits s item.now kind known.now.entities.now known.now.ports.now frame.now seen.now notes.now
        → AreOf s item.now typed.now → rule ≡ least_rule s item.now) }
{
    let tables = Tables {
        kinds: known.kinds,
        entities: known.entities,
        locals: &frame.function.table,
    };
    let last = last_rules(alloc, known, frame, seen, notes, typed, item)?;
    let calls = call_rules(alloc, known, frame, item, last)?;
    let blocks = block_rules(alloc, frame, notes, item, calls)?;
    let operands = operand_rules(&tables, typed, item, blocks);
    let rule = name_rules(alloc, frame, seen, typed, item, operands)?;
    Ok(rule)
}
