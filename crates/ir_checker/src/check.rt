//! The pass over the items of a module that finds its first fault.
ghost use Rattle.std.specs.Prelude.{◌≡◌, ◌++◌, ◌∷◌, [], false, List, IfOk, OnOk};
ghost use Rattle.ir_names.specs.Names.{firsts};
ghost use Rattle.ir_rules.specs.Entities as spec;
ghost use Rattle.ir_rules.specs.Rules.{fault};
ghost use Rattle.ir_rules.specs.Settings.{Setting};
ghost use Rattle.ir_rules.specs.Types.{type_defs};
ghost use Rattle.ir_scopes.specs.Kinds.{kind_in};
ghost use Rattle.ir_pass.specs.Frames.{no_frame};
ghost use Rattle.ir_pass.specs.Seen.{no_seen};
ghost use Rattle.ir_checker.specs.Judged.{AreOf, has_large};
ghost use Rattle.ir_checker.specs.Passes.{AreKindsOf, Arrived, IsJudgedBy, opened};

use crate::broken::{Known, Notes, TypeBreaks, notes_of};
use crate::judge::rule_of;
use am_base::OutOfMemory;
use ir_names::NameTable;
use ir_pass::{Frame, Seen, closed_frame, enter, is_end, is_head, leave, note, nothing_seen, step};
use ir_rules::{Fault, Local};
use ir_scopes::KindTable;
use ir_tree::Item;
use std::alloc::Global;

/// What judges the items of a module, one after another, by the rules that ask for its types.
pub trait TypeRules {
    ghost use Rattle.ir_rules.specs.Types.{TypeDefs};
    ghost use Rattle.std.specs.Prelude.{List};
    ghost use Rattle.ir_tree.specs.declared.item.Item.{Item};

    /// The type definitions of the module.
    ghost defs: { Self → TypeDefs };
    /// Whether these items are judged. No type that is written in them is larger than
    /// `MAX_TYPE_BYTES`.
    ghost has_judged: { Self → List Item → Type 0 };

    /// Judges the next item.
    fn breaks(
        &mut self,
        alloc: Global,
        known: &Known<'_>,
        locals: &NameTable<Local>,
        item: &Item,
    ) -> Result<TypeBreaks, OutOfMemory>
        ensures defs { defs self.new ≡ defs self.old }
        ensures judged { OnOk result ((above : List Item) → has_large (defs self.old) item.now ≡ false
            → has_judged self.old above → has_judged self.new (above ++ item.now ∷ [])) }
        ensures broken { IfOk result (λ typed. (s : Setting) → has_judged self.old s.above
            → IsJudgedBy s (defs self.old) (kind_in known.now.kinds.now.names)
            known.now.entities.now locals.now
            → AreOf s item.now typed) };
}

/// Comes to an item, the first of `rest`, and over it.
fn arrive(
    alloc: Global,
    kinds: &KindTable,
    frame: &mut Frame,
    rest: &[Item],
    item: &Item,
) -> Result<Notes, OutOfMemory>
    ensures { let kind = kind_in kinds.now.names in
        IfOk result (λ notes. Arrived kind frame.old rest.now item.now notes frame.new) }
{
    enter(alloc, kinds, frame, rest)?;
    let notes = notes_of(&frame.before, item);
    step(alloc, kinds, frame, item)?;
    Ok(notes)
}

fn opens(inside: bool, item: &Item) -> bool
    ensures { result ≡ opened inside item.now }
{
    is_head(item) || (inside && !is_end(item))
}

/// Returns the first item in text order that breaks a rule, with the least rule that it breaks;
/// `None` iff each item keeps all rules. It takes time about linear in the items, where `rules`
/// does.
///
/// `known` is what the names of the module stand for, and `rules` has judged no item.
pub fn first_fault<R: TypeRules>(
    alloc: Global,
    known: &Known<'_>,
    rules: &mut R,
    items: &[Item],
) -> Result<Option<Fault>, OutOfMemory>
    requires kinds { AreKindsOf (kind_in known.now.kinds.now.names) (type_defs items.now) }
    requires entities { known.now.entities.now
        ≡ firsts (spec.entities_of (kind_in known.now.kinds.now.names) items.now) }
    requires defs { R.defs rules.old ≡ type_defs items.now }
    requires judged { R.has_judged rules.old [] }
    ensures { IfOk result (λ found. found ≡ fault items.now known.now.ports.now) }
{
    let mut frame = closed_frame(alloc);
    let mut seen = nothing_seen(alloc);
    fault_along(alloc, known, rules, &mut frame, &mut seen, items)
}

/// Goes over the items of a module to its first fault. `frame` and `seen` know of no item yet; they
/// are lent, so that no way out of the pass lets them go.
fn fault_along<R: TypeRules>(
    alloc: Global,
    known: &Known<'_>,
    rules: &mut R,
    frame: &mut Frame,
    seen: &mut Seen,
    items: &[Item],
) -> Result<Option<Fault>, OutOfMemory>
    requires kinds { AreKindsOf (kind_in known.now.kinds.now.names) (type_defs items.now) }
    requires entities { known.now.entities.now
        ≡ firsts (spec.entities_of (kind_in known.now.kinds.now.names) items.now) }
    requires defs { R.defs rules.old ≡ type_defs items.now }
    requires judged { R.has_judged rules.old [] }
    requires frame { frame.old ≡ no_frame }
    requires seen { seen.old ≡ no_seen }
    ensures { IfOk result (λ found. found ≡ fault items.now known.now.ports.now) }
{
    let mut inside = false;
    'each: for (i, item) in items.iter().enumerate() {
        let notes = arrive(alloc, known.kinds, frame, &items[i..], item)?;
        let typed = rules.breaks(alloc, known, &frame.function.table, item)?;
        let rule = rule_of(alloc, known, frame, seen, &notes, &typed, item)?;
        if let Some(rule) = rule {
            return Ok(Some(Fault { item: i, rule }));
        }
        inside = opens(inside, item);
        leave(alloc, frame, inside, item);
        note(alloc, seen, item)?;
    }
    Ok(None)
}
