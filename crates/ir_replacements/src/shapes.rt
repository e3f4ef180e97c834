//! Whether an instruction is of another kind than the one in whose place it is to stand: by its
//! place in a block, the type of its value, and its labels.
ghost use Rattle.std.specs.Prelude.{◌≡◌};
ghost use Rattle.ir_rules.specs.Replacements as rules;
ghost use Rattle.ir_rules.specs.Scopes as scopes;
ghost use Rattle.ir_scopes.specs.Kinds.{kind_in};
ghost use Rattle.ir_replacements.specs.Shapes as spec;

use crate::labels::goes_within;
use am_base::Width;
use code_form::TyScalar;
use ir_names::NameTable;
use ir_scopes::{KindTable, is_phi, is_terminator, result_kind, same_result};
use ir_tree::Op;

fn stays(op: &Op) -> bool
    ensures { result ≡ rules.stays_as_it_is op.now }
{
    is_phi(op) || matches!(op, Op::Alloca(_, _))
}

fn ends_otherwise(old: &Op, new: &Op) -> bool
    ensures { result ≡ rules.ends_otherwise old.now new.now }
{
    let ended = is_terminator(old);
    let ends = is_terminator(new);
    (ended && !ends) || (!ended && ends)
}

/// The type of an instruction's value. `None` for one without a value.
fn value_kind(kinds: &KindTable, op: &Op) -> Option<Option<TyScalar>>
    ensures { result ≡ scopes.value_kind (kind_in kinds.now.names) op.now }
{
    match op {
        Op::Bin(_, t, _, _) => Some(kinds.of(t)),
        Op::Cmp(_, _, _, _) => Some(Some(TyScalar::Int(Width::W1))),
        Op::Select(_, _, t, _, _, _) => Some(kinds.of(t)),
        Op::Cast(_, _, _, to) => Some(kinds.of(to)),
        Op::Freeze(t, _) => Some(kinds.of(t)),
        Op::Alloca(_, _) => Some(Some(TyScalar::Ptr)),
        Op::Load(t, _, _) => Some(kinds.of(t)),
        Op::Get(_, _, _, _) => Some(Some(TyScalar::Ptr)),
        Op::Phi(t, _) => Some(kinds.of(t)),
        Op::Call(t, _, _) => result_kind(kinds, t),
        _ => None,
    }
}

fn gives_otherwise(kinds: &KindTable, old: &Op, new: &Op) -> bool
    ensures { result ≡ rules.gives_otherwise (kind_in kinds.now.names) old.now new.now }
{
    !same_result(value_kind(kinds, old), value_kind(kinds, new))
}

/// Whether one of the two is a `phi` or an `alloca`, one alone ends a block, their values are of
/// two types, or the new one goes to a label that isn't among `labels`.
pub fn differs(kinds: &KindTable, old: &Op, labels: &NameTable<()>, new: &Op) -> bool
    ensures { result ≡ spec.differs (kind_in kinds.now.names) old.now labels.now new.now }
{
    stays(old)
        || stays(new)
        || ends_otherwise(old, new)
        || gives_otherwise(kinds, old, new)
        || !goes_within(labels, new)
}
