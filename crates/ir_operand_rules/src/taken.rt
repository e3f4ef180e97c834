//! The types that instructions take.
ghost use Rattle.std.specs.Prelude.{◌≡◌};
ghost use Rattle.std.specs.List.{list_any};
ghost use Rattle.ir_rules.specs.Operands as spec;
ghost use Rattle.ir_scopes.specs.Kinds.{kind_in};
ghost use Rattle.ir_operand_rules.specs.Each.{kinds_alone};

use crate::kinds::{no_condition, no_integer, no_pointer};
use am_base::Cast;
use code_form::TyScalar;
use ir_scopes::{KindTable, same_kind};
use ir_tree::{Op, Opd, TyText};

fn cast_differs(cast: Cast, from: Option<TyScalar>, to: Option<TyScalar>) -> bool
    ensures { result ≡ spec.cast_differs cast from to }
{
    match cast {
        Cast::Trunc | Cast::ZExt | Cast::SExt => no_integer(from) || no_integer(to),
        Cast::PtrToInt => no_pointer(from) || no_integer(to),
        Cast::IntToPtr => no_integer(from) || no_pointer(to),
    }
}

fn some_index_is_no_integer(kinds: &KindTable, indices: &[(TyText, Opd)]) -> bool
    ensures { let kind = kind_in kinds.now.names in
        result ≡ list_any (λ i. spec.no_integer (kind i.0)) indices.now }
{
    let mut found = false;
    'each: for index in indices {
        let here = no_integer(kinds.of(&index.0));
        found = found || here;
    }
    found
}

/// Whether a type of the instruction isn't one that it takes.
pub fn type_not_taken(kinds: &KindTable, op: &Op) -> bool
    ensures { result ≡ spec.type_not_taken (kinds_alone (kind_in kinds.now.names)) op.now }
{
    match op {
        Op::Bin(_, t, _, _) => no_integer(kinds.of(t)),
        Op::Select(s, _, t, _, u, _) => {
            no_condition(kinds.of(s)) || !same_kind(kinds.of(t), kinds.of(u))
        }
        Op::Cast(cast, t, _, to) => cast_differs(*cast, kinds.of(t), kinds.of(to)),
        Op::Alloca(_, Some(count)) => no_integer(kinds.of(&count.0)),
        Op::Load(_, u, _) => no_pointer(kinds.of(u)),
        Op::Store(_, _, u, _) => no_pointer(kinds.of(u)),
        Op::Get(_, t, _, indices) => {
            no_pointer(kinds.of(t)) || some_index_is_no_integer(kinds, indices.as_slice())
        }
        Op::Branch(t, _, _, _) => no_condition(kinds.of(t)),
        Op::Switch(t, _, _, _) => no_integer(kinds.of(t)),
        _ => false,
    }
}
