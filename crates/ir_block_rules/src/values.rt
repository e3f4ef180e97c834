//! The rules on results and conversions.
ghost use Rattle.std.specs.Prelude.{◌≡◌};
ghost use Rattle.am_base.specs.Word.{bits_of};
ghost use Rattle.ir_rules.specs.Paths as spec;
ghost use Rattle.ir_rules.specs.Calls.{returned_kind};
ghost use Rattle.ir_rules.specs.Calls as calls;
ghost use Rattle.ir_scopes.specs.Kinds.{kind_in};
ghost use Rattle.ir_block_rules.specs.Alone.{kinds_alone, result_alone};

use am_base::{Cast, Width};
use code_form::TyScalar;
use ir_scopes::{KindTable, has_value, is_call, same_result};
use ir_tree::{Item, Op, Opd, TyText};

fn bits(w: Width) -> u32
    ensures { result ≡ bits_of w }
{
    match w {
        Width::W1 => 1,
        Width::W8 => 8,
        Width::W16 => 16,
        Width::W32 => 32,
        Width::W64 => 64,
    }
}

/// Whether a conversion narrows. `true` where one of the types is no integer.
fn narrows(from: Option<TyScalar>, to: Option<TyScalar>) -> bool
    ensures { result ≡ spec.narrows from to }
{
    match (from, to) {
        (Some(TyScalar::Int(from)), Some(TyScalar::Int(to))) => bits(to) < bits(from),
        _ => true,
    }
}

fn wrong_width(cast: Cast, from: Option<TyScalar>, to: Option<TyScalar>) -> bool
    ensures { result ≡ spec.wrong_width cast from to }
{
    match cast {
        Cast::Trunc => !narrows(from, to),
        Cast::ZExt | Cast::SExt => !narrows(to, from),
        Cast::PtrToInt | Cast::IntToPtr => false,
    }
}

/// Whether the item is a `trunc` that doesn't narrow, or a `zext` or `sext` that doesn't widen.
pub fn cast_width(kinds: &KindTable, item: &Item) -> bool
    ensures { result ≡ spec.cast_width (kinds_alone (kind_in kinds.now.names)) item.now }
{
    match item {
        Item::Instr(_, op) => match op.get() {
            Op::Cast(cast, ty, _, to) => wrong_width(*cast, kinds.of(ty), kinds.of(to)),
            _ => false,
        },
        _ => false,
    }
}

/// Whether a result is written on an instruction without a value, or none on one with a value other
/// than `call`.
pub fn result_misplaced(item: &Item) -> bool
    ensures { result ≡ spec.result_misplaced item.now }
{
    match item {
        Item::Instr(Some(_), op) => !has_value(op.get()),
        Item::Instr(None, op) => has_value(op.get()) && !is_call(op.get()),
        _ => false,
    }
}

fn kind_of_returned(kinds: &KindTable, value: &Option<(TyText, Opd)>) -> Option<Option<TyScalar>>
    ensures { result ≡ returned_kind (kind_in kinds.now.names) value.now }
{
    match value {
        None => None,
        Some(value) => Some(kinds.of(&value.0)),
    }
}

/// Whether the item is a `ret` that isn't of its function's type, `wanted`: `None` for `void`.
pub fn return_differs(kinds: &KindTable, wanted: Option<Option<TyScalar>>, item: &Item) -> bool
    ensures { let s = result_alone (kind_in kinds.now.names) wanted in
        result ≡ calls.return_differs s item.now }
{
    match item {
        Item::Instr(_, op) => match op.get() {
            Op::Ret(value) => !same_result(wanted, kind_of_returned(kinds, value)),
            _ => false,
        },
        _ => false,
    }
}
