//! The rule on the cases of a `switch`.
ghost use Rattle.std.specs.Prelude.{◌≡◌, [], IfOk, map};
ghost use Rattle.std.specs.List.{list_any};
ghost use Rattle.code_form.specs.Sound.{width_of};
ghost use Rattle.ir_rules.specs.Paths as spec;
ghost use Rattle.ir_scopes.specs.Kinds.{kind_in};
ghost use Rattle.ir_call_rules.specs.Alone.{calls_alone};

use crate::numbers::{Numbers, add_word, either};
use am_base::{OutOfMemory, Width};
use code_form::TyScalar;
use ir_scopes::{KindTable, same_kind, word_of};
use ir_tree::{Item, Name, Op, Opd, TyText};
use std::alloc::Global;

fn kind_width(t: Option<TyScalar>) -> Width
    ensures { result ≡ spec.kind_width t }
{
    match t {
        None => Width::W32,
        Some(TyScalar::Int(w)) => w,
        Some(TyScalar::Ptr) => Width::W64,
    }
}

fn case_word(w: Width, a: &Opd) -> Option<u64>
    ensures { result ≡ spec.case_word w a.now }
{
    match a {
        Opd::Number(n) => Some(word_of(w, *n)),
        Opd::True => Some(1),
        Opd::False => Some(0),
        _ => None,
    }
}

fn no_case(kinds: &KindTable, ty: &TyText, case: &(TyText, Opd, Name)) -> bool
    ensures { result ≡ spec.no_case (kind_in kinds.now.names) ty.now case.now }
{
    let kind = kinds.of(ty);
    let is_word = case_word(kind_width(kind), &case.1).is_some();
    !(is_word && same_kind(kind, kinds.of(&case.0)))
}

fn has_no_case(kinds: &KindTable, ty: &TyText, cases: &[(TyText, Opd, Name)]) -> bool
    ensures { result ≡ list_any (spec.no_case (kind_in kinds.now.names) ty.now) cases.now }
{
    let mut found = false;
    'each: for case in cases {
        let here = no_case(kinds, ty, case);
        found = found || here;
    }
    found
}

/// Whether two cases have one word. It takes time about linear in the cases.
fn has_two_equal(
    alloc: Global,
    w: Width,
    cases: &[(TyText, Opd, Name)],
) -> Result<bool, OutOfMemory>
    ensures { IfOk result (λ found.
        found ≡ spec.two_equal (map (λ c. spec.case_word w c.1) cases.now)) }
{
    let mut words = Numbers::new(alloc);
    let mut found = false;
    'each: for case in cases {
        let known = add_word(&mut words, case_word(w, &case.1))?;
        found = either(found, known);
    }
    Ok(found)
}

/// Whether the item is a `switch` with a case that isn't a number of the value's type, or with two
/// equal cases.
pub fn switch_case(alloc: Global, kinds: &KindTable, item: &Item) -> Result<bool, OutOfMemory>
    ensures { let s = calls_alone (kind_in kinds.now.names) [] [] in
        IfOk result (λ broken. broken ≡ spec.switch_case s item.now) }
{
    match item {
        Item::Instr(_, op) => match op.get() {
            Op::Switch(ty, _, _, cases) => {
                let wrong = has_no_case(kinds, ty, cases.as_slice());
                let w = kind_width(kinds.of(ty));
                let equal = has_two_equal(alloc, w, cases.as_slice())?;
                Ok(wrong || equal)
            }
            _ => Ok(false),
        },
        _ => Ok(false),
    }
}
