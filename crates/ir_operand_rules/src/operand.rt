//! The rules on one operand.
ghost use Rattle.std.specs.Prelude.{◌≡◌};
ghost use Rattle.std.specs.List.{list_any};
ghost use Rattle.ir_names.specs.Names.{defined};
ghost use Rattle.ir_rules.specs.Operands as spec;
ghost use Rattle.ir_scopes.specs.Kinds.{kind_in};
ghost use Rattle.ir_operand_rules.specs.Each as each;
ghost use Rattle.ir_operand_rules.specs.Each.{setting_in, operand_breaks, index_breaks};

use crate::kinds::{no_integer, number_out};
use am_base::Width;
use code_form::TyScalar;
use ir_names::NameTable;
use ir_rules::{Entity, Local};
use ir_scopes::{KindTable, same_scalar};
use ir_tree::{Name, Opd, TyText};

/// What the names in a function stand for.
#[derive(Clone, Copy)]
pub struct Tables<'a> {
    /// The integers and pointers that types stand for.
    pub kinds: &'a KindTable,
    /// What the global names of the module stand for.
    pub entities: &'a NameTable<Entity>,
    /// What the names of the function stand for.
    pub locals: &'a NameTable<Local>,
}

/// A rule that is asked of each operand.
#[derive(Clone, Copy)]
pub enum OperandRule {
    UnknownName,
    TypeDiffers,
    LiteralRange,
}

fn is_value(tables: &Tables<'_>, name: &Name) -> bool
    ensures { result ≡ spec.is_value (defined tables.now.locals.now name.now) }
{
    matches!(
        tables.locals.get(name),
        Some(Local::Value(_, _) | Local::NoType)
    )
}

fn is_variable(tables: &Tables<'_>, name: &Name) -> bool
    ensures { result ≡ spec.is_variable (defined tables.now.entities.now name.now) }
{
    matches!(tables.entities.get(name), Some(Entity::Variable))
}

fn local_has(tables: &Tables<'_>, name: &Name, t: TyScalar) -> bool
    ensures { result ≡ spec.local_has (defined tables.now.locals.now name.now) t }
{
    match tables.locals.get(name) {
        Some(Local::Value(Some(u), _)) => same_scalar(*u, t),
        _ => false,
    }
}

fn names_nothing(tables: &Tables<'_>, a: &Opd) -> bool
    ensures { let kind = kind_in tables.now.kinds.now.names in
        let s = setting_in kind tables.now.entities.now tables.now.locals.now in
        result ≡ spec.names_nothing s a.now }
{
    match a {
        Opd::Local(name) => !is_value(tables, name),
        Opd::Global(name) => !is_variable(tables, name),
        Opd::Get(get) => !is_variable(tables, &get.get().2),
        _ => false,
    }
}

fn has_type(tables: &Tables<'_>, t: TyScalar, a: &Opd) -> bool
    ensures { let kind = kind_in tables.now.kinds.now.names in
        let s = setting_in kind tables.now.entities.now tables.now.locals.now in
        result ≡ spec.has_type s t a.now }
{
    match a {
        Opd::Local(name) => local_has(tables, name, t),
        Opd::Global(_) | Opd::Null | Opd::Get(_) => same_scalar(TyScalar::Ptr, t),
        Opd::Number(_) => matches!(t, TyScalar::Int(_)),
        Opd::True | Opd::False => same_scalar(TyScalar::Int(Width::W1), t),
        Opd::Undef | Opd::Poison | Opd::Zero => true,
    }
}

fn operand_differs(tables: &Tables<'_>, ty: &TyText, a: &Opd) -> bool
    ensures { let kind = kind_in tables.now.kinds.now.names in
        let s = setting_in kind tables.now.entities.now tables.now.locals.now in
        result ≡ spec.operand_differs s (kind ty.now) a.now }
{
    match tables.kinds.of(ty) {
        None => false,
        Some(t) => !has_type(tables, t, a),
    }
}

fn operand_out(tables: &Tables<'_>, ty: &TyText, a: &Opd) -> bool
    ensures { result ≡ spec.operand_out (kind_in tables.now.kinds.now.names ty.now) a.now }
{
    match a {
        Opd::Number(n) => number_out(tables.kinds.of(ty), *n),
        _ => false,
    }
}

/// Whether an index of a constant breaks a rule.
fn index_breaks_rule(tables: &Tables<'_>, rule: OperandRule, ty: &TyText, n: i128) -> bool
    ensures { result ≡ index_breaks (kind_in tables.now.kinds.now.names) rule (ty.now, n) }
{
    match rule {
        OperandRule::UnknownName => false,
        OperandRule::TypeDiffers => no_integer(tables.kinds.of(ty)),
        OperandRule::LiteralRange => number_out(tables.kinds.of(ty), n),
    }
}

fn some_index_breaks(tables: &Tables<'_>, rule: OperandRule, indices: &[(TyText, i128)]) -> bool
    ensures { let kind = kind_in tables.now.kinds.now.names in
        result ≡ list_any (index_breaks kind rule) indices.now }
{
    let mut found = false;
    'each: for index in indices {
        let here = index_breaks_rule(tables, rule, &index.0, index.1);
        found = found || here;
    }
    found
}

fn own_breaks(tables: &Tables<'_>, rule: OperandRule, ty: &TyText, a: &Opd) -> bool
    ensures { let kind = kind_in tables.now.kinds.now.names in
        let s = setting_in kind tables.now.entities.now tables.now.locals.now in
        result ≡ each.own_breaks s rule (ty.now, a.now) }
{
    match rule {
        OperandRule::UnknownName => names_nothing(tables, a),
        OperandRule::TypeDiffers => operand_differs(tables, ty, a),
        OperandRule::LiteralRange => operand_out(tables, ty, a),
    }
}

/// Whether an operand, or an index in it, breaks a rule.
pub fn operand_breaks_rule(tables: &Tables<'_>, rule: OperandRule, ty: &TyText, a: &Opd) -> bool
    ensures { let kind = kind_in tables.now.kinds.now.names in
        let s = setting_in kind tables.now.entities.now tables.now.locals.now in
        result ≡ operand_breaks s rule (ty.now, a.now) }
{
    let own = own_breaks(tables, rule, ty, a);
    match a {
        Opd::Get(get) => own || some_index_breaks(tables, rule, get.get().3.as_slice()),
        _ => own,
    }
}
