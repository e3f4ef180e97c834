//! The rules on the operands of an item outside of functions: those in an initialiser.
ghost use Rattle.std.specs.Prelude.{◌≡◌, IfOk};
ghost use Rattle.std.specs.List.{list_any};
ghost use Rattle.ir_rules.specs.Operands as spec;
ghost use Rattle.ir_rules.specs.Parts as parts;
ghost use Rattle.ir_scopes.specs.Kinds.{kind_in};
ghost use Rattle.ir_operand_rules.specs.Each.{setting_in, operand_breaks};
ghost use Rattle.ir_type_rules.specs.Alone.{kinds_alone};

use crate::operands::Typed;
use crate::parts::operands_of;
use crate::scalars::index_scalars;
use am_base::OutOfMemory;
use code_form::TyScalar;
use ir_operand_rules::{OperandRule, Tables, operand_breaks_rule};
use ir_scopes::KindTable;
use ir_tree::{Item, TyText};
use std::alloc::Global;

fn some_breaks(tables: &Tables<'_>, rule: OperandRule, operands: &[Typed<'_>]) -> bool
    ensures { let kind = kind_in tables.now.kinds.now.names in
        let s = setting_in kind tables.now.entities.now tables.now.locals.now in
        result ≡ list_any (λ v. operand_breaks s rule (v.0.now, v.1.now)) operands.now }
{
    let mut found = false;
    'each: for operand in operands {
        let here = operand_breaks_rule(tables, rule, operand.0, operand.1);
        found = found || here;
    }
    found
}

fn operand_breaks_of(
    alloc: Global,
    tables: &Tables<'_>,
    rule: OperandRule,
    item: &Item,
) -> Result<bool, OutOfMemory>
    ensures { let kind = kind_in tables.now.kinds.now.names in
        let s = setting_in kind tables.now.entities.now tables.now.locals.now in
        IfOk result (λ b. b ≡ list_any (operand_breaks s rule) (parts.operands_of item.now)) }
{
    let operands = operands_of(alloc, item)?;
    Ok(some_breaks(tables, rule, operands.as_slice()))
}

/// Whether an operand of the item, as one in an initialiser, names no value of the function and no
/// global variable.
pub fn init_unknown_name(
    alloc: Global,
    tables: &Tables<'_>,
    item: &Item,
) -> Result<bool, OutOfMemory>
    ensures { let kind = kind_in tables.now.kinds.now.names in
        let s = setting_in kind tables.now.entities.now tables.now.locals.now in
        IfOk result (λ b. b ≡ spec.unknown_name s item.now) }
{
    operand_breaks_of(alloc, tables, OperandRule::UnknownName, item)
}

/// Whether a number in the item, as one in an initialiser, doesn't fit the width of its type.
pub fn init_literal_range(
    alloc: Global,
    tables: &Tables<'_>,
    item: &Item,
) -> Result<bool, OutOfMemory>
    ensures { let kind = kind_in tables.now.kinds.now.names in
        let s = setting_in kind tables.now.entities.now tables.now.locals.now in
        IfOk result (λ b. b ≡ spec.literal_range s item.now) }
{
    operand_breaks_of(alloc, tables, OperandRule::LiteralRange, item)
}

fn no_integer(kind: Option<TyScalar>) -> bool
    ensures { result ≡ spec.no_integer kind }
{
    matches!(kind, Some(TyScalar::Ptr))
}

fn some_no_integer(kinds: &KindTable, list: &[&TyText]) -> bool
    ensures { result ≡ list_any (λ t. spec.no_integer (kind_in kinds.now.names t.now)) list.now }
{
    let mut found = false;
    'each: for ty in list {
        let here = no_integer(kinds.of(ty));
        found = found || here;
    }
    found
}

/// Whether the type of a constant index in the item isn't an integer. For an item other than an
/// instruction that is the rule that a type isn't the one needed.
pub fn init_type_differs(alloc: Global, kinds: &KindTable, item: &Item) -> Result<bool, OutOfMemory>
    ensures { IfOk result (λ b. b ≡ spec.index_differs (kinds_alone (kind_in kinds.now.names)) item.now) }
{
    let list = index_scalars(alloc, item)?;
    Ok(some_no_integer(kinds, list.as_slice()))
}
