//! A rule on each operand of an instruction.
ghost use Rattle.std.specs.Prelude.{◌≡◌, map};
ghost use Rattle.std.specs.List.{list_any};
ghost use Rattle.ir_rules.specs.Parts.{op_operands, maybe};
ghost use Rattle.ir_scopes.specs.Kinds.{kind_in};
ghost use Rattle.ir_operand_rules.specs.Each.{setting_in, operand_breaks};

use crate::operand::{OperandRule, Tables, operand_breaks_rule as breaks};
use ir_tree::{Name, Op, Opd, TyText};

fn some_of_operands(tables: &Tables<'_>, rule: OperandRule, operands: &[(TyText, Opd)]) -> bool
    ensures { let kind = kind_in tables.now.kinds.now.names in
        let s = setting_in kind tables.now.entities.now tables.now.locals.now in
        result ≡ list_any (operand_breaks s rule) operands.now }
{
    let mut found = false;
    'each: for operand in operands {
        let here = breaks(tables, rule, &operand.0, &operand.1);
        found = found || here;
    }
    found
}

fn some_of_entries(
    tables: &Tables<'_>,
    rule: OperandRule,
    ty: &TyText,
    entries: &[(Opd, Name)],
) -> bool
    ensures { let kind = kind_in tables.now.kinds.now.names in
        let s = setting_in kind tables.now.entities.now tables.now.locals.now in
        result ≡ list_any (operand_breaks s rule) (map (λ e. (ty.now, e.0)) entries.now) }
{
    let mut found = false;
    'each: for entry in entries {
        let here = breaks(tables, rule, ty, &entry.0);
        found = found || here;
    }
    found
}

fn some_of_cases(tables: &Tables<'_>, rule: OperandRule, cases: &[(TyText, Opd, Name)]) -> bool
    ensures { let kind = kind_in tables.now.kinds.now.names in
        let s = setting_in kind tables.now.entities.now tables.now.locals.now in
        result ≡ list_any (operand_breaks s rule) (map (λ c. (c.0, c.1)) cases.now) }
{
    let mut found = false;
    'each: for case in cases {
        let here = breaks(tables, rule, &case.0, &case.1);
        found = found || here;
    }
    found
}

fn optional_breaks(tables: &Tables<'_>, rule: OperandRule, value: &Option<(TyText, Opd)>) -> bool
    ensures { let kind = kind_in tables.now.kinds.now.names in
        let s = setting_in kind tables.now.entities.now tables.now.locals.now in
        result ≡ list_any (operand_breaks s rule) (maybe value.now) }
{
    match value {
        None => false,
        Some(value) => breaks(tables, rule, &value.0, &value.1),
    }
}

/// Whether an operand of the instruction, or an index in one, breaks a rule.
pub fn some_operand_breaks(tables: &Tables<'_>, rule: OperandRule, op: &Op) -> bool
    ensures { let kind = kind_in tables.now.kinds.now.names in
        let s = setting_in kind tables.now.entities.now tables.now.locals.now in
        result ≡ list_any (operand_breaks s rule) (op_operands op.now) }
{
    match op {
        Op::Bin(_, t, a, b) | Op::Cmp(_, t, a, b) => breaks(tables, rule, t, a)
            || breaks(tables, rule, t, b),
        Op::Select(s, c, t, a, u, b) => breaks(tables, rule, s, c)
            || breaks(tables, rule, t, a)
            || breaks(tables, rule, u, b),
        Op::Cast(_, t, a, _) | Op::Freeze(t, a) | Op::Load(_, t, a) => breaks(tables, rule, t, a),
        Op::Alloca(_, count) => optional_breaks(tables, rule, count),
        Op::Store(t, a, u, b) => breaks(tables, rule, t, a) || breaks(tables, rule, u, b),
        Op::Get(_, t, a, indices) => {
            breaks(tables, rule, t, a) || some_of_operands(tables, rule, indices.as_slice())
        }
        Op::Phi(t, entries) => some_of_entries(tables, rule, t, entries.as_slice()),
        Op::Call(_, _, args) => some_of_operands(tables, rule, args.as_slice()),
        Op::Branch(t, c, _, _) => breaks(tables, rule, t, c),
        Op::Switch(t, a, _, cases) => {
            breaks(tables, rule, t, a) || some_of_cases(tables, rule, cases.as_slice())
        }
        Op::Ret(value) => optional_breaks(tables, rule, value),
        Op::Jump(_) | Op::Unreachable => false,
    }
}
