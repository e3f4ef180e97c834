//! The rules on the operands of an instruction.
ghost use Rattle.std.specs.Prelude.{◌≡◌, ◌||◌, None};
ghost use Rattle.ir_rules.specs.Operands as spec;
ghost use Rattle.ir_scopes.specs.Kinds.{kind_in};
ghost use Rattle.ir_operand_rules.specs.Each.{setting_in};
ghost use Rattle.ir_tree.specs.declared.item.Item.TheVariants.{Instr};

use crate::each::some_operand_breaks;
use crate::operand::{OperandRule, Tables};
use crate::taken::type_not_taken;
use ir_tree::Op;

fn either(a: bool, b: bool) -> bool
    ensures { result ≡ (a || b) }
{
    a || b
}

/// Whether an operand of the instruction names no value of the function and no global variable.
pub fn unknown_name(tables: &Tables<'_>, op: &Op) -> bool
    ensures { let kind = kind_in tables.now.kinds.now.names in
        let s = setting_in kind tables.now.entities.now tables.now.locals.now in
        result ≡ spec.unknown_name s (Instr None op.now) }
{
    some_operand_breaks(tables, OperandRule::UnknownName, op)
}

/// Whether an operand of the instruction isn't of the type that is written for it, or a type isn't
/// the one that the instruction takes.
pub fn type_differs(tables: &Tables<'_>, op: &Op) -> bool
    ensures { let kind = kind_in tables.now.kinds.now.names in
        let s = setting_in kind tables.now.entities.now tables.now.locals.now in
        result ≡ spec.type_differs s (Instr None op.now) }
{
    either(
        some_operand_breaks(tables, OperandRule::TypeDiffers, op),
        type_not_taken(tables.kinds, op),
    )
}

/// Whether a number in the instruction doesn't fit the width of its type.
pub fn literal_range(tables: &Tables<'_>, op: &Op) -> bool
    ensures { let kind = kind_in tables.now.kinds.now.names in
        let s = setting_in kind tables.now.entities.now tables.now.locals.now in
        result ≡ spec.literal_range s (Instr None op.now) }
{
    some_operand_breaks(tables, OperandRule::LiteralRange, op)
}
