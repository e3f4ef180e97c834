//! Laws on the code of an instruction.
ghost use Rattle.std.specs.Prelude.{◌≡◌, false, Option};
ghost use Rattle.ir_tree.specs.declared.name.Name.{Name};
ghost use Rattle.ir_tree.specs.declared.op.Op.{Op};
ghost use Rattle.ir_tree.specs.declared.item.Item.TheVariants as item;
ghost use Rattle.ir_names.specs.Names.{firsts};
ghost use Rattle.ir_rules.specs.Codes as codes;
ghost use Rattle.ir_rules.specs.Memory.{Addresses};
ghost use Rattle.ir_rules.specs.Operands.{type_too_large};
ghost use Rattle.ir_rules.specs.Settings.{Setting};
ghost use Rattle.ir_rules.specs.Types.{Kinds, kind_of};
ghost use Rattle.ir_op_codes.specs.Alone.{AreAlike, AreSame, code_alone};
ghost use Rattle.ir_op_codes.specs.Settings.{OpFits};

/// An instruction that keeps the rule on the sizes of types has a code.
pub fn small_types_fit()
    ensures { (s : Setting) (r : Option Name) (o : Op) → type_too_large s (item.Instr r o) ≡ false → OpFits s.types o }
{}

/// The code of an instruction asks a setting for its types, what its names stand for, and the
/// ports, and for no more; of the definitions of a name it asks for the first.
pub fn code_needs_no_more()
    ensures alike { (s u : Setting) (a b : Addresses) (o : Op) → AreAlike s u → AreSame a b
        → codes.op_code s a o ≡ codes.op_code u b o }
    ensures alone { (s : Setting) (a : Addresses) (o : Op) → ◌≡◌ {A = Kinds} s.kind (kind_of s.types)
        → codes.op_code s a o ≡ codes.op_code (code_alone s.types s.function.table s.entities s.signs) a o }
    ensures firsts { (s : Setting) (a : Addresses) (o : Op) → ◌≡◌ {A = Kinds} s.kind (kind_of s.types)
        → codes.op_code s a o
        ≡ codes.op_code (code_alone s.types s.function.table (firsts s.entities) s.signs) (firsts a) o }
{}
