//! The law of the lines: they are the instructions of the code. It is a function without a body
//! whose clause is the law.
ghost use Rattle.std.specs.Prelude.{List};
ghost use Rattle.std.specs.List.{AllZip};
ghost use Rattle.code_form.specs.declared.sign.PortSign.{PortSign};
ghost use Rattle.ir_tree.specs.declared.item.Item.{Item};
ghost use Rattle.ir_rules.specs.Memory.{addresses_of};
ghost use Rattle.ir_rules.specs.Modules.{code_of};
ghost use Rattle.ir_rules.specs.Types.{type_defs};
ghost use Rattle.instruction_list.specs.Codes.{IsLineOf};
ghost use Rattle.instruction_list.specs.Lines.{lines_of};

/// The lines of a module and the instructions of its code are as many, and each line has the text
/// of an instruction whose code stands at its place.
pub fn lines_are_the_code()
    ensures { (items : List Item) (signs : List PortSign)
        → AllZip (IsLineOf (addresses_of (type_defs items) items)) (lines_of items) (code_of items signs).instrs }
{}
