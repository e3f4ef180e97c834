//! The canonical text of a module and of an instruction.
ghost use Rattle.ir_text.specs.Lines.{canon, indent, instruction_text, line};
ghost use Rattle.ir_text.specs.Texts.{IsInstr};
ghost use Rattle.ir_tree.specs.declared.item.Item.TheVariants as tree;
ghost use Rattle.ir_tree.specs.declared.name.Name.{Name};
ghost use Rattle.ir_tree.specs.declared.op.Op.{Op};
ghost use Rattle.std.specs.Prelude.{◌≡◌, ◌++◌, Option, None, IfOk, OnOk};

use crate::items::put_item;
use crate::ops::put_op;
use crate::sheet::Sheet;
use am_base::OutOfMemory;
use am_lists::Bytes;
use ir_tree::{Item, Module, Op};
use std::alloc::Global;

fn put_indent(out: &mut Bytes, item: &Item) -> Result<(), OutOfMemory>
    ensures { OnOk result (out.new ≡ out.old ++ indent item.now) }
{
    match item {
        Item::Instr(_, _) => out.extend(b"  ")?,
        Item::TypeDef(_, _)
        | Item::Global(_, _, _, _)
        | Item::Declare(_, _, _)
        | Item::Head(_, _, _)
        | Item::Label(_)
        | Item::End => {}
    }
    Ok(())
}

#[tactic(auto, using(crate::proofs::Printed::line_text))]
fn put_line(sheet: &mut Sheet, item: &Item) -> Result<(), OutOfMemory>
    requires { sheet.old.last ≡ None }
    ensures text { OnOk result (sheet.new.text ≡ sheet.old.text ++ line item.now) }
    ensures last { OnOk result (sheet.new.last ≡ None) }
{
    put_indent(&mut sheet.text, item)?;
    put_item(sheet, item)?;
    sheet.end_line()?;
    Ok(())
}

/// Returns the canonical text of a module. The law `canon_reads_back` says that it is read as the
/// same module.
///
/// Each item is one line that ends with byte 10, and an instruction is indented by two blanks.
/// Skipped words, flags, alignments, sections and metadata aren't in a module, and so not in its
/// text. It is refused only for want of memory. O(n) in the size of the module. The form is this
/// project's own, within the language of the LLVM Language Reference.
pub fn print(alloc: Global, m: &Module) -> Result<Vec<u8>, OutOfMemory>
    ensures { IfOk result (λ text. text.items ≡ canon m.now.items) }
{
    let mut sheet = Sheet::new(alloc);
    'each: for item in m.items.as_slice() {
        put_line(&mut sheet, item)?;
    }
    let Sheet { text, last: _ } = sheet;
    Ok(text.into_vec())
}

fn print_op(alloc: Global, op: &Op) -> Result<Vec<u8>, OutOfMemory>
    ensures { IfOk result (λ text. text.items ≡ instruction_text op.now) }
{
    let mut sheet = Sheet::new(alloc);
    put_op(&mut sheet, op)?;
    let Sheet { text, last: _ } = sheet;
    Ok(text.into_vec())
}

/// Returns the canonical text of an instruction without its result and the ` = ` after it, as a
/// list of mutants has it. The law `instruction_lines` says where the text of a module has it. It
/// is refused only for want of memory.
pub fn print_instruction(alloc: Global, item: &Item) -> Result<Vec<u8>, OutOfMemory>
    requires { IsInstr item.now }
    ensures { (n : Option Name) (op : Op)
        → item.now ≡ tree.Instr n op → IfOk result (λ text. text.items ≡ instruction_text op) }
{
    match item {
        Item::Instr(_, op) => print_op(alloc, op.get()),
        Item::TypeDef(_, _)
        | Item::Global(_, _, _, _)
        | Item::Declare(_, _, _)
        | Item::Head(_, _, _)
        | Item::Label(_)
        | Item::End => Ok(Vec::new(alloc)),
    }
}
