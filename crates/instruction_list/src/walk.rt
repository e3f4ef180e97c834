//! The walk over the items of a module.
ghost use Rattle.std.specs.Prelude.{◌≡◌, ◌<◌, ◌-◌, ◌^◌, [], IfOk, OnOk};
ghost use Rattle.ir_text.specs.Texts.{IsInstr};
ghost use Rattle.ir_tree.specs.declared.item.Item.TheVariants as tree;
ghost use Rattle.ir_tree.specs.declared.name.Name.{Name};
ghost use Rattle.ir_tree.specs.declared.op.Op.{Op};
ghost use Rattle.std.specs.Prelude.{Option};
ghost use Rattle.ir_text.specs.Lines.{instruction_text};
ghost use Rattle.instruction_list.specs.Lines as spec;
ghost use Rattle.instruction_list.specs.Walks.{with_item};

use crate::line::Line;
use am_base::OutOfMemory;
use am_lists::{Bytes, Items};
use ir_call_rules::name_bytes;
use ir_text::print_instruction;
use ir_tree::Item;
use std::alloc::Global;

/// The lines so far, and where the walk over the items is.
#[derive(Drop)]
pub(crate) struct Walk {
    pub lines: Items<Line>,
    /// The name of the function.
    pub function: Bytes,
    /// How many of its instructions stand before.
    pub count: u64,
}

/// Adds the line of an instruction.
fn put_line(alloc: Global, walk: &mut Walk, item: &Item) -> Result<(), OutOfMemory>
    requires instruction { IsInstr item.now }
    requires few { walk.old.count < 2 ^ 64 - 1 }
    ensures { OnOk result (walk.new ≡ with_item walk.old item.now) }
{
    let text = Bytes::from_vec(print_instruction(alloc, item)?);
    let function = walk.function.copy(alloc)?;
    walk.count += 1;
    let number = walk.count;
    walk.lines.push(Line {
        function,
        number,
        text,
    })?;
    Ok(())
}

/// Goes over one item.
fn step(alloc: Global, walk: &mut Walk, item: &Item) -> Result<(), OutOfMemory>
    requires few { walk.old.count < 2 ^ 64 - 1 }
    ensures { OnOk result (walk.new ≡ with_item walk.old item.now) }
{
    match item {
        Item::Head(name, _, _) => {
            walk.function = name_bytes(alloc, name)?;
            walk.count = 0;
        }
        Item::Instr(_, _) => put_line(alloc, walk, item)?,
        _ => {}
    }
    Ok(())
}

/// Returns the instructions of a module with these items, in text order: each with the name of its
/// function, its number there from 1, `phi` included, and its canonical text. It is refused only for
/// want of memory. O(n) in the bytes of the module and of the lines.
pub fn lines_of(alloc: Global, items: &[Item]) -> Result<Items<Line>, OutOfMemory>
    ensures { IfOk result (λ lines. lines ≡ spec.lines_of items.now) }
{
    let mut walk = Walk {
        lines: Items::new(alloc),
        function: Bytes::new(alloc),
        count: 0,
    };
    'each: for item in items {
        step(alloc, &mut walk, item)?;
    }
    let Walk {
        lines,
        function: _,
        count: _,
    } = walk;
    Ok(lines)
}
