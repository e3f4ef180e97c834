//! The records that are made so far.
ghost use Rattle.std.specs.Prelude.{◌≡◌, ◌++◌, ◌∷◌, [], if◌then◌else◌, IfOk, None, OnOk, Option};
ghost use Rattle.ir_text.specs.Lines.{instruction_text};
ghost use Rattle.ir_text.specs.Texts.{IsInstr};
ghost use Rattle.ir_tree.specs.declared.item.Item.TheVariants as tree;
ghost use Rattle.ir_tree.specs.declared.name.Name.{Name};
ghost use Rattle.ir_tree.specs.declared.op.Op.{Op};
ghost use Rattle.mutant_maker.specs.Lists.{made_in};
ghost use Rattle.mutant_maker.specs.Walks.{row_of, with_ops};
ghost use Rattle.mutant_maker.specs.Changes.{changed};

use crate::changes::{Change, apply};
use am_base::{MAX_LISTED_MUTANTS, OutOfMemory};
use am_lists::{Bytes, Items};
use ir_text::print_instruction;
use ir_tree::{Item, Op};
use sqlite_items::Boxed;
use std::alloc::Global;

/// The fields of a record of a list.
#[derive(Drop)]
pub struct Row {
    /// The name of the function.
    pub function: Bytes,
    /// The number of the instruction in it, from 1.
    pub instruction: usize,
    /// The text of what stands in its place.
    pub replacement: Bytes,
}

/// The records so far, at most one more than a list may have, and where the walk over the items is.
#[derive(Drop)]
pub(crate) struct Walk {
    pub rows: Items<Row>,
    /// The name of the function.
    pub function: Bytes,
    /// The number of the instruction in it, from 1; 0 before the first one.
    pub instruction: usize,
    /// How many instructions of the module stand before it.
    pub place: usize,
}

/// Returns an instruction with one part changed.
fn changed_copy(alloc: Global, op: &Op, change: Change) -> Result<Box<Op>, OutOfMemory>
    ensures { IfOk result (λ new. new.value ≡ changed op.now change) }
{
    let mut new = Box::new(alloc, op.copy(alloc)?)?;
    apply(alloc, &mut new, change)?;
    Ok(new)
}

/// Returns the canonical text of an item that is an instruction.
fn item_text(alloc: Global, item: &Item) -> Result<Bytes, OutOfMemory>
    requires { IsInstr item.now }
    ensures { (name : Option Name) (op : Op) → item.now ≡ tree.Instr name op
        → IfOk result (λ text. text ≡ instruction_text op) }
{
    let text = print_instruction(alloc, item)?;
    Ok(Bytes::from_vec(text))
}

/// Returns the canonical text of an instruction with one part changed.
fn text_of(alloc: Global, op: &Op, change: Change) -> Result<Bytes, OutOfMemory>
    ensures { IfOk result (λ text. text ≡ instruction_text (changed op.now change)) }
{
    let new = changed_copy(alloc, op, change)?;
    let new = Boxed::new(alloc, Box::into_inner(new))?;
    let item = Item::Instr(None, new);
    item_text(alloc, &item)
}

impl Walk {
    /// Returns a walk at the front of the items, without a record.
    pub(crate) fn new(alloc: Global) -> Walk
        ensures { result ≡ record { rows = []; function = []; instruction = 0; place = 0 } }
    {
        Walk {
            rows: Items::new(alloc),
            function: Bytes::new(alloc),
            instruction: 0,
            place: 0,
        }
    }

    fn push(&mut self, alloc: Global, op: &Op, change: Change) -> Result<(), OutOfMemory>
        ensures { OnOk result (self.new ≡ record self.old {
          rows = self.old.rows
              ++ row_of (made_in self.old.function self.old.instruction (changed op.now change)) ∷ [];
        }) }
    {
        let row = Row {
            function: self.function.copy(alloc)?,
            instruction: self.instruction,
            replacement: text_of(alloc, op, change)?,
        };
        self.rows.push(row)?;
        Ok(())
    }

    /// Adds the record of the instruction with one part changed, unless there are too many records.
    #[tactic(auto, using(crate::proofs::Steps::full, crate::proofs::Steps::room))]
    pub(crate) fn put(&mut self, alloc: Global, op: &Op, change: Change) -> Result<(), OutOfMemory>
        ensures { OnOk result (self.new ≡ with_ops self.old (changed op.now change ∷ [])) }
    {
        if self.rows.len() > MAX_LISTED_MUTANTS as usize {
            return Ok(());
        }
        self.push(alloc, op, change)
    }
    /// Adds the record of the instruction with one part changed, unless that is the old part.
    #[tactic(auto, using(crate::proofs::Steps::done))]
    pub(crate) fn put_unless(
        &mut self,
        alloc: Global,
        op: &Op,
        is_old: bool,
        change: Change,
    ) -> Result<(), OutOfMemory>
        ensures { OnOk result (self.new
            ≡ with_ops self.old (if is_old then [] else changed op.now change ∷ [])) }
    {
        if is_old {
            return Ok(());
        }
        self.put(alloc, op, change)
    }
}
