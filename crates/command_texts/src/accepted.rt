//! The text of an accepted module.

ghost use Rattle.std.specs.Prelude.{◌≡◌, ◌≤◌, IfOk, false, length};
ghost use Rattle.command_texts.specs.Accepted as spec;

use am_base::OutOfMemory;
use am_lists::Bytes;
use ir_tree::Item;
use line_parts::{put_after, put_number};
use std::alloc::Global;

#[tactic(auto, unfolding(crate::specs::Accepted::is_head))]
fn is_head(item: &Item) -> bool
    ensures { result ≡ spec.is_head item.now }
{
    matches!(item, Item::Head(_, _, _))
}

#[tactic(auto, unfolding(crate::specs::Accepted::is_label))]
fn is_label(item: &Item) -> bool
    ensures { result ≡ spec.is_label item.now }
{
    matches!(item, Item::Label(_))
}

#[tactic(auto, unfolding(crate::specs::Accepted::is_instruction))]
fn is_instruction(item: &Item) -> bool
    ensures { result ≡ spec.is_instruction item.now }
{
    matches!(item, Item::Instr(_, _))
}

#[tactic(auto, unfolding(crate::specs::Accepted::is_global))]
fn is_global(item: &Item) -> bool
    ensures { result ≡ spec.is_global item.now }
{
    matches!(item, Item::Global(_, _, _, _))
}

/// The kinds of items that are counted.
#[derive(Clone, Copy)]
enum Kind {
    Head,
    Label,
    Instruction,
    Global,
}

fn is_kind(kind: Kind, item: &Item) -> bool
    ensures { result ≡ spec.test_of kind item.now }
{
    match kind {
        Kind::Head => is_head(item),
        Kind::Label => is_label(item),
        Kind::Instruction => is_instruction(item),
        Kind::Global => is_global(item),
    }
}

/// How many items are of a kind.
fn count_of(kind: Kind, items: &[Item]) -> usize
    ensures value { result ≡ spec.count_of (spec.test_of kind) items.now }
    ensures few { result ≤ length items.now }
{
    let mut count = 0;
    'items: for item in items {
        if is_kind(kind, item) {
            count += 1;
        }
    }
    count
}

/// How many functions begin with a block that has no label.
fn unlabelled_of(items: &[Item]) -> usize
    ensures value { result ≡ spec.unlabelled_behind false items.now }
    ensures few { result ≤ length items.now }
{
    let mut count = 0;
    let mut behind_head = false;
    'items: for item in items {
        if behind_head && is_instruction(item) {
            count += 1;
        }
        behind_head = is_head(item);
    }
    count
}

fn blocks_of(items: &[Item]) -> u64
    ensures { result ≡ spec.block_count items.now }
{
    count_of(Kind::Label, items) as u64 + unlabelled_of(items) as u64
}

/// Returns the line `accepted,FUNCTIONS,BLOCKS,INSTRUCTIONS,GLOBALS` of a module with these items:
/// how many functions it defines, the blocks of these, a first one without a label included, their
/// instructions, `phi` included, and the module's globals, constant ones included. O(n) in the
/// items.
pub fn accepted_text(alloc: Global, items: &[Item]) -> Result<Bytes, OutOfMemory>
    ensures { IfOk result (λ text. text ≡ spec.accepted_text items.now) }
{
    let mut text = Bytes::new(alloc);
    text.extend(b"accepted,")?;
    put_number(&mut text, count_of(Kind::Head, items) as u64)?;
    put_after(&mut text, b',', blocks_of(items))?;
    put_after(&mut text, b',', count_of(Kind::Instruction, items) as u64)?;
    put_after(&mut text, b',', count_of(Kind::Global, items) as u64)?;
    text.push(b'\n')?;
    Ok(text)
}
