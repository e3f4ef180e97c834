//! What is known of the function in which an item stands.
ghost use Rattle.std.specs.Prelude.{◌≡◌, ◌≤◌, List, IfOk, OnOk, [], length, take};
ghost use Rattle.ir_tree.specs.declared.item.Item.{Item};
ghost use Rattle.ir_rules.specs.Scopes.{with_item};
ghost use Rattle.ir_rules.specs.Settings.{upto_end};
ghost use Rattle.ir_rules.specs.Settings as settings;
ghost use Rattle.ir_scopes.specs.Kinds.{kind_in};
ghost use Rattle.ir_pass.specs.Frames.{Holds, no_frame, body_at, prior_at, with_step, left};
ghost use Rattle.ir_pass.specs.Heads as heads;

use am_base::OutOfMemory;
use code_form::TyScalar;
use ir_call_rules::{Sources, sources_of};
use ir_rules::Scope;
use ir_scopes::{KindTable, add_item, empty_scope, result_kind, scope_of};
use ir_tree::Item;
use std::alloc::Global;

/// What is known of the function in which an item stands. Outside of all functions nothing is
/// defined.
#[derive(Drop)]
pub struct Frame {
    /// What the whole function defines.
    pub function: Scope,
    /// For each of its blocks the blocks that branch to it.
    pub sources: Sources,
    /// The type of its result: `None` for `void`.
    pub result: Option<Option<TyScalar>>,
    /// What its items before the item define.
    pub before: Scope,
}

/// Whether an item is the head of a function.
pub fn is_head(item: &Item) -> bool
    ensures { result ≡ heads.is_head item.now }
{
    matches!(item, Item::Head(_, _, _))
}

/// Whether an item is the end of a function.
pub fn is_end(item: &Item) -> bool
    ensures { result ≡ heads.is_end item.now }
{
    matches!(item, Item::End)
}

fn starts(items: &[Item]) -> bool
    ensures { result ≡ heads.starts items.now }
{
    match items.first() {
        None => false,
        Some(item) => is_head(item),
    }
}

/// How many items there are up to the first end, that one included.
fn len_upto_end(items: &[Item]) -> usize
    ensures within { result ≤ length items.now }
    ensures value { take result items.now ≡ upto_end items.now }
{
    'each: for (i, item) in items.iter().enumerate() {
        if is_end(item) {
            return i + 1;
        }
    }
    items.len()
}

fn result_of(kinds: &KindTable, items: &[Item]) -> Option<Option<TyScalar>>
    ensures { result ≡ settings.result_of (kind_in kinds.now.names) items.now }
{
    match items.first() {
        Some(Item::Head(_, ty, _)) => result_kind(kinds, ty),
        _ => None,
    }
}

/// Returns what is known outside of all functions. It takes no memory.
pub fn closed_frame(alloc: Global) -> Frame
    ensures { result ≡ no_frame }
{
    Frame {
        function: empty_scope(alloc),
        sources: Sources::new(alloc),
        result: None,
        before: empty_scope(alloc),
    }
}

/// What is known at the head of a function, whose items are these.
fn open_frame(alloc: Global, kinds: &KindTable, items: &[Item]) -> Result<Frame, OutOfMemory>
    ensures { let kind = kind_in kinds.now.names in
        IfOk result (λ frame. Holds kind items.now [] frame) }
{
    let function = scope_of(alloc, kinds, items)?;
    let sources = sources_of(alloc, kinds, &function.table, items)?;
    Ok(Frame {
        function,
        sources,
        result: result_of(kinds, items),
        before: empty_scope(alloc),
    })
}

/// Comes to the first of the items `rest`: a head opens a function. It takes time about linear in
/// that function's items.
pub fn enter(
    alloc: Global,
    kinds: &KindTable,
    frame: &mut Frame,
    rest: &[Item],
) -> Result<(), OutOfMemory>
    ensures { let kind = kind_in kinds.now.names in
        OnOk result ((body prior : List Item) → Holds kind body prior frame.old
        → Holds kind (body_at body rest.now) (prior_at prior rest.now) frame.new) }
{
    if starts(rest) {
        let len = len_upto_end(rest);
        *frame = open_frame(alloc, kinds, &rest[..len])?;
    }
    Ok(())
}

/// Adds what an item defines to what the items before it do.
pub fn step(
    alloc: Global,
    kinds: &KindTable,
    frame: &mut Frame,
    item: &Item,
) -> Result<(), OutOfMemory>
    ensures { let kind = kind_in kinds.now.names in
        OnOk result (frame.new ≡ with_step kind frame.old item.now) }
{
    add_item(alloc, kinds, &mut frame.before, item)
}

/// Leaves an item: an end closes its function, and outside of all functions nothing is defined.
pub fn leave(alloc: Global, frame: &mut Frame, inside: bool, item: &Item)
    ensures { frame.new ≡ left inside frame.old item.now }
{
    if is_end(item) {
        *frame = closed_frame(alloc);
    } else if !inside {
        frame.before = empty_scope(alloc);
    }
}
