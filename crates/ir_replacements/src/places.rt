//! The instructions of a module by their places in the code, each with its function.
ghost use Rattle.std.specs.Prelude.{◌≡◌, [], ◌∷◌, length, IfOk, OnOk};
ghost use Rattle.ir_scopes.specs.Kinds.{kind_in};
ghost use Rattle.ir_pass.specs.Frames.{body_at, no_frame};
ghost use Rattle.ir_replacements.specs.Places.{IsFrameOf, IsOpened, IsAdded, IsNoted, IsPassed};

use crate::labels::labels_of;
use am_base::OutOfMemory;
use am_lists::Items;
use ir_names::NameTable;
use ir_pass::{Frame, closed_frame, enter};
use ir_scopes::KindTable;
use ir_tree::{Item, Op};
use std::alloc::Global;

/// An instruction of a module.
#[derive(Drop)]
pub struct Spot<'a> {
    /// The instruction itself.
    pub op: &'a Op,
    /// The labels that it may go to.
    pub labels: NameTable<()>,
    /// The number of the frame of its function.
    pub frame: usize,
}

/// The instructions of some items by their places in the code, and what is known of each function.
/// Frame 0 is that of no function.
#[derive(Drop)]
pub struct Places<'a> {
    pub frames: Items<Frame>,
    pub spots: Items<Spot<'a>>,
    /// The number of the frame of the function that is open.
    pub current: usize,
}

/// Returns what is known of the function whose head is the first of some items; what is known of
/// no function, where that is no head.
fn frame_of(alloc: Global, kinds: &KindTable, rest: &[Item]) -> Result<Frame, OutOfMemory>
    ensures { let kind = kind_in kinds.now.names in
        IfOk result (λ frame. IsFrameOf kind (body_at [] rest.now) frame) }
{
    let mut frame = closed_frame(alloc);
    enter(alloc, kinds, &mut frame, rest)?;
    Ok(frame)
}

fn open_function(
    alloc: Global,
    kinds: &KindTable,
    places: &mut Places<'_>,
    rest: &[Item],
) -> Result<(), OutOfMemory>
    ensures { let kind = kind_in kinds.now.names in
        OnOk result (IsOpened kind rest.now places.old places.new) }
{
    let frame = frame_of(alloc, kinds, rest)?;
    let number = places.frames.len();
    places.frames.push(frame)?;
    places.current = number;
    Ok(())
}

fn add_spot<'a>(alloc: Global, places: &mut Places<'a>, op: &'a Op) -> Result<(), OutOfMemory>
    ensures { OnOk result (IsAdded op.now places.old places.new) }
{
    let spot = Spot {
        op,
        labels: labels_of(alloc, op)?,
        frame: places.current,
    };
    places.spots.push(spot)?;
    Ok(())
}

/// Goes over an item, the first of `rest`.
fn note<'a>(
    alloc: Global,
    kinds: &KindTable,
    places: &mut Places<'a>,
    rest: &[Item],
    item: &'a Item,
) -> Result<(), OutOfMemory>
    ensures { let kind = kind_in kinds.now.names in
        OnOk result (IsNoted kind rest.now item.now places.old places.new) }
{
    match item {
        Item::Head(_, _, _) => open_function(alloc, kinds, places, rest),
        Item::End => {
            places.current = 0;
            Ok(())
        }
        Item::Instr(_, op) => add_spot(alloc, places, op.get()),
        _ => Ok(()),
    }
}

/// Returns the places of no items.
fn no_places<'a>(alloc: Global) -> Result<Places<'a>, OutOfMemory>
    ensures frames { IfOk result (λ p. p.frames ≡ no_frame ∷ []) }
    ensures spots { IfOk result (λ p. p.spots ≡ []) }
    ensures current { IfOk result (λ p. p.current ≡ 0) }
{
    let mut frames = Items::new(alloc);
    frames.push(closed_frame(alloc))?;
    Ok(Places {
        frames,
        spots: Items::new(alloc),
        current: 0,
    })
}

/// Returns the instructions of a module by their places in the code, each with its function. It
/// takes time about linear in the items.
pub fn places_of<'a>(
    alloc: Global,
    kinds: &KindTable,
    items: &'a [Item],
) -> Result<Places<'a>, OutOfMemory>
    ensures { let kind = kind_in kinds.now.names in
        IfOk result (λ p. IsPassed kind items.now (length items.now) p) }
{
    let mut places = no_places(alloc)?;
    'each: for (i, item) in items.iter().enumerate() {
        note(alloc, kinds, &mut places, &items[i..], item)?;
    }
    Ok(places)
}
