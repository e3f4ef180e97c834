//! The executions of an analysis, and what it has taken so far.

ghost use Rattle.std.specs.Prelude.{◌≡◌, [], OnOk};
ghost use Rattle.exec_core.specs.Engines.{KeepsExecutions, HasRoomFor, IsIdle};

use crate::divide::Child;
use crate::execution::Execution;
use crate::result::Split;
use am_base::OutOfMemory;
use std::alloc::Global;

/// The executions of an analysis and what it has taken so far.
pub struct Engine<S, C> {
    /// Those that go on, and those that have ended.
    pub lives: Vec<Execution<S>>,
    pub ended: Vec<Execution<S>>,
    /// The divisions, in the order of the turns.
    pub splits: Vec<Split>,
    /// How many variants were tried, and how many changes the mutants would have made so far, each
    /// by itself.
    pub tries: u64,
    pub alone: u64,
    /// Room for a turn, empty between turns.
    pub children: Vec<Child<S, C>>,
    pub readied: Vec<Child<S, C>>,
    pub made: Vec<Execution<S>>,
    /// Room for a table by variant number, of marks and then of classes, whose entries mean nothing
    /// between turns.
    pub classes: Vec<u32>,
    /// Room for the variants that were tried and for their changes, which mean nothing between turns.
    pub variants: Vec<u32>,
    pub changes: Vec<C>,
}

/// An engine without an execution. It takes no memory.
pub fn idle<S, C>(alloc: Global) -> Engine<S, C>
    ensures idle { IsIdle result }
    ensures lives { result.lives.items ≡ [] }
    ensures ended { result.ended.items ≡ [] }
    ensures splits { result.splits.items ≡ [] }
    ensures tries { result.tries ≡ 0 }
    ensures alone { result.alone ≡ 0 }
{
    Engine {
        lives: Vec::new(alloc),
        ended: Vec::new(alloc),
        splits: Vec::new(alloc),
        tries: 0,
        alone: 0,
        children: Vec::new(alloc),
        readied: Vec::new(alloc),
        made: Vec::new(alloc),
        classes: Vec::new(alloc),
        variants: Vec::new(alloc),
        changes: Vec::new(alloc),
    }
}

/// Makes room for the parts of a turn, that many of them.
pub fn make_room<S, C>(engine: &mut Engine<S, C>, parts: usize) -> Result<(), OutOfMemory>
    ensures room { OnOk result (HasRoomFor parts engine.new) }
    ensures kept { KeepsExecutions engine.old engine.new }
    ensures splits { engine.new.splits.items ≡ engine.old.splits.items }
    ensures tries { engine.new.tries ≡ engine.old.tries }
    ensures alone { engine.new.alone ≡ engine.old.alone }
{
    engine.lives.reserve(parts)?;
    engine.ended.reserve(parts)?;
    engine.children.reserve(parts)?;
    engine.readied.reserve(parts)?;
    engine.made.reserve(parts)?;
    Ok(())
}
