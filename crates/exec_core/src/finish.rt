//! What an analysis gives, and the release of all that it holds.

ghost use Rattle.std.specs.Prelude.{◌≡◌, ℕ, ◌≤◌, ◌++◌, [], List, length, map, nat_eq, slice_index, vec_len, vec_capacity};
ghost use Rattle.std.specs.List.{All, AllPairs, IsDistinct};
ghost use Rattle.std.specs.List.Sorted.{IsPermutation, IsNonDecreasingBy};
ghost use Rattle.traces.specs.Counts.{SameCounts};
ghost use Rattle.traces.specs.View.{Keeps};
ghost use Rattle.exec_core.specs.Analysed.{class_from};
ghost use Rattle.exec_core.specs.Engines.{IsIdle, split_seen};
ghost use Rattle.exec_core.specs.Executions.{state_numbers};
ghost use Rattle.traces.specs.Splits.{IsEarlier};

use crate::engine::Engine;
use crate::execution::{Execution, put, release_executions};
use crate::result::{Analysis, Class, Split, Work};
use am_lists::Items;
use exec_machine::Machine;

/// Makes each execution a class, from the last to the first.
fn move_classes<S>(ended: &mut Vec<Execution<S>>, classes: &mut Vec<Class<S>>)
    requires empty { classes.old.items ≡ [] }
    requires room { vec_len ended.old ≤ vec_capacity classes.old }
    ensures moved { IsPermutation (map class_from ended.old.items) classes.new.items }
    ensures empty { ended.new.items ≡ [] }
{
    while let Some(l) = ended.pop() {
        let Execution {
            step,
            members,
            state,
        } = l;
        put(
            classes,
            Class {
                state,
                members,
                length: step,
            },
        );
    }
}

/// What an analysis gives, where no execution goes on. `classes` has room for the executions that
/// have ended.
pub fn analysis_of<S, C: Drop>(
    engine: Engine<S, C>,
    mut classes: Vec<Class<S>>,
    steps: u64,
) -> Analysis<S>
    requires idle { IsIdle engine }
    requires over { engine.lives.items ≡ [] }
    requires empty { classes.items ≡ [] }
    requires room { vec_len engine.ended ≤ vec_capacity classes }
    ensures moved { IsPermutation (map class_from engine.ended.items) result.classes }
    ensures rising { IsNonDecreasingBy (λ c. slice_index c.members 0) result.classes }
    ensures splits { (ordered : List (ℕ × List ℕ)) → IsPermutation (map split_seen engine.splits.items) ordered → AllPairs IsEarlier ordered
        → map split_seen result.splits ≡ ordered }
    ensures steps { result.work.steps ≡ steps }
    ensures alone { result.work.alone ≡ engine.alone }
    ensures tries { result.work.tries ≡ engine.tries }
    ensures executions { result.work.executions ≡ length engine.ended.items }
{
    let Engine {
        lives,
        mut ended,
        mut splits,
        tries,
        alone,
        children,
        readied,
        made,
        classes: _,
        variants: _,
        changes: _,
    } = engine;
    let executions = ended.len() as u64;
    move_classes(&mut ended, &mut classes);
    lives.destroy_empty();
    ended.destroy_empty();
    children.destroy_empty();
    readied.destroy_empty();
    made.destroy_empty();
    sort_classes(&mut classes);
    sort_splits(&mut splits);
    Analysis {
        classes: Items::from_vec(classes),
        splits: Items::from_vec(splits),
        work: Work {
            steps,
            alone,
            tries,
            executions,
        },
    }
}

/// Releases the states of all executions.
pub fn release_engine<M: Machine>(machine: &mut M, engine: Engine<M::State, M::Change>)
    requires idle { IsIdle engine }
    requires out { All (λ l. M.view.is_out machine.old l.state) (engine.lives.items ++ engine.ended.items) }
    requires distinct { IsDistinct nat_eq (state_numbers M.view (engine.lives.items ++ engine.ended.items)) }
    ensures out_numbers { IsPermutation (M.view.out_numbers machine.old)
        (state_numbers M.view (engine.lives.items ++ engine.ended.items) ++ M.view.out_numbers machine.new) }
    ensures counts { SameCounts (M.view.counts machine.old) (M.view.counts machine.new) }
    ensures keeps { Keeps M.view machine.old machine.new (state_numbers M.view (engine.lives.items ++ engine.ended.items)) }
{
    let Engine {
        lives,
        ended,
        splits: _,
        tries: _,
        alone: _,
        children,
        readied,
        made,
        classes: _,
        variants: _,
        changes: _,
    } = engine;
    children.destroy_empty();
    readied.destroy_empty();
    made.destroy_empty();
    release_executions(machine, lives);
    release_executions(machine, ended);
}

/// The first part of a split, and 0 where it has none.
fn first_part(split: &Split) -> u32
    ensures { result ≡ slice_index split.now.parts 0 }
{
    match split.parts.get(0) {
        Some(m) => *m,
        None => 0,
    }
}

/// Puts the splits in order of step, then of the first part.
pub fn sort_splits(splits: &mut Vec<Split>)
    ensures { (ordered : List (ℕ × List ℕ)) → IsPermutation (map split_seen splits.old.items) ordered → AllPairs IsEarlier ordered
        → map split_seen splits.new.items ≡ ordered }
{
    splits.sort_unstable_by_key(|split| (split.step, first_part(split)));
}

/// Puts the classes in order of least member.
pub fn sort_classes<S>(classes: &mut Vec<Class<S>>)
    ensures moved { IsPermutation classes.old.items classes.new.items }
    ensures rising { IsNonDecreasingBy (λ c. slice_index c.members 0) classes.new.items }
{
    classes.sort_unstable_by_key(|class| class.members.least());
}
