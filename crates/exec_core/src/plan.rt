//! The plan of a turn: the different variants of the members, the changes that they make, and for
//! each different change its members.

ghost use Rattle.std.specs.Prelude.{◌≡◌, ◌↔◌, ℕ, ◌*◌, ◌^◌, ◌<◌, ◌≤◌, [], length, IfOk, OnOk, IsTrue, EachIndex, map, nat_eq, slice_index, ◌+◌, List, Some, slice_get};
ghost use Rattle.std.specs.Prelude.{◌==◌, ◌++◌, ◌∷◌, reverse, vec_len, vec_capacity, nat_lt, if◌then◌else◌};
ghost use Rattle.std.specs.List.{All, Contains, IsDistinct, filter};
ghost use Rattle.code_form.specs.Variant.{variant_of, IsRising};
ghost use Rattle.member_sets.specs.Members.{IsMemberList, class_at, parts_by, is_class_leader};
ghost use Rattle.traces.specs.Configuration.{variants_of};
ghost use Rattle.traces.specs.View.{Keeps, IsLive};
ghost use Rattle.traces.specs.Counts.{RoseBy, RoseWithin, AreAtMost, SameCounts};
ghost use Rattle.exec_core.specs.Counted.{tries_of_turn};
ghost use Rattle.code_form.specs.Trial.{trial_of};
ghost use Rattle.exec_core.specs.Plans.{plans_of, plans_at, KnowsTable, planned_of, states_of, own_firsts};
ghost use Rattle.exec_core.specs.Executions.{execution_of};
ghost use Rattle.exec_core.specs.ClassTable.{IsAt, with_number, firsts, HasClasses};
ghost use Rattle.member_sets.specs.Marks.{AreMarked};
ghost use Rattle.exec_core.specs.Held.{AreForksOf};
ghost use Rattle.exec_core.specs.Engines.{split_seen};

use crate::divide::Child;
use crate::execution::{Execution, put};
use crate::result::Split;
use am_base::{MAX_MUTANTS, OutOfMemory};
use am_lists::Items;
use code_form::{Place, Variants};
use exec_machine::Machine;
use member_sets::{Members, is_marked, mark, widen};
use std::alloc::Global;

/// Puts the different variants of an execution's members into one list and the changes that they
/// make into another, whatever stood there. `marks` is room for a table by variant number.
fn try_members<M: Machine>(
    alloc: Global,
    machine: &mut M,
    table: &Variants,
    e: &Execution<M::State>,
    marks: &mut Vec<u32>,
    variants: &mut Vec<u32>,
    changes: &mut Vec<M::Change>,
) -> Result<(), OutOfMemory>
    requires out { M.view.is_out machine.old e.now.state }
    requires live { IsLive M.view machine.old e.now.state }
    requires known { KnowsTable (M.view.meanings machine.old) table.now }
    requires room { AreAtMost (7 * 2 ^ 60) (M.view.counts machine.old) }
    ensures variants { OnOk result ((start : M.Meaning) (budget : ℕ) → variants.new.items
        ≡ variants_of (trial_of (M.view.meanings machine.old) table.now start budget) (execution_of M.view machine.old e.now)) }
    ensures distinct { OnOk result (IsDistinct nat_eq variants.new.items) }
    ensures few { OnOk result (length variants.new.items ≤ MAX_MUTANTS) }
    ensures members { OnOk result (IsMemberList e.now.members) }
    ensures changes { OnOk result (changes.new.items
        ≡ map (λ v. (M.view.meanings machine.old).next v (M.view.stands machine.old e.now.state)) variants.new.items) }
    ensures counts { OnOk result ((start : M.Meaning) (budget : ℕ) → RoseBy (M.view.counts machine.old) (M.view.counts machine.new)
        (tries_of_turn (trial_of (M.view.meanings machine.old) table.now start budget) (execution_of M.view machine.old e.now))) }
    ensures counts_within { (start : M.Meaning) (budget : ℕ) → RoseWithin (M.view.counts machine.old) (M.view.counts machine.new)
        (tries_of_turn (trial_of (M.view.meanings machine.old) table.now start budget) (execution_of M.view machine.old e.now)) }
    ensures out_numbers { M.view.out_numbers machine.new ≡ M.view.out_numbers machine.old }
    ensures keeps { Keeps M.view machine.old machine.new [] }
{
    let place = machine.place(&e.state);
    let _len = e.members.len();
    variants_in(&e.members, table, place, marks, variants)?;
    changes.clear();
    machine.tries(alloc, &e.state, variants, changes)?;
    Ok(())
}

/// Whether all numbers are 0.
fn are_zero(numbers: &[u32]) -> bool
    ensures { IsTrue result ↔ EachIndex numbers.now (λ k. slice_index numbers.now k ≡ 0) }
{
    numbers.iter().all(|n| *n == 0)
}

/// Tries the different variants of an execution's members, and gives a plan for each different
/// change. Where they make one change it gives none: that is the first of `changes` then. `classes`
/// is room for a table by variant number, whose entries mean nothing before and afterwards.
pub fn make_plans<M: Machine>(
    alloc: Global,
    machine: &mut M,
    table: &Variants,
    e: &Execution<M::State>,
    classes: &mut Vec<u32>,
    variants: &mut Vec<u32>,
    changes: &mut Vec<M::Change>,
) -> Result<Vec<Plan<M::Change>>, OutOfMemory>
    requires out { M.view.is_out machine.old e.now.state }
    requires live { IsLive M.view machine.old e.now.state }
    requires known { KnowsTable (M.view.meanings machine.old) table.now }
    requires room { AreAtMost (7 * 2 ^ 60) (M.view.counts machine.old) }
    ensures one { IfOk result (λ plans. plans.items ≡ [] → (c : M.Change) → slice_get changes.new.items 0 ≡ Some c → (start : M.Meaning) (budget : ℕ)
        → (e.now.members, c) ∷ [] ≡ plans_at (trial_of (M.view.meanings machine.old) table.now start budget) (execution_of M.view machine.old e.now)) }
    ensures some { IfOk result (λ plans. plans.items ≡ [] → 0 < vec_len changes.new) }
    ensures several { IfOk result (λ plans. 0 < vec_len plans → (start : M.Meaning) (budget : ℕ) → plans_of plans.items
        ≡ plans_at (trial_of (M.view.meanings machine.old) table.now start budget) (execution_of M.view machine.old e.now)) }
    ensures variants { OnOk result ((start : M.Meaning) (budget : ℕ) → variants.new.items
        ≡ variants_of (trial_of (M.view.meanings machine.old) table.now start budget) (execution_of M.view machine.old e.now)) }
    ensures few { OnOk result (length variants.new.items ≤ MAX_MUTANTS) }
    ensures members { OnOk result (IsMemberList e.now.members) }
    ensures counts { OnOk result ((start : M.Meaning) (budget : ℕ) → RoseBy (M.view.counts machine.old) (M.view.counts machine.new)
        (tries_of_turn (trial_of (M.view.meanings machine.old) table.now start budget) (execution_of M.view machine.old e.now))) }
    ensures counts_within { (start : M.Meaning) (budget : ℕ) → RoseWithin (M.view.counts machine.old) (M.view.counts machine.new)
        (tries_of_turn (trial_of (M.view.meanings machine.old) table.now start budget) (execution_of M.view machine.old e.now)) }
    ensures out_numbers { M.view.out_numbers machine.new ≡ M.view.out_numbers machine.old }
    ensures keeps { Keeps M.view machine.old machine.new [] }
{
    let place = machine.place(&e.state);
    try_members(alloc, machine, table, e, classes, variants, changes)?;
    if changes.len() == 1 {
        return Ok(Vec::new(alloc));
    }
    let numbers = machine.group(alloc, changes)?;
    if are_zero(numbers.as_slice()) {
        return Ok(Vec::new(alloc));
    }
    write_classes(classes, variants, numbers.as_slice())?;
    let parts = e.members.split_by(alloc, table, place, classes)?;
    let plans = plans_for(alloc, parts, changes, numbers.as_slice())?;
    Ok(plans)
}

/// Appends a number that isn't among these yet. Each of them has its index in the table of marks.
/// O(1).
fn add(marks: &mut Vec<u32>, numbers: &mut Vec<u32>, number: u32) -> Result<(), OutOfMemory>
    requires marked { AreMarked numbers.old.items marks.old.items }
    requires distinct { IsDistinct nat_eq numbers.old.items }
    requires few { length numbers.old.items < 2 ^ 32 }
    ensures marked { OnOk result (AreMarked numbers.new.items marks.new.items) }
    ensures distinct { OnOk result (IsDistinct nat_eq numbers.new.items) }
    ensures added { OnOk result (numbers.new.items ≡ with_number numbers.old.items number) }
{
    if !is_marked(marks, numbers, number) {
        mark(marks, numbers, number)?;
    }
    Ok(())
}

/// Goes over the members from the index `at` up to the index `end`, all of which have variant 0.
/// O(1).
fn add_originals(
    marks: &mut Vec<u32>,
    variants: &mut Vec<u32>,
    at: usize,
    end: usize,
) -> Result<(), OutOfMemory>
    requires marked { AreMarked variants.old.items marks.old.items }
    requires distinct { IsDistinct nat_eq variants.old.items }
    requires few { length variants.old.items < 2 ^ 32 }
    ensures marked { OnOk result (AreMarked variants.new.items marks.new.items) }
    ensures distinct { OnOk result (IsDistinct nat_eq variants.new.items) }
    ensures few { OnOk result (length variants.new.items ≤ length variants.old.items + 1) }
    ensures variants { OnOk result ((v : ℕ → ℕ) (members : List ℕ) → IsMemberList members → at ≤ end → end ≤ length members
        → ((k : ℕ) → at ≤ k → k < end → v (slice_index members k) ≡ 0)
        → variants.old.items ≡ firsts v members at → variants.new.items ≡ firsts v members end) }
{
    if at < end {
        add(marks, variants, 0)?;
    }
    Ok(())
}

/// Goes over the members from the index `at` up to the mutant `m`, which has this variant. Returns
/// the index behind it, or `at` where it is no member. O(1), and O(log n) where the members are few.
fn visit(
    marks: &mut Vec<u32>,
    variants: &mut Vec<u32>,
    members: &Members,
    at: usize,
    m: u32,
    variant: u32,
) -> Result<usize, OutOfMemory>
    requires marked { AreMarked variants.old.items marks.old.items }
    requires distinct { IsDistinct nat_eq variants.old.items }
    requires few { length variants.old.items + 1 < 2 ^ 32 }
    requires members { IsMemberList members.now }
    ensures marked { OnOk result (AreMarked variants.new.items marks.new.items) }
    ensures distinct { OnOk result (IsDistinct nat_eq variants.new.items) }
    ensures next { IfOk result (λ next. (v : ℕ → ℕ) (touched : List ℕ) (i : ℕ) → IsRising touched → i < length touched
        → slice_index touched i ≡ m → variant ≡ v m → IsAt v members.now touched i at → variants.old.items ≡ firsts v members.now at
        → IsAt v members.now touched (i + 1) next × (variants.new.items ≡ firsts v members.now next)) }
{
    match members.index_of(m) {
        Some(found) => {
            add_originals(marks, variants, at, found)?;
            add(marks, variants, variant)?;
            Ok(found + 1)
        }
        None => Ok(at),
    }
}

/// Makes the list the different variants of the members at the place, in order of the least member
/// that has each, whatever stood there. `marks` is room for a table by variant number, whose entries
/// mean nothing before and afterwards.
///
/// It looks up each mutant that has a replacement at the place. All other members have variant 0,
/// and aren't looked at: O(w) for w such mutants, and O(w log n) where the n members are few.
pub fn variants_in(
    members: &Members,
    table: &Variants,
    place: Place,
    marks: &mut Vec<u32>,
    variants: &mut Vec<u32>,
) -> Result<(), OutOfMemory>
    requires { IsMemberList members.now }
    ensures variants { OnOk result (variants.new.items
        ≡ map (λ m. variant_of table.now m place.0) (filter (is_class_leader (λ m. variant_of table.now m place.0) members.now) members.now)) }
    ensures distinct { OnOk result (IsDistinct nat_eq variants.new.items) }
{
    variants.clear();
    let touched = table.mutants_at(place);
    let mut at = 0;
    for m in touched {
        let variant = table.variant(*m, place);
        at = visit(marks, variants, members, at, *m, variant)?;
    }
    add_originals(marks, variants, at, members.len() as usize)?;
    Ok(())
}

/// The greatest of the numbers, and 0 where there is none.
fn greatest(numbers: &[u32]) -> u32
    ensures { All (λ n. n ≤ result) numbers.now }
{
    let mut top = 0;
    for n in numbers {
        top = top.max(*n);
    }
    top
}

/// Writes for each of these variants its class into the table, by the variant's number. The table
/// grows where it must; its other entries mean nothing.
pub fn write_classes(
    table: &mut Vec<u32>,
    variants: &[u32],
    classes: &[u32],
) -> Result<(), OutOfMemory>
    requires distinct { IsDistinct nat_eq variants.now }
    requires as_many { length classes.now ≡ length variants.now }
    ensures { OnOk result (HasClasses variants.now classes.now table.new.items) }
{
    let top = greatest(variants);
    widen(table, top as usize + 1)?;
    for (at, v) in variants.iter().enumerate() {
        table[*v as usize] = classes[at];
    }
    Ok(())
}

/// Members and the change that they make.
#[derive(Drop)]
pub struct Plan<C> {
    pub members: Members,
    pub change: C,
}

/// Forks the state once for each plan, from the last plan to the first. After a refusal the forks
/// made so far are there.
pub fn fork_plans<M: Machine>(
    alloc: Global,
    machine: &mut M,
    s: &M::State,
    plans: &mut Vec<Plan<M::Change>>,
    children: &mut Vec<Child<M::State, M::Change>>,
) -> Result<(), OutOfMemory>
    requires out { M.view.is_out machine.old s.now }
    requires empty { children.old.items ≡ [] }
    requires room { vec_len plans.old + vec_len children.old ≤ vec_capacity children.old }
    ensures plans { OnOk result (map planned_of children.new.items ≡ reverse (map (λ p. (p.members, p.change)) plans.old.items)) }
    ensures empty { OnOk result (plans.new.items ≡ []) }
    ensures forks { AreForksOf M.view machine.old s.now machine.new (states_of children.new.items) }
    ensures counts { SameCounts (M.view.counts machine.old) (M.view.counts machine.new) }
    ensures keeps { Keeps M.view machine.old machine.new [] }
    ensures capacity { vec_capacity children.old ≤ vec_capacity children.new }
    ensures len { vec_len children.new ≤ vec_len children.old + vec_len plans.old }
{
    while let Some(plan) = plans.pop() {
        let state = machine.fork(alloc, s)?;
        let Plan { members, change } = plan;
        put(
            children,
            Child {
                state,
                members,
                change,
            },
        );
    }
    Ok(())
}

/// Gives each part the change of its members, in the order of the parts: the k-th part has the k-th
/// of the changes whose number is their own index. No change is left in the list.
pub fn plans_for<C: Drop>(
    alloc: Global,
    mut parts: Items<Members>,
    changes: &mut Vec<C>,
    numbers: &[u32],
) -> Result<Vec<Plan<C>>, OutOfMemory>
    requires numbers { length numbers.now ≡ length changes.old.items }
    requires as_many { length parts ≡ length (own_firsts numbers.now 0 changes.old.items) }
    ensures members { IfOk result (λ plans. map (λ p. p.members) plans.items ≡ parts) }
    ensures changes { IfOk result (λ plans. map (λ p. p.change) plans.items ≡ own_firsts numbers.now 0 changes.old.items) }
{
    let mut plans = Vec::with_capacity(alloc, parts.len())?;
    while let Some(change) = changes.pop() {
        let at = changes.len();
        if numbers[at] as usize == at {
            let members = parts.pop().unwrap();
            plans.push(Plan { members, change })?;
        }
    }
    plans.reverse();
    Ok(plans)
}

/// The least member of each plan's members.
fn least_of<C>(alloc: Global, plans: &[Plan<C>]) -> Result<Items<u32>, OutOfMemory>
    ensures { IfOk result (λ members. members ≡ map (λ p. slice_index p.members 0) plans.now) }
{
    let mut members = Vec::with_capacity(alloc, plans.len())?;
    for plan in plans {
        members.push(plan.members.least())?;
    }
    Ok(Items::from_vec(members))
}

/// Writes down that an execution is divided at this step, where there are two plans or more.
pub fn note_split<C>(
    alloc: Global,
    step: u64,
    plans: &[Plan<C>],
    splits: &mut Vec<Split>,
) -> Result<(), OutOfMemory>
    ensures { OnOk result (map split_seen splits.new.items ≡ map split_seen splits.old.items
        ++ (if nat_lt 1 (length plans.now) then (step, map (λ p. slice_index p.members 0) plans.now) ∷ [] else [])) }
{
    if plans.len() > 1 {
        let parts = least_of(alloc, plans)?;
        splits.push(Split { step, parts })?;
    }
    Ok(())
}
