//! Divides an execution by the plans of its turn: states are forked and readied, and then each
//! makes its change.

ghost use Rattle.std.specs.Prelude.{◌≡◌, ℕ, ◌+◌, ◌^◌, ◌<◌, ◌≤◌, [], OnOk, OnErr, IfErr, vec_len, vec_capacity, length, ◌∷◌, ◌++◌, map, reverse, nat_eq};
ghost use Rattle.std.specs.List.{All, IsDistinct};
ghost use Rattle.traces.specs.View.{IsKnown, IsLive, Keeps};
ghost use Rattle.exec_core.specs.Executions.{IsExecutionBack};
ghost use Rattle.exec_core.specs.Plans.{plans_of, plan_weights, ArePrepared, states_of};
ghost use Rattle.exec_core.specs.Divided.{Divided};
ghost use Rattle.std.specs.List.Sorted.{IsPermutation};
ghost use Rattle.traces.specs.Counts.{SameCounts};
ghost use Rattle.exec_core.specs.Held.{IsBack};
ghost use Rattle.exec_core.specs.Children.{numbers_of, IsGivenBack, IsPlanned, AreReadying, weights_of};

use crate::execution::{Execution, apply_all, put};
use crate::meter::Meter;
use crate::plan::{Plan, fork_plans};
use am_base::OutOfMemory;
use exec_machine::Machine;
use member_sets::Members;
use std::alloc::Global;

/// Replaces an execution by one for each plan. After a refusal for want of memory it comes back as
/// it was.
pub fn divide<M: Machine>(
    alloc: Global,
    machine: &mut M,
    e: Execution<M::State>,
    plans: &mut Vec<Plan<M::Change>>,
    children: &mut Vec<Child<M::State, M::Change>>,
    readied: &mut Vec<Child<M::State, M::Change>>,
    lives: &mut Vec<Execution<M::State>>,
    meter: &mut Meter,
) -> Result<(), Execution<M::State>>
    requires out { M.view.is_out machine.old e.state }
    requires live { IsLive M.view machine.old e.state }
    requires step { e.step + 1 < 2 ^ 64 }
    requires some { 0 < vec_len plans.old }
    requires known { All (λ p. IsKnown (M.view.meanings machine.old) (M.view.stands machine.old e.state) p.change) plans.old.items }
    requires empty { children.old.items ≡ [] }
    requires none_readied { readied.old.items ≡ [] }
    requires room { vec_len plans.old + vec_len children.old ≤ vec_capacity children.old }
    requires room_readied { vec_len plans.old + vec_len readied.old ≤ vec_capacity readied.old }
    requires room_lives { vec_len plans.old + vec_len lives.old ≤ vec_capacity lives.old }
    requires room_to_ready { (M.view.counts machine.old).readied + plan_weights (M.view.meanings machine.old).weight (plans_of plans.old.items) < 2 ^ 63 }
    requires room_to_apply { (M.view.counts machine.old).applied + vec_len plans.old < 2 ^ 63 }
    requires room_to_weigh { (M.view.counts machine.old).weighed + plan_weights (M.view.meanings machine.old).weight (plans_of plans.old.items) < 2 ^ 63 }
    requires room_to_count { meter.old + vec_len plans.old < 2 ^ 63 }
    ensures meter { OnOk result (meter.new ≡ meter.old + length plans.old.items) }
    ensures err_meter { OnErr result (meter.new ≡ meter.old) }
    ensures divided { OnOk result (Divided M.view machine.old e machine.new (plans_of plans.old.items) lives.old.items lives.new.items) }
    ensures weighed { OnOk result ((M.view.counts machine.new).weighed ≡ (M.view.counts machine.old).weighed + plan_weights (M.view.meanings machine.old).weight
        (plans_of plans.old.items)) }
    ensures readied { OnOk result ((M.view.counts machine.new).readied ≡ (M.view.counts machine.old).readied + plan_weights (M.view.meanings machine.old).weight
        (plans_of plans.old.items)) }
    ensures err { IfErr result (λ back. IsExecutionBack M.view machine.old machine.new e back) }
    ensures err_lives { OnErr result (lives.new.items ≡ lives.old.items) }
    ensures err_applied { OnErr result ((M.view.counts machine.new).applied ≡ (M.view.counts machine.old).applied) }
    ensures err_weighed { OnErr result ((M.view.counts machine.new).weighed ≡ (M.view.counts machine.old).weighed) }
    ensures readied_at_least { (M.view.counts machine.old).readied ≤ (M.view.counts machine.new).readied }
    ensures readied_at_most { (M.view.counts machine.new).readied ≤ (M.view.counts machine.old).readied + plan_weights (M.view.meanings machine.old).weight
        (plans_of plans.old.items) }
    ensures tried { (M.view.counts machine.new).tried ≡ (M.view.counts machine.old).tried }
    ensures asks { (port : ℕ) → (M.view.counts machine.new).asks port ≡ (M.view.counts machine.old).asks port }
    ensures children { children.new.items ≡ [] }
    ensures none_readied { readied.new.items ≡ [] }
    ensures applied { OnOk result ((M.view.counts machine.new).applied ≡ (M.view.counts machine.old).applied + length plans.old.items) }
{
    let Execution {
        step,
        members,
        state,
    } = e;
    match prepare(alloc, machine, state, plans, children, readied) {
        Ok(()) => {
            apply_all(machine, step + 1, readied, lives, meter);
            Ok(())
        }
        Err(state) => Err(Execution {
            step,
            members,
            state,
        }),
    }
}

/// Takes the last of the children that are left, or the first of those that are readied where none
/// is left behind it, out of its list.
fn take_first<S, C>(children: &mut Vec<Child<S, C>>, readied: &mut Vec<Child<S, C>>) -> Child<S, C>
    requires { 0 < vec_len children.old + vec_len readied.old }
    ensures { children.old.items ++ reverse readied.old.items ≡ (children.new.items ++ reverse readied.new.items) ++ result ∷ [] }
{
    if readied.is_empty() {
        children.pop().unwrap()
    } else {
        readied.remove(0)
    }
}

/// Hands out the state of the child that is readied first, and releases the states of all others.
fn give_back<M: Machine>(
    machine: &mut M,
    children: &mut Vec<Child<M::State, M::Change>>,
    readied: &mut Vec<Child<M::State, M::Change>>,
) -> M::State
    requires some { 0 < vec_len children.old + vec_len readied.old }
    requires out { All (λ p. M.view.is_out machine.old p.state) (children.old.items ++ reverse readied.old.items) }
    requires distinct { IsDistinct nat_eq (numbers_of M.view (children.old.items ++ reverse readied.old.items)) }
    ensures back { IsGivenBack M.view machine.old machine.new (children.old.items ++ reverse readied.old.items) result }
    ensures children { children.new.items ≡ [] }
    ensures none_readied { readied.new.items ≡ [] }
    ensures counts { SameCounts (M.view.counts machine.old) (M.view.counts machine.new) }
{
    let first = take_first(children, readied);
    release_children(machine, children);
    release_children(machine, readied);
    let Child {
        state,
        members: _,
        change: _,
    } = first;
    state
}

/// Forks a state for each plan but the last, which takes the state itself, and readies each. After
/// a refusal for want of memory the forks are released, and the state comes back.
pub fn prepare<M: Machine>(
    alloc: Global,
    machine: &mut M,
    own: M::State,
    plans: &mut Vec<Plan<M::Change>>,
    children: &mut Vec<Child<M::State, M::Change>>,
    readied: &mut Vec<Child<M::State, M::Change>>,
) -> Result<(), M::State>
    requires out { M.view.is_out machine.old own }
    requires live { IsLive M.view machine.old own }
    requires some { 0 < vec_len plans.old }
    requires known { All (λ p. IsKnown (M.view.meanings machine.old) (M.view.stands machine.old own) p.change) plans.old.items }
    requires empty { children.old.items ≡ [] }
    requires none_readied { readied.old.items ≡ [] }
    requires room { vec_len plans.old + vec_len children.old ≤ vec_capacity children.old }
    requires room_readied { vec_len plans.old + vec_len readied.old ≤ vec_capacity readied.old }
    requires room_to_ready { (M.view.counts machine.old).readied + plan_weights (M.view.meanings machine.old).weight (plans_of plans.old.items) < 2 ^ 63 }
    ensures prepared { OnOk result (ArePrepared M.view machine.old own machine.new (plans_of plans.old.items) readied.new.items) }
    ensures readied { OnOk result ((M.view.counts machine.new).readied ≡ (M.view.counts machine.old).readied + plan_weights (M.view.meanings machine.old).weight
        (plans_of plans.old.items)) }
    ensures readied_at_least { (M.view.counts machine.old).readied ≤ (M.view.counts machine.new).readied }
    ensures readied_at_most { (M.view.counts machine.new).readied ≤ (M.view.counts machine.old).readied + plan_weights (M.view.meanings machine.old).weight
        (plans_of plans.old.items) }
    ensures children { children.new.items ≡ [] }
    ensures err { IfErr result (λ back. IsBack M.view machine.old machine.new own back) }
    ensures none_readied { OnErr result (readied.new.items ≡ []) }
    ensures tried { (M.view.counts machine.new).tried ≡ (M.view.counts machine.old).tried }
    ensures asks { (port : ℕ) → (M.view.counts machine.new).asks port ≡ (M.view.counts machine.old).asks port }
    ensures applied { (M.view.counts machine.new).applied ≡ (M.view.counts machine.old).applied }
    ensures weighed { (M.view.counts machine.new).weighed ≡ (M.view.counts machine.old).weighed }
{
    let last = plans.pop().unwrap();
    let Plan { members, change } = last;
    match fork_plans(alloc, machine, &own, plans, children) {
        Ok(()) => {}
        Err(_) => {
            release_children(machine, children);
            return Err(own);
        }
    }
    put(
        children,
        Child {
            state: own,
            members,
            change,
        },
    );
    match ready_all(alloc, machine, children, readied) {
        Ok(()) => Ok(()),
        Err(_) => Err(give_back(machine, children, readied)),
    }
}

/// A state that is to make a change, for its members.
pub struct Child<S, C> {
    pub state: S,
    pub members: Members,
    pub change: C,
}

/// Readies each state for its change, from the last to the first. After a refusal the children
/// stand in the two lists.
pub fn ready_all<M: Machine>(
    alloc: Global,
    machine: &mut M,
    children: &mut Vec<Child<M::State, M::Change>>,
    readied: &mut Vec<Child<M::State, M::Change>>,
) -> Result<(), OutOfMemory>
    requires planned { All (IsPlanned M.view machine.old) children.old.items }
    requires distinct { IsDistinct nat_eq (numbers_of M.view children.old.items) }
    requires empty { readied.old.items ≡ [] }
    requires room { vec_len children.old + vec_len readied.old ≤ vec_capacity readied.old }
    requires room_to_ready { (M.view.counts machine.old).readied + weights_of (M.view.meanings machine.old) children.old.items < 2 ^ 63 }
    ensures all { OnOk result (children.new.items ≡ []) }
    ensures children { AreReadying M.view machine.old machine.new children.old.items children.new.items readied.new.items }
    ensures count_ok { OnOk result ((M.view.counts machine.new).readied ≡ (M.view.counts machine.old).readied + weights_of
        (M.view.meanings machine.old) children.old.items) }
    ensures count_at_least { (M.view.counts machine.old).readied ≤ (M.view.counts machine.new).readied }
    ensures count_at_most { (M.view.counts machine.new).readied ≤ (M.view.counts machine.old).readied + weights_of
        (M.view.meanings machine.old) children.old.items }
    ensures tried { (M.view.counts machine.new).tried ≡ (M.view.counts machine.old).tried }
    ensures applied { (M.view.counts machine.new).applied ≡ (M.view.counts machine.old).applied }
    ensures weighed { (M.view.counts machine.new).weighed ≡ (M.view.counts machine.old).weighed }
    ensures asks { (p : ℕ) → (M.view.counts machine.new).asks p ≡ (M.view.counts machine.old).asks p }
{
    while let Some(child) = children.pop() {
        let Child {
            mut state,
            members,
            change,
        } = child;
        match machine.ready(alloc, &mut state, &change) {
            Ok(()) => put(
                readied,
                Child {
                    state,
                    members,
                    change,
                },
            ),
            Err(error) => {
                put(
                    children,
                    Child {
                        state,
                        members,
                        change,
                    },
                );
                return Err(error);
            }
        }
    }
    Ok(())
}

/// Releases the states of the children.
pub fn release_children<M: Machine>(machine: &mut M, children: &mut Vec<Child<M::State, M::Change>>)
    requires out { All (M.view.is_out machine.old) (states_of children.old.items) }
    requires distinct { IsDistinct nat_eq (map M.view.number (states_of children.old.items)) }
    ensures empty { children.new.items ≡ [] }
    ensures out { IsPermutation (M.view.out_numbers machine.old) (map M.view.number (states_of children.old.items) ++ M.view.out_numbers machine.new) }
    ensures counts { SameCounts (M.view.counts machine.old) (M.view.counts machine.new) }
    ensures keeps { Keeps M.view machine.old machine.new (map M.view.number (states_of children.old.items)) }
{
    while let Some(child) = children.pop() {
        let Child {
            state,
            members: _,
            change: _,
        } = child;
        machine.release(state);
    }
}
