//! Executions: they make changes, go on or have ended, and are released.

ghost use Rattle.std.specs.Prelude.{◌≡◌, ℕ, ◌+◌, ◌^◌, ◌<◌, ◌≤◌, [], ◌∷◌, ◌++◌, nat_eq, vec_len, vec_capacity, true, false, Some};
ghost use Rattle.std.specs.List.{All, IsDistinct};
ghost use Rattle.exec_core.specs.Children.{IsReadied, numbers_of, weights_of};
ghost use Rattle.exec_core.specs.Executions.{AreApplied, goes_on, state_numbers, AreSettledAfter};
ghost use Rattle.std.specs.List.Sorted.{IsPermutation};
ghost use Rattle.traces.specs.Counts.{SameCounts};
ghost use Rattle.traces.specs.View.{Keeps};

use crate::divide::Child;
use crate::meter::Meter;
use exec_machine::Machine;
use member_sets::Members;

/// An execution: its members, their state and how many changes they have made.
pub struct Execution<S> {
    pub step: u64,
    pub members: Members,
    pub state: S,
}

/// Applies each change to its state, from the last child to the first. The meter counts each.
pub fn apply_all<M: Machine>(
    machine: &mut M,
    step: u64,
    children: &mut Vec<Child<M::State, M::Change>>,
    lives: &mut Vec<Execution<M::State>>,
    meter: &mut Meter,
)
    requires readied { All (IsReadied M.view machine.old) children.old.items }
    requires distinct { IsDistinct nat_eq (numbers_of M.view children.old.items) }
    requires room { vec_len children.old + vec_len lives.old ≤ vec_capacity lives.old }
    requires room_to_apply { (M.view.counts machine.old).applied + vec_len children.old < 2 ^ 63 }
    requires room_to_weigh { (M.view.counts machine.old).weighed + weights_of (M.view.meanings machine.old) children.old.items < 2 ^ 63 }
    requires room_to_count { meter.old + vec_len children.old < 2 ^ 63 }
    ensures meter { meter.new ≡ meter.old + vec_len children.old }
    ensures children { AreApplied M.view machine.old machine.new step children.old.items lives.old.items lives.new.items }
    ensures empty { children.new.items ≡ [] }
    ensures applied { (M.view.counts machine.new).applied ≡ (M.view.counts machine.old).applied + vec_len children.old }
    ensures weighed { (M.view.counts machine.new).weighed ≡ (M.view.counts machine.old).weighed + weights_of (M.view.meanings machine.old) children.old.items }
    ensures tried { (M.view.counts machine.new).tried ≡ (M.view.counts machine.old).tried }
    ensures ready { (M.view.counts machine.new).readied ≡ (M.view.counts machine.old).readied }
    ensures asks { (p : ℕ) → (M.view.counts machine.new).asks p ≡ (M.view.counts machine.old).asks p }
{
    while let Some(child) = children.pop() {
        let Child {
            mut state,
            members,
            change,
        } = child;
        machine.apply(&mut state, change);
        meter.raise();
        put(
            lives,
            Execution {
                step,
                members,
                state,
            },
        );
    }
}

/// Whether an execution is live: its state hasn't ended, and its step is below the budget.
pub fn can_go_on<M: Machine>(machine: &M, budget: u64, l: &Execution<M::State>) -> bool
    requires { M.view.is_out machine.now l.now.state }
    ensures { result ≡ goes_on M.view machine.now budget l.now }
{
    let ended = machine.ended(&l.state);
    !ended && l.step < budget
}

/// Puts an execution among the live ones or among those that have ended.
pub fn settle<M: Machine>(
    machine: &M,
    budget: u64,
    l: Execution<M::State>,
    lives: &mut Vec<Execution<M::State>>,
    ended: &mut Vec<Execution<M::State>>,
)
    requires out { M.view.is_out machine.now l.state }
    requires room_lives { vec_len lives.old < vec_capacity lives.old }
    requires room_ended { vec_len ended.old < vec_capacity ended.old }
    ensures live { goes_on M.view machine.now budget l ≡ true → (lives.new.items ≡ lives.old.items ++ l ∷ []) × (ended.new.items ≡ ended.old.items) }
    ensures over { goes_on M.view machine.now budget l ≡ false → (lives.new.items ≡ lives.old.items) × (ended.new.items ≡ ended.old.items ++ l ∷ []) }
    ensures len_lives { vec_len lives.new ≤ vec_len lives.old + 1 }
    ensures len_ended { vec_len ended.new ≤ vec_len ended.old + 1 }
    ensures capacity_lives { vec_capacity lives.old ≤ vec_capacity lives.new }
    ensures capacity_ended { vec_capacity ended.old ≤ vec_capacity ended.new }
{
    if can_go_on(machine, budget, &l) {
        put(lives, l);
    } else {
        put(ended, l);
    }
}

/// Puts each execution among the live ones or among those that have ended, behind those that stand
/// there.
pub fn settle_all<M: Machine>(
    machine: &M,
    budget: u64,
    made: &mut Vec<Execution<M::State>>,
    lives: &mut Vec<Execution<M::State>>,
    ended: &mut Vec<Execution<M::State>>,
)
    requires out { All (λ l. M.view.is_out machine.now l.state) made.old.items }
    requires room_lives { vec_len made.old + vec_len lives.old ≤ vec_capacity lives.old }
    requires room_ended { vec_len made.old + vec_len ended.old ≤ vec_capacity ended.old }
    ensures settled { AreSettledAfter M.view machine.now budget made.old.items lives.old.items lives.new.items ended.old.items ended.new.items }
    ensures empty { made.new.items ≡ [] }
{
    while let Some(l) = made.pop() {
        settle(machine, budget, l, lives, ended);
    }
}

/// Releases the states of the executions.
pub fn release_executions<M: Machine>(machine: &mut M, lives: Vec<Execution<M::State>>)
    requires out { All (λ l. M.view.is_out machine.old l.state) lives.items }
    requires distinct { IsDistinct nat_eq (state_numbers M.view lives.items) }
    ensures out_numbers { IsPermutation (M.view.out_numbers machine.old) (state_numbers M.view lives.items ++ M.view.out_numbers machine.new) }
    ensures counts { SameCounts (M.view.counts machine.old) (M.view.counts machine.new) }
    ensures keeps { Keeps M.view machine.old machine.new (state_numbers M.view lives.items) }
{
    let mut rest = lives;
    while let Some(l) = rest.pop() {
        let Execution {
            step: _,
            members: _,
            state,
        } = l;
        machine.release(state);
    }
    rest.destroy_empty();
}

/// Puts an element at the end, for which there is room.
pub fn put<T>(v: &mut Vec<T>, x: T)
    requires { vec_len v.old < vec_capacity v.old }
    ensures items { v.new.items ≡ v.old.items ++ x ∷ [] }
    ensures len { vec_len v.new ≡ vec_len v.old + 1 }
    ensures capacity { vec_capacity v.old ≤ vec_capacity v.new }
{
    v.push(x).unwrap();
}
