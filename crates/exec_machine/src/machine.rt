//! The trait through which the engine knows a machine.
ghost use Rattle.std.specs.Prelude.{◌≡◌, ℕ, ◌+◌, ◌^◌, ◌<◌, ◌≤◌, [], ◌∷◌, length, IfOk, OnOk, OnErr, map, nat_eq};
ghost use Rattle.std.specs.List.{IsDistinct};
ghost use Rattle.std.specs.List.Sorted.{IsPermutation};
ghost use Rattle.traces.specs.Counts.{SameCounts, RoseBy, RoseWithin, counts_of_tries, counts_of_ready, counts_of_apply};
ghost use Rattle.traces.specs.View.{View, IsLawful, Keeps, KeepsReady, IsLive, AreKnown, IsKnown};
ghost use Rattle.change_classes.specs.First.{first_equal};

use am_base::OutOfMemory;
use am_lists::Items;
use code_form::Place;
use std::alloc::Global;

/// A machine whose states can be forked. It tries variants in a state, and applies the changes that they make. So mutants whose changes are equal
/// run as one ("Faster Mutation Analysis via Equivalence Modulo States", ISSTA 2017).
///
/// It counts the variants tried, the changes applied, the weights of the changes applied and of those readied, and how often each port was
/// asked. No count passes 2^63 - 1, by the conditions of the calls. Want of memory is the only refusal, and may come at any call that takes an
/// allocator. No call changes what the machine does, or what a state that is out and isn't handed in by `&mut` or by value stands for.
pub trait Machine {
    /// A state that the machine has given out, by a number of its own. It can't be dropped or copied: `release` alone ends it.
    type State;

    /// What a variant makes of a state, to be applied to it or to a state that stands for the same. It may be let go.
    type Change: Drop;

    /// What a state stands for. Contracts alone read it.
    ghost Meaning: { Type 0 };

    /// What contracts see of the machine.
    ghost view: { View Self Self.State Meaning Self.Change };

    /// The place, by its number, of a state that is out and hasn't ended. No count changes.
    fn place(&self, s: &Self::State) -> Place
        requires out { view.is_out self.now s.now }
        requires live { IsLive view self.now s.now }
        ensures { result.0 ≡ (view.meanings self.now).place (view.stands self.now s.now) };

    /// Whether a state that is out has ended. No count changes.
    fn ended(&self, s: &Self::State) -> bool
        requires { view.is_out self.now s.now }
        ensures { result ≡ (view.meanings self.now).ended (view.stands self.now s.now) };

    /// Puts into `out`, which is empty, the change that each of these variants makes in the state, in their order. The variants are different
    /// numbers that the machine knows at the place. `tried` rises by how many they are, and the asks of each port by what they ask of it.
    ///
    /// After a refusal `out` may hold any changes, and `tried` and the asks may have risen by at most that. All other counts, the states out and
    /// what each stands for stay as they were, whatever the answer is.
    fn tries(
        &mut self,
        alloc: Global,
        s: &Self::State,
        variants: &[u32],
        out: &mut Vec<Self::Change>,
    ) -> Result<(), OutOfMemory>
        requires out { view.is_out self.old s.now }
        requires live { IsLive view self.old s.now }
        requires distinct { IsDistinct nat_eq variants.now }
        requires known { AreKnown (view.meanings self.old) (view.stands self.old s.now) variants.now }
        requires empty { out.old.items ≡ [] }
        requires room { (view.counts self.old).tried + length variants.now < 2 ^ 63 }
        requires room_to_ask { (port : ℕ) → (view.counts self.old).asks port + length variants.now < 2 ^ 63 }

        ensures changes { OnOk result (out.new.items
            ≡ map (λ v. (view.meanings self.old).next v (view.stands self.old s.now)) variants.now) }
        ensures counts { OnOk result (RoseBy (view.counts self.old) (view.counts self.new)
            (counts_of_tries (view.meanings self.old) (view.stands self.old s.now) variants.now)) }
        ensures counts_within { RoseWithin (view.counts self.old) (view.counts self.new)
            (counts_of_tries (view.meanings self.old) (view.stands self.old s.now) variants.now) }
        ensures out_numbers { view.out_numbers self.new ≡ view.out_numbers self.old }
        ensures keeps { Keeps view self.old self.new [] };

    /// For each of fewer than 2^32 changes the number, from 0, of the first change that is equal to it. No count changes.
    fn group(&self, alloc: Global, changes: &[Self::Change]) -> Result<Items<u32>, OutOfMemory>
        requires { length changes.now < 2 ^ 32 }
        ensures { IfOk result (λ numbers. numbers ≡ first_equal (view.meanings self.now).same changes.now) };

    /// Gives out another state that stands for the same. No count changes, and each state that was out is out still and stands for what it did,
    /// though it may be ready no longer. After a refusal the states out are those that were.
    fn fork(&mut self, alloc: Global, s: &Self::State) -> Result<Self::State, OutOfMemory>
        requires { view.is_out self.old s.now }
        ensures out_numbers { IfOk result (λ t. IsPermutation (view.number t ∷ view.out_numbers self.old) (view.out_numbers self.new)) }
        ensures out { IfOk result (λ t. view.is_out self.new t) }
        ensures state { IfOk result (λ t. view.stands self.new t ≡ view.stands self.old s.now) }
        ensures err { OnErr result (view.out_numbers self.new ≡ view.out_numbers self.old) }
        ensures counts { SameCounts (view.counts self.old) (view.counts self.new) }
        ensures keeps { Keeps view self.old self.new [] };

    /// Makes a state ready for a change that a known variant makes in it. `readied` rises by the weight of the change.
    ///
    /// After a refusal the state need not be ready, and `readied` may have risen by at most that weight. Whatever the answer is, the state is out
    /// under its number and stands for what it did, all other counts stay as they were, and each other state stands for what it did and is ready
    /// for what it was.
    fn ready(
        &mut self,
        alloc: Global,
        s: &mut Self::State,
        c: &Self::Change,
    ) -> Result<(), OutOfMemory>
        requires out { view.is_out self.old s.old }
        requires live { IsLive view self.old s.old }
        requires known { IsKnown (view.meanings self.old) (view.stands self.old s.old) c.now }
        requires room { (view.counts self.old).readied + (view.meanings self.old).weight c.now < 2 ^ 63 }

        ensures ready { OnOk result (view.is_ready self.new s.new c.now) }
        ensures counts { OnOk result (RoseBy (view.counts self.old) (view.counts self.new)
            (counts_of_ready (view.meanings self.old) c.now)) }
        ensures counts_within { RoseWithin (view.counts self.old) (view.counts self.new)
            (counts_of_ready (view.meanings self.old) c.now) }
        ensures number { view.number s.new ≡ view.number s.old }
        ensures out { view.is_out self.new s.new }
        ensures state { view.stands self.new s.new ≡ view.stands self.old s.old }
        ensures out_numbers { view.out_numbers self.new ≡ view.out_numbers self.old }
        ensures keeps { Keeps view self.old self.new (view.number s.old ∷ []) }
        ensures keeps_ready { KeepsReady view self.old self.new (view.number s.old ∷ []) };

    /// Applies a change that the state is ready for. `applied` rises by 1 and `weighed` by the weight of the change, and all other counts stay as
    /// they were. The state is out under its number; each other state stands for what it did and is ready for what it was.
    fn apply(&mut self, s: &mut Self::State, c: Self::Change)
        requires out { view.is_out self.old s.old }
        requires live { IsLive view self.old s.old }
        requires known { IsKnown (view.meanings self.old) (view.stands self.old s.old) c }
        requires ready { view.is_ready self.old s.old c }
        requires room { (view.counts self.old).applied + 1 < 2 ^ 63 }
        requires room_to_weigh { (view.counts self.old).weighed + (view.meanings self.old).weight c < 2 ^ 63 }

        ensures after { view.stands self.new s.new ≡ (view.meanings self.old).after (view.stands self.old s.old) c }
        ensures counts { RoseBy (view.counts self.old) (view.counts self.new)
            (counts_of_apply (view.meanings self.old) c) }
        ensures number { view.number s.new ≡ view.number s.old }
        ensures out { view.is_out self.new s.new }
        ensures out_numbers { view.out_numbers self.new ≡ view.out_numbers self.old }
        ensures keeps { Keeps view self.old self.new (view.number s.old ∷ []) }
        ensures keeps_ready { KeepsReady view self.old self.new (view.number s.old ∷ []) };

    /// Takes a state back. No count changes, and each other state is out still and stands for what it did.
    fn release(&mut self, s: Self::State)
        requires { view.is_out self.old s }
        ensures out_numbers { IsPermutation (view.out_numbers self.old) (view.number s ∷ view.out_numbers self.new) }
        ensures counts { SameCounts (view.counts self.old) (view.counts self.new) }
        ensures keeps { Keeps view self.old self.new (view.number s ∷ []) };

    /// The laws of what contracts see.
    ghost lawful: { IsLawful view };
}
