//! A small machine for examples and tests.
ghost use Rattle.std.specs.Prelude.{◌≡◌, ℕ, ◌+◌, ◌*◌, ◌%◌, ◌^◌, ◌<◌, ◌≤◌, [], ◌∷◌, ◌++◌, List, length, map, slice_index, IfOk, OnOk, OnErr, nat_eq};
ghost use Rattle.std.specs.List.{All, Contains, IsDistinct, IsDistinct-prop, sum_by};
ghost use Rattle.std.specs.List.Sorted.{IsPermutation};
ghost use Rattle.traces.specs.Counts.{SameCounts, NoCounts};
ghost use Rattle.traces.specs.View.{Keeps};
ghost use Rattle.exec_machine.specs.Toy.{toy_change};

use crate::machine::Machine;
use am_base::OutOfMemory;
use am_lists::Items;
use change_classes::classes_by;
use code_form::Place;
use std::alloc::Global;

/// A small machine that stands for others in examples and tests. It has a list of gains.
///
/// A state is a pair (p, x) that begins at (0, 0). It has ended where p is the number of gains, and its place is p. Variant v makes the change
/// (x + v * gains[p]) mod 8, after which the state is (p + 1, change). The change is its own weight. Variant v asks port 0 once where v is odd,
/// and no other port. Every variant number is known at every place. A state is ready for each change as it is.
///
/// It numbers its states from 0 on, and none of them twice: `start` and `fork` refuse, as for want of memory, after 2^64 - 1 states.
#[derive(Debug, Drop)]
pub struct Toy {
    gains: Vec<u64>,
    out: Vec<u64>,
    fresh: u64,
    tried: u64,
    applied: u64,
    weighed: u64,
    readied: u64,
    asked: u64,
    ghost few: { length gains.items ≤ 1000 },
    ghost small: { All (λ gain. gain ≤ 1000000) gains.items },
    ghost below: { All (λ number. number < fresh) out.items },
    ghost distinct: { IsDistinct nat_eq out.items } by { IsDistinct-prop nat_eq out.items },
}

/// A state of the toy machine.
#[derive(Debug)]
pub struct ToyState {
    number: u64,
    place: u32,
    value: u64,
    ghost small: { value < 8 },
}

impl Toy {
    ghost use Rattle.exec_machine.specs.ToyView.{gains_of, toy_counts, toy_view};

    /// A machine with these gains, from 1 to 1,000 of them, each at most 1,000,000. It has no state out and has counted nothing.
    pub fn new(alloc: Global, gains: Vec<u64>) -> Result<Toy, OutOfMemory>
        requires some { 1 ≤ length gains.items }
        requires few { length gains.items ≤ 1000 }
        requires small { All (λ gain. gain ≤ 1000000) gains.items }
        ensures gains { IfOk result (λ toy. gains_of toy ≡ gains.items) }
        ensures none_out { IfOk result (λ toy. toy_view.out_numbers toy ≡ []) }
        ensures counts { IfOk result (λ toy. NoCounts (toy_view.counts toy)) }
    {
        Ok(Toy {
            gains,
            out: Vec::new(alloc),
            fresh: 0,
            tried: 0,
            applied: 0,
            weighed: 0,
            readied: 0,
            asked: 0,
        })
    }

    /// Gives out a state that stands for (0, 0). No count changes. After a refusal the states out are those that were.
    pub fn start(&mut self, _alloc: Global) -> Result<ToyState, OutOfMemory>
        ensures out_numbers { IfOk result (λ t.
            IsPermutation (toy_view.number t ∷ toy_view.out_numbers self.old) (toy_view.out_numbers self.new)) }
        ensures out { IfOk result (λ t. toy_view.is_out self.new t) }
        ensures state { IfOk result (λ t. toy_view.stands self.new t ≡ (0, 0)) }
        ensures err { OnErr result (toy_view.out_numbers self.new ≡ toy_view.out_numbers self.old) }
        ensures counts { SameCounts (toy_view.counts self.old) (toy_view.counts self.new) }
        ensures keeps { Keeps toy_view self.old self.new [] }
    {
        let number = self.number_out()?;
        Ok(ToyState {
            number,
            place: 0,
            value: 0,
        })
    }

    /// How many variants were tried.
    pub fn tried(&self) -> u64
        ensures { result ≡ (toy_view.counts self.now).tried }
    {
        self.tried
    }

    /// How many changes were applied.
    pub fn applied(&self) -> u64
        ensures { result ≡ (toy_view.counts self.now).applied }
    {
        self.applied
    }

    /// The weight of the changes that were applied.
    pub fn weighed(&self) -> u64
        ensures { result ≡ (toy_view.counts self.now).weighed }
    {
        self.weighed
    }

    /// How often port 0 was asked.
    pub fn asked(&self) -> u64
        ensures { result ≡ (toy_view.counts self.now).asks 0 }
    {
        self.asked
    }

    /// Puts the next number among those of the states out, if there is one.
    fn number_out(&mut self) -> Result<u64, OutOfMemory>
        ensures out { IfOk result (λ number. self.new.out.items ≡ self.old.out.items ++ number ∷ []) }
        ensures err { OnErr result (self.new.out.items ≡ self.old.out.items) }
        ensures gains { self.new.gains ≡ self.old.gains }
        ensures counts { SameCounts (toy_counts self.old) (toy_counts self.new) }
    {
        let number = self.fresh;
        if number == u64::MAX {
            return Err(OutOfMemory);
        }
        self.out.push(number)?;
        self.fresh = number + 1;
        Ok(number)
    }
}

impl Machine for Toy {
    ghost use Rattle.exec_machine.specs.ToyView.{toy_view, toy_lawful};

    type State = ToyState;

    type Change = u64;

    ghost Meaning = { ℕ × ℕ };

    ghost view = { toy_view };

    ghost lawful = { toy_lawful };

    fn place(&self, s: &ToyState) -> Place {
        Place(s.place)
    }

    fn ended(&self, s: &ToyState) -> bool {
        s.place as usize == self.gains.len()
    }

    fn tries(
        &mut self,
        _alloc: Global,
        s: &ToyState,
        variants: &[u32],
        out: &mut Vec<u64>,
    ) -> Result<(), OutOfMemory> {
        let gain = self.gains[s.place as usize];
        push_changes(gain, s.value, variants, out)?;
        self.tried += variants.len() as u64;
        self.asked += odd_count(variants);
        Ok(())
    }

    fn group(&self, alloc: Global, changes: &[u64]) -> Result<Items<u32>, OutOfMemory> {
        classes_by(alloc, changes, |a, b| a == b)
    }

    fn fork(&mut self, _alloc: Global, s: &ToyState) -> Result<ToyState, OutOfMemory> {
        let number = self.number_out()?;
        Ok(ToyState {
            number,
            place: s.place,
            value: s.value,
        })
    }

    fn ready(&mut self, _alloc: Global, _s: &mut ToyState, c: &u64) -> Result<(), OutOfMemory> {
        self.readied += *c;
        Ok(())
    }

    fn apply(&mut self, s: &mut ToyState, c: u64) {
        s.place += 1;
        s.value = c;
        self.applied += 1;
        self.weighed += c;
    }

    fn release(&mut self, s: ToyState) {
        let ToyState {
            number,
            place: _,
            value: _,
        } = s;
        let at = place_of(&self.out, number);
        let _ = self.out.remove(at);
    }
}

/// The index at which a number stands.
fn place_of(numbers: &[u64], number: u64) -> usize
    requires { Contains numbers.now number }
    ensures in_range { result < length numbers.now }
    ensures found { slice_index numbers.now result ≡ number }
{
    let mut at = 0;
    for other in numbers {
        if *other == number {
            return at;
        }
        at += 1;
    }
    at
}

/// Puts the change of each variant at the end.
fn push_changes(
    gain: u64,
    value: u64,
    variants: &[u32],
    out: &mut Vec<u64>,
) -> Result<(), OutOfMemory>
    requires gain { gain ≤ 1000000 }
    requires value { value < 8 }
    requires empty { out.old.items ≡ [] }
    ensures { OnOk result (out.new.items ≡ map (λ v. toy_change gain v value) variants.now) }
{
    for v in variants {
        let change = (value + u64::from(*v) * gain) % 8;
        out.push(change)?;
    }
    Ok(())
}

/// How many of the numbers are odd.
fn odd_count(variants: &[u32]) -> u64
    requires { length variants.now < 2 ^ 63 }
    ensures value { result ≡ sum_by (λ v. v % 2) variants.now }
    ensures bound { result ≤ length variants.now }
{
    let mut count = 0u64;
    for v in variants {
        count += u64::from(*v % 2);
    }
    count
}

#[cfg(test)]
mod tests {
    use super::*;
    use std::test::Fail;

    #[test]
    fn tries_and_groups(rt: HostRuntime) -> Result<(), Fail> {
        let mut toy = Toy::new(rt.alloc(), [1, 8, 2].to_vec(rt.alloc())?)?;
        let mut changes = Vec::new(rt.alloc());
        let s = toy.start(rt.alloc()).expect(&rt, "no memory");
        assert!(rt; !toy.ended(&s));
        toy.tries(rt.alloc(), &s, &[9, 2], &mut changes)
            .expect(&rt, "no memory");
        toy.release(s);
        assert_eq!(rt; changes.as_slice(), [1, 2].as_slice());
        assert_eq!(rt;
            (toy.tried(), toy.applied(), toy.weighed(), toy.asked()),
            (2, 0, 0, 1)
        );
        assert_eq!(rt;
            toy.group(rt.alloc(), &[1, 6, 1])?.as_slice(),
            [0, 1, 0].as_slice()
        );
        Ok(())
    }

    #[test]
    fn readies_applies_and_forks(rt: HostRuntime) -> Result<(), Fail> {
        let mut toy = Toy::new(rt.alloc(), [1, 8, 2].to_vec(rt.alloc())?)?;
        let mut s = toy.start(rt.alloc()).expect(&rt, "no memory");
        assert!(rt; !toy.ended(&s));
        toy.ready(rt.alloc(), &mut s, &1).expect(&rt, "no memory");
        toy.apply(&mut s, 1);
        let t = toy.fork(rt.alloc(), &s).expect(&rt, "no memory");
        assert!(rt; !toy.ended(&t));
        assert_eq!(rt; toy.place(&t), Place(1));
        toy.release(t);
        toy.release(s);
        assert_eq!(rt;
            (toy.tried(), toy.applied(), toy.weighed(), toy.asked()),
            (0, 1, 1, 0)
        );
        Ok(())
    }
}
