//! A small machine whose states keep all that they wrote, in a list that `apply` pushes onto.

ghost use Rattle.std.specs.Prelude.{◌≡◌, ℕ, ◌+◌, ◌^◌, ◌<◌, ◌≤◌, [], ◌∷◌, ◌++◌, List, length, map};
ghost use Rattle.std.specs.Prelude.{slice_index, IfOk, OnOk, OnErr, nat_eq, vec_len, vec_capacity};
ghost use Rattle.std.specs.List.{All, Contains, IsDistinct, IsDistinct-prop};
ghost use Rattle.std.specs.List.Sorted.{IsPermutation};
ghost use Rattle.traces.specs.Counts.{SameCounts, NoCounts};
ghost use Rattle.traces.specs.View.{Keeps};
ghost use Rattle.exec_tests.specs.Tape.{last_of, tape_next};

use am_base::OutOfMemory;
use am_lists::Items;
use change_classes::classes_by;
use code_form::Place;
use exec_core::Machine;
use std::alloc::Global;

/// A machine whose state is the list of the numbers written so far, at first none. Its place is how
/// many they are, and it has ended where they are as many as the machine writes.
///
/// Variant v writes (last + v) mod 8, where `last` is the number written last, and 0 at the start.
/// The change is the number, its weight is 1, and no port is asked. Every variant number is known
/// at every place. A state is ready for each change where its list has room for one more number.
#[derive(Debug, Drop)]
pub struct Tape {
    len: u32,
    out: Vec<u64>,
    fresh: u64,
    tried: u64,
    applied: u64,
    readied: u64,
    ghost short: { len ≤ 1000 },
    ghost below: { All (λ number. number < fresh) out.items },
    ghost distinct: { IsDistinct nat_eq out.items } by { IsDistinct-prop nat_eq out.items },
}

/// A state of the machine.
#[derive(Debug)]
pub struct TapeState {
    number: u64,
    written: Vec<u64>,
}

impl TapeState {
    ghost use Rattle.exec_tests.specs.TapeView.{tape_view};

    /// The numbers written so far.
    pub fn written(&self) -> &[u64]
        ensures { (tape : Tape) → result.now ≡ tape_view.stands tape self.now }
    {
        self.written.as_slice()
    }
}

impl Tape {
    ghost use Rattle.exec_tests.specs.TapeView.{len_of, tape_counts, tape_view};

    /// A machine that writes so many numbers, at most 1,000. It has no state out.
    pub fn new(alloc: Global, len: u32) -> Tape
        requires { len ≤ 1000 }
        ensures len { len_of result ≡ len }
        ensures none_out { tape_view.out_numbers result ≡ [] }
        ensures counts { NoCounts (tape_view.counts result) }
    {
        Tape {
            len,
            out: Vec::new(alloc),
            fresh: 0,
            tried: 0,
            applied: 0,
            readied: 0,
        }
    }

    /// Gives out a state that has written nothing. No count changes.
    pub fn start(&mut self, alloc: Global) -> Result<TapeState, OutOfMemory>
        ensures out_numbers { IfOk result (λ t.
            IsPermutation (tape_view.number t ∷ tape_view.out_numbers self.old) (tape_view.out_numbers self.new)) }
        ensures out { IfOk result (λ t. tape_view.is_out self.new t) }
        ensures state { IfOk result (λ t. tape_view.stands self.new t ≡ []) }
        ensures len { len_of self.new ≡ len_of self.old }
        ensures counts { SameCounts (tape_view.counts self.old) (tape_view.counts self.new) }
    {
        let number = self.number_out()?;
        Ok(TapeState {
            number,
            written: Vec::new(alloc),
        })
    }

    /// How many variants were tried.
    pub fn tried(&self) -> u64
        ensures { result ≡ (tape_view.counts self.now).tried }
    {
        self.tried
    }

    /// How many changes were applied.
    pub fn applied(&self) -> u64
        ensures { result ≡ (tape_view.counts self.now).applied }
    {
        self.applied
    }

    /// Puts the next number among those of the states out, if there is one.
    fn number_out(&mut self) -> Result<u64, OutOfMemory>
        ensures out { IfOk result (λ number. self.new.out.items ≡ self.old.out.items ++ number ∷ []) }
        ensures err { OnErr result (self.new.out.items ≡ self.old.out.items) }
        ensures len { self.new.len ≡ self.old.len }
        ensures counts { SameCounts (tape_counts self.old) (tape_counts self.new) }
    {
        let number = self.fresh;
        if number == u64::MAX {
            return Err(OutOfMemory);
        }
        self.out.push(number)?;
        self.fresh = number + 1;
        Ok(number)
    }
}

impl Machine for Tape {
    ghost use Rattle.exec_tests.specs.TapeView.{tape_view, tape_lawful};

    type State = TapeState;

    type Change = u64;

    ghost Meaning = { List ℕ };

    ghost view = { tape_view };

    ghost lawful = { tape_lawful };

    fn place(&self, s: &TapeState) -> Place {
        Place(s.written.len() as u32)
    }

    fn ended(&self, s: &TapeState) -> bool {
        s.written.len() == self.len as usize
    }

    fn tries(
        &mut self,
        _alloc: Global,
        s: &TapeState,
        variants: &[u32],
        out: &mut Vec<u64>,
    ) -> Result<(), OutOfMemory> {
        push_changes(last(&s.written), variants, out)?;
        self.tried += variants.len() as u64;
        Ok(())
    }

    fn group(&self, alloc: Global, changes: &[u64]) -> Result<Items<u32>, OutOfMemory> {
        classes_by(alloc, changes, |a, b| a == b)
    }

    fn fork(&mut self, alloc: Global, s: &TapeState) -> Result<TapeState, OutOfMemory> {
        let written = s.written.to_vec(alloc)?;
        let number = self.number_out()?;
        Ok(TapeState { number, written })
    }

    fn ready(&mut self, _alloc: Global, s: &mut TapeState, _c: &u64) -> Result<(), OutOfMemory> {
        s.written.reserve(1)?;
        self.readied += 1;
        Ok(())
    }

    fn apply(&mut self, s: &mut TapeState, c: u64) {
        write(&mut s.written, c);
        self.applied += 1;
    }

    fn release(&mut self, s: TapeState) {
        let TapeState { number, written: _ } = s;
        let at = place_of(&self.out, number);
        let _ = self.out.remove(at);
    }
}

/// The number written last, and 0 where there is none.
fn last(written: &[u64]) -> u64
    ensures { result ≡ last_of written.now }
{
    if written.is_empty() {
        return 0;
    }
    written[written.len() - 1]
}

/// Writes a number, for which there is room.
fn write(written: &mut Vec<u64>, c: u64)
    requires { vec_len written.old < vec_capacity written.old }
    ensures { written.new.items ≡ written.old.items ++ c ∷ [] }
{
    written.push(c).unwrap();
}

/// The index at which a number stands.
fn place_of(numbers: &[u64], number: u64) -> usize
    requires { Contains numbers.now number }
    ensures in_range { result < length numbers.now }
    ensures found { slice_index numbers.now result ≡ number }
{
    let mut at = 0;
    for other in numbers {
        if *other == number {
            return at;
        }
        at += 1;
    }
    at
}

/// Appends the change of each variant.
fn push_changes(last: u64, variants: &[u32], out: &mut Vec<u64>) -> Result<(), OutOfMemory>
    requires { out.old.items ≡ [] }
    ensures { OnOk result (out.new.items ≡ map (λ v. tape_next v last) variants.now) }
{
    for v in variants {
        let change = (last % 8 + u64::from(*v)) % 8;
        out.push(change)?;
    }
    Ok(())
}
