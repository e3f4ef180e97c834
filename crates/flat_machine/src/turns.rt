//! The machine as the engine knows it.
ghost use Rattle.std.specs.Prelude.{◌≡◌, ℕ, ◌+◌, ◌<◌, ◌≤◌, ◌^◌, [], ◌∷◌, length, map};

use crate::group::group;
use crate::machine::FlatOver;
use crate::own_ports::Ports;
use crate::state::FlatState;
use am_base::OutOfMemory;
use am_lists::Items;
use change_set::{Change, pages};
use code_form::Place;
use exec_machine::Machine;
use plain_machine::apply;
use std::alloc::Global;

impl<'a, P: Ports> Machine for FlatOver<'a, P> {
    ghost use Rattle.machine_form.specs.State.{State};
    ghost use Rattle.flat_machine.specs.Shown.{seen_of};
    ghost use Rattle.flat_machine.specs.Taken.{taken};
    ghost use Rattle.flat_machine.specs.TakenLaws.{taken_distinct};
    ghost use Rattle.flat_machine.specs.FlatView.{flat_view, flat_lawful};

    type State = FlatState;

    type Change = Change;

    ghost Meaning = { State };

    ghost view = { flat_view (λ m. seen_of m.subject (P.outside m.ports) (taken m.numbers.marks.items) m.tried m.applied m.weighed m.readied) };

    ghost lawful = { flat_lawful (λ m. seen_of m.subject (P.outside m.ports) (taken m.numbers.marks.items) m.tried m.applied m.weighed m.readied) (λ m. taken_distinct m.numbers.marks.items) };

    fn place(&self, s: &FlatState) -> Place {
        Place(s.flat.place())
    }

    fn ended(&self, s: &FlatState) -> bool {
        s.flat.has_ended()
    }

    fn tries(
        &mut self,
        alloc: Global,
        s: &FlatState,
        variants: &[u32],
        out: &mut Vec<Change>,
    ) -> Result<(), OutOfMemory> {
        let program = self.subject.program();
        let table = self.subject.variants();
        self.ports
            .tries(alloc, program, table, &s.flat, variants, out)?;
        self.tried += variants.len() as u64;
        Ok(())
    }

    fn group(&self, alloc: Global, changes: &[Change]) -> Result<Items<u32>, OutOfMemory> {
        group(alloc, changes)
    }

    fn fork(&mut self, alloc: Global, s: &FlatState) -> Result<FlatState, OutOfMemory> {
        let flat = s.flat.copy(alloc)?;
        let number = self.numbers.give()?;
        Ok(FlatState { number, flat })
    }

    fn ready(&mut self, _alloc: Global, s: &mut FlatState, c: &Change) -> Result<(), OutOfMemory> {
        s.flat.ready(self.subject.program().code(), c)?;
        self.readied += pages(c);
        Ok(())
    }

    fn apply(&mut self, s: &mut FlatState, c: Change) {
        apply(self.subject.program(), &mut s.flat, &c);
        self.applied += 1;
        self.weighed += pages(&c);
    }

    fn release(&mut self, s: FlatState) {
        let FlatState { number, flat: _ } = s;
        self.numbers.take_back(number);
    }
}
