//! The machine as the engine knows it.
ghost use Rattle.std.specs.Prelude.{◌≡◌, ℕ, ◌+◌, ◌<◌, ◌≤◌, ◌^◌, [], ◌∷◌, length, map};

use crate::change::apply_bare;
use crate::machine::SharedOver;
use crate::reading::Reading;
use crate::state::SharedState;
use crate::writes::{ready_state, write_bytes};
use am_base::OutOfMemory;
use am_lists::Items;
use change_set::{Change, pages};
use code_form::Place;
use exec_machine::Machine;
use machine_parts::{Ports, group};
use std::alloc::Global;

impl<'a, P: Ports> Machine for SharedOver<'a, P> {
    ghost use Rattle.machine_form.specs.State.{State};
    ghost use Rattle.shared_machine.specs.Shown.{seen_of};
    ghost use Rattle.shared_machine.specs.SharedView.{shared_view, shared_lawful};

    type State = SharedState;

    type Change = Change;

    ghost Meaning = { State };

    ghost view = { shared_view (λ m. seen_of m.subject (P.outside m.ports) m.store m.tried m.applied m.weighed m.readied) };

    ghost lawful = { shared_lawful (λ m. seen_of m.subject (P.outside m.ports) m.store m.tried m.applied m.weighed m.readied) };

    fn place(&self, s: &SharedState) -> Place {
        Place(s.bare.place())
    }

    fn ended(&self, s: &SharedState) -> bool {
        s.bare.has_ended()
    }

    fn tries(
        &mut self,
        alloc: Global,
        s: &SharedState,
        variants: &[u32],
        out: &mut Vec<Change>,
    ) -> Result<(), OutOfMemory> {
        let program = self.subject.program();
        let table = self.subject.variants();
        let reading = Reading {
            store: &self.store,
            bare: &s.bare,
            memory: &s.memory,
        };
        self.ports
            .tries(alloc, program, table, &reading, variants, out)?;
        self.tried += variants.len() as u64;
        Ok(())
    }

    fn group(&self, alloc: Global, changes: &[Change]) -> Result<Items<u32>, OutOfMemory> {
        group(alloc, changes)
    }

    fn fork(&mut self, alloc: Global, s: &SharedState) -> Result<SharedState, OutOfMemory> {
        let bare = s.bare.copy(alloc)?;
        let memory = self.store.fork(alloc, &s.memory)?;
        Ok(SharedState { bare, memory })
    }

    fn ready(&mut self, alloc: Global, s: &mut SharedState, c: &Change) -> Result<(), OutOfMemory> {
        let code = self.subject.program().code();
        // counted first: after a refusal some of the pages may have been taken
        self.readied += pages(c);
        ready_state(alloc, &mut self.store, s, code, c)
    }

    fn apply(&mut self, s: &mut SharedState, c: Change) {
        let program = self.subject.program();
        write_bytes(&mut self.store, &s.memory, c.bytes.as_slice());
        apply_bare(program, &mut s.bare, &c);
        self.applied += 1;
        self.weighed += pages(&c);
    }

    fn release(&mut self, s: SharedState) {
        let SharedState { bare: _, memory } = s;
        self.store.release(memory);
    }
}
