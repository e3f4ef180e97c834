//! The machine and its calls that the engine doesn't know.
ghost use Rattle.std.specs.Prelude.{◌≡◌, ℕ, ◌+◌, ◌-◌, ◌≤◌, max, None, [], ◌∷◌, ◌++◌, length, map, ◌<◌, All, IfOk, OnOk, OnErr};
ghost use Rattle.std.specs.List.Sorted.{IsPermutation};
ghost use Rattle.code_form.specs.Sound.{IsSound};
ghost use Rattle.code_form.specs.Fit.{FitsTable, FitsCase};
ghost use Rattle.machine_form.specs.Machine.{machine_of, outcome_at};
ghost use Rattle.machine_form.specs.Start.{opening_bytes, start_of};
ghost use Rattle.shared_machine.specs.declared.state.SharedState.{SharedState};
ghost use Rattle.ports.specs.Asks.{answers_in, asked_in};
ghost use Rattle.traces.specs.Counts.{SameCounts};
ghost use Rattle.shared_pages.specs.Opening.{full_count};
ghost use Rattle.shared_pages.specs.Store.{memory, used_pages};

use crate::own_ports::OwnPorts;
use crate::state::SharedState;
use am_base::{MEMORY_BYTES, OutOfMemory, Outcome};
use bare_state::{Bare, hold_bytes};
use code_form::{Case, Code, Variants};
use exec_machine::Machine;
use machine_parts::{Ports, Subject};
use ports::Port;
use shared_pages::PageStore;
use std::alloc::Global;
use std::mem;

/// A machine whose states share the pages of their memories until one of them writes them: a fork
/// copies no page, but the registers, the input and the output. It owns its ports, and asks each
/// once for each different variant that calls it.
#[derive(Drop)]
pub struct SharedOver<'a, P: Ports> {
    pub subject: Subject<'a>,
    pub ports: P,
    /// The memories of the states that are out.
    pub store: PageStore,
    pub(crate) tried: u64,
    pub(crate) applied: u64,
    pub(crate) weighed: u64,
    pub(crate) readied: u64,
}

/// A shared machine with boxed ports.
pub type SharedMachine<'a> = SharedOver<'a, OwnPorts>;

impl<'a> SharedOver<'a, OwnPorts> {
    /// A machine over a code and a table, with the ports whose signs the code was checked with, in
    /// order. It has no state out and has counted nothing. The ports have moved into it, and the list
    /// is empty; after a refusal, which comes only for want of memory, the list is as it was. It
    /// costs the code's length.
    pub fn new(
        alloc: Global,
        code: &'a Code,
        variants: &'a Variants,
        ports: &mut Vec<Box<dyn Port>>,
    ) -> Result<SharedMachine<'a>, OutOfMemory>
        requires sound { IsSound code.now }
        requires table { FitsTable code.now variants.now }
        requires signs { map (λ p. sign p) ports.old.items ≡ code.now.signs }
        ensures meanings { IfOk result (λ m. ⟦<SharedOver<'a, OwnPorts> as Machine>⟧.view.meanings m ≡ machine_of code.now variants.now (answers_in (map (λ p. answers p) ports.old.items))) }
        ensures code { IfOk result (λ m. m.subject.code ≡ code.now) }
        ensures ports { IfOk result (λ m. m.ports.all.items ≡ ports.old.items) }
        ensures used { IfOk result (λ m. used_pages m.store ≡ 1) }
        ensures peak { IfOk result (λ m. m.store.peak ≡ 1) }
        ensures none_out { IfOk result (λ m. ⟦<SharedOver<'a, OwnPorts> as Machine>⟧.view.out_numbers m ≡ []) }
        ensures counts { IfOk result (λ m. ⟦<SharedOver<'a, OwnPorts> as Machine>⟧.view.counts m ≡ record {
          tried = 0;
          applied = 0;
          weighed = 0;
          readied = 0;
          asks = asked_in (map (λ p. asked p) ports.old.items);
        }) }
        ensures empty { OnOk result (ports.new.items ≡ []) }
        ensures err { OnErr result (ports.new.items ≡ ports.old.items) }
    {
        let subject = Subject::new(alloc, code, variants)?;
        let store = PageStore::new(alloc)?;
        let all = mem::replace(ports, Vec::new(alloc));
        Ok(SharedOver::over(subject, OwnPorts { all }, store))
    }

    /// Gives the ports back in their order, each as it is now.
    pub fn finish(self) -> Vec<Box<dyn Port>>
        requires { ⟦<SharedOver<'a, OwnPorts> as Machine>⟧.view.out_numbers self ≡ [] }
        ensures { result.items ≡ self.entry.ports.all.items }
    {
        let OwnPorts { all } = self.into_ports();
        all
    }
}

/// All bytes of the memory in which a run of a code begins.
fn opening_memory(alloc: Global, code: &Code) -> Result<Vec<u8>, OutOfMemory>
    requires { IsSound code.now }
    ensures value { IfOk result (λ bytes. bytes.items ≡ opening_bytes code.now) }
    ensures long { IfOk result (λ bytes. length bytes.items ≡ MEMORY_BYTES) }
    ensures range { IfOk result (λ bytes. All (λ b. b < 256) bytes.items) }
{
    let mut bytes = Vec::from_slice(alloc, code.memory.as_slice())?;
    bytes.resize(MEMORY_BYTES as usize, 0)?;
    hold_bytes(&bytes);
    Ok(bytes)
}

impl<'a, P: Ports> SharedOver<'a, P> {
    /// A machine over a code and a table, with these ports and a store without a memory. It has no
    /// state out and has counted nothing. It takes no memory.
    pub fn over(subject: Subject<'a>, ports: P, store: PageStore) -> SharedOver<'a, P>
        requires { (k : ℕ) → memory store k ≡ None }
        ensures meanings { ⟦<SharedOver<'a, P> as Machine>⟧.view.meanings result ≡ machine_of subject.entry.code subject.entry.table (answers_in (P.outside ports).answers) }
        ensures subject { result.subject ≡ subject.entry }
        ensures ports { result.ports ≡ ports }
        ensures store { result.store ≡ store }
        ensures none_out { ⟦<SharedOver<'a, P> as Machine>⟧.view.out_numbers result ≡ [] }
        ensures counts { ⟦<SharedOver<'a, P> as Machine>⟧.view.counts result ≡ record {
          tried = 0;
          applied = 0;
          weighed = 0;
          readied = 0;
          asks = asked_in (P.outside ports).asked;
        } }
    {
        SharedOver {
            subject,
            ports,
            store,
            tried: 0,
            applied: 0,
            weighed: 0,
            readied: 0,
        }
    }

    /// Gives the ports back, as they are now.
    pub fn into_ports(self) -> P
        requires { ⟦<SharedOver<'a, P> as Machine>⟧.view.out_numbers self ≡ [] }
        ensures { result ≡ self.entry.ports }
    {
        let SharedOver {
            subject: _,
            ports,
            store: _,
            tried: _,
            applied: _,
            weighed: _,
            readied: _,
        } = self;
        ports
    }

    /// Gives out a state that stands for the state in which a run of the case begins. No count
    /// changes, and the most pages that were used at once are those used so far with one for each
    /// page of the opening memory that isn't zero, if these are more. After a refusal, which comes
    /// only for want of memory, the states out are those that were. It costs the registers of the
    /// case's function, the memory and the input.
    pub fn start(&mut self, alloc: Global, case: &Case) -> Result<SharedState, OutOfMemory>
        requires case { FitsCase self.old.subject.code case.now }
        requires signs { (P.outside self.old.ports).signs ≡ self.old.subject.code.signs }
        ensures out_numbers { IfOk result (λ t. IsPermutation (⟦<SharedOver<'a, P> as Machine>⟧.view.number t ∷ ⟦<SharedOver<'a, P> as Machine>⟧.view.out_numbers self.old) (⟦<SharedOver<'a, P> as Machine>⟧.view.out_numbers self.new)) }
        ensures out { IfOk result (λ t. ⟦<SharedOver<'a, P> as Machine>⟧.view.is_out self.new t) }
        ensures state { IfOk result (λ t. ⟦<SharedOver<'a, P> as Machine>⟧.view.stands self.new t ≡ start_of self.old.subject.code case.now) }
        ensures err { OnErr result (⟦<SharedOver<'a, P> as Machine>⟧.view.out_numbers self.new ≡ ⟦<SharedOver<'a, P> as Machine>⟧.view.out_numbers self.old) }
        ensures peak { OnOk result (self.new.store.peak ≡ max self.old.store.peak (used_pages self.old.store + full_count (opening_bytes self.old.subject.code))) }
        ensures err_peak { OnErr result (self.new.store.peak ≡ self.old.store.peak) }
        ensures meanings { ⟦<SharedOver<'a, P> as Machine>⟧.view.meanings self.new ≡ ⟦<SharedOver<'a, P> as Machine>⟧.view.meanings self.old }
        ensures subject { self.new.subject ≡ self.old.subject }
        ensures ports { self.new.ports ≡ self.old.ports }
        ensures counts { SameCounts (⟦<SharedOver<'a, P> as Machine>⟧.view.counts self.old) (⟦<SharedOver<'a, P> as Machine>⟧.view.counts self.new) }
        ensures others_out { (t : SharedState) → ⟦<SharedOver<'a, P> as Machine>⟧.view.is_out self.old t → ⟦<SharedOver<'a, P> as Machine>⟧.view.is_out self.new t }
        ensures others_stand { (t : SharedState) → ⟦<SharedOver<'a, P> as Machine>⟧.view.is_out self.old t → ⟦<SharedOver<'a, P> as Machine>⟧.view.stands self.new t ≡ ⟦<SharedOver<'a, P> as Machine>⟧.view.stands self.old t }
    {
        let code = self.subject.program().code();
        let bare = Bare::start(alloc, code, case)?;
        let bytes = opening_memory(alloc, code)?;
        let memory = self.store.begin(alloc, &bytes)?;
        Ok(SharedState { bare, memory })
    }

    /// What a run shows that stopped in a state that is out: its ending, or that the budget was used
    /// up where it has none, and its output. It is refused only for want of memory.
    pub fn outcome(&self, alloc: Global, s: &SharedState) -> Result<Outcome, OutOfMemory>
        requires { ⟦<SharedOver<'a, P> as Machine>⟧.view.is_out self.now s.now }
        ensures { IfOk result (λ o. o ≡ outcome_at (⟦<SharedOver<'a, P> as Machine>⟧.view.stands self.now s.now)) }
    {
        s.bare.outcome(alloc)
    }
}
