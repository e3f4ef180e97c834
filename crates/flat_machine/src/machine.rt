//! The machine and its calls that the engine doesn't know.
ghost use Rattle.std.specs.Prelude.{◌≡◌, [], ◌∷◌, map, IfOk, OnOk, OnErr};
ghost use Rattle.std.specs.List.Sorted.{IsPermutation};
ghost use Rattle.code_form.specs.Sound.{IsSound};
ghost use Rattle.code_form.specs.Fit.{FitsTable, FitsCase};
ghost use Rattle.machine_form.specs.Machine.{machine_of, outcome_at};
ghost use Rattle.machine_form.specs.Start.{start_of};
ghost use Rattle.ports.specs.Asks.{answers_in, asked_in};
ghost use Rattle.traces.specs.Counts.{SameCounts};
ghost use Rattle.traces.specs.View.{Keeps};

use crate::numbers::Numbers;
use crate::own_ports::{OwnPorts, Ports};
use crate::state::FlatState;
use crate::subject::Subject;
use am_base::{OutOfMemory, Outcome};
use code_form::{Case, Code, Variants};
use exec_machine::Machine;
use flat_state::Flat;
use ports::Port;
use std::alloc::Global;
use std::mem;

/// A machine whose states are flat: each has registers, memory and output of its own, and a fork
/// copies them. It owns its ports, and asks each once for each different variant that calls it.
#[derive(Drop)]
pub struct FlatOver<'a, P: Ports> {
    pub subject: Subject<'a>,
    pub ports: P,
    pub(crate) numbers: Numbers,
    pub(crate) tried: u64,
    pub(crate) applied: u64,
    pub(crate) weighed: u64,
    pub(crate) readied: u64,
}

/// A flat machine with boxed ports.
pub type FlatMachine<'a> = FlatOver<'a, OwnPorts>;

impl<'a> FlatOver<'a, OwnPorts> {
    /// A machine over a code and a table, with the ports whose signs the code was checked with, in
    /// order. It has no state out and has counted nothing. The ports have moved into it, and the list
    /// is empty; after a refusal, which comes only for want of memory, the list is as it was. It
    /// costs the code's length.
    pub fn new(
        alloc: Global,
        code: &'a Code,
        variants: &'a Variants,
        ports: &mut Vec<Box<dyn Port>>,
    ) -> Result<FlatMachine<'a>, OutOfMemory>
        requires sound { IsSound code.now }
        requires table { FitsTable code.now variants.now }
        requires signs { map (λ p. sign p) ports.old.items ≡ code.now.signs }
        ensures meanings { IfOk result (λ m. ⟦<FlatOver<'a, OwnPorts> as Machine>⟧.view.meanings m ≡ machine_of code.now variants.now (answers_in (map (λ p. answers p) ports.old.items))) }
        ensures code { IfOk result (λ m. m.subject.code ≡ code.now) }
        ensures ports { IfOk result (λ m. m.ports.all.items ≡ ports.old.items) }
        ensures none_out { IfOk result (λ m. ⟦<FlatOver<'a, OwnPorts> as Machine>⟧.view.out_numbers m ≡ []) }
        ensures counts { IfOk result (λ m. ⟦<FlatOver<'a, OwnPorts> as Machine>⟧.view.counts m ≡ record {
          tried = 0;
          applied = 0;
          weighed = 0;
          readied = 0;
          asks = asked_in (map (λ p. asked p) ports.old.items);
        }) }
        ensures empty { OnOk result (ports.new.items ≡ []) }
        ensures err { OnErr result (ports.new.items ≡ ports.old.items) }
    {
        let subject = Subject::new(alloc, code, variants)?;
        let all = mem::replace(ports, Vec::new(alloc));
        Ok(FlatOver::over(alloc, subject, OwnPorts { all }))
    }

    /// Gives the ports back in their order, each as it is now.
    pub fn finish(self) -> Vec<Box<dyn Port>>
        requires { ⟦<FlatOver<'a, OwnPorts> as Machine>⟧.view.out_numbers self ≡ [] }
        ensures { result.items ≡ self.entry.ports.all.items }
    {
        let OwnPorts { all } = self.into_ports();
        all
    }
}

impl<'a, P: Ports> FlatOver<'a, P> {
    /// A machine over a code and a table, with these ports. It has no state out and has counted
    /// nothing. It takes no memory.
    pub fn over(alloc: Global, subject: Subject<'a>, ports: P) -> FlatOver<'a, P>
        ensures meanings { ⟦<FlatOver<'a, P> as Machine>⟧.view.meanings result ≡ machine_of subject.entry.code subject.entry.table (answers_in (P.outside ports).answers) }
        ensures subject { result.subject ≡ subject.entry }
        ensures ports { result.ports ≡ ports }
        ensures none_out { ⟦<FlatOver<'a, P> as Machine>⟧.view.out_numbers result ≡ [] }
        ensures counts { ⟦<FlatOver<'a, P> as Machine>⟧.view.counts result ≡ record {
          tried = 0;
          applied = 0;
          weighed = 0;
          readied = 0;
          asks = asked_in (P.outside ports).asked;
        } }
    {
        FlatOver {
            subject,
            ports,
            numbers: Numbers::new(alloc),
            tried: 0,
            applied: 0,
            weighed: 0,
            readied: 0,
        }
    }

    /// Gives the ports back, as they are now.
    pub fn into_ports(self) -> P
        requires { ⟦<FlatOver<'a, P> as Machine>⟧.view.out_numbers self ≡ [] }
        ensures { result ≡ self.entry.ports }
    {
        let FlatOver {
            subject: _,
            ports,
            numbers: _,
            tried: _,
            applied: _,
            weighed: _,
            readied: _,
        } = self;
        ports
    }

    /// Gives out a state that stands for the state in which a run of the case begins. No count
    /// changes. After a refusal, which comes only for want of memory, the states out are those that
    /// were. It costs the registers of the case's function, the opening memory and the input.
    pub fn start(&mut self, alloc: Global, case: &Case) -> Result<FlatState, OutOfMemory>
        requires case { FitsCase self.old.subject.code case.now }
        requires signs { (P.outside self.old.ports).signs ≡ self.old.subject.code.signs }
        ensures out_numbers { IfOk result (λ t. IsPermutation (⟦<FlatOver<'a, P> as Machine>⟧.view.number t ∷ ⟦<FlatOver<'a, P> as Machine>⟧.view.out_numbers self.old) (⟦<FlatOver<'a, P> as Machine>⟧.view.out_numbers self.new)) }
        ensures out { IfOk result (λ t. ⟦<FlatOver<'a, P> as Machine>⟧.view.is_out self.new t) }
        ensures state { IfOk result (λ t. ⟦<FlatOver<'a, P> as Machine>⟧.view.stands self.new t ≡ start_of self.old.subject.code case.now) }
        ensures err { OnErr result (⟦<FlatOver<'a, P> as Machine>⟧.view.out_numbers self.new ≡ ⟦<FlatOver<'a, P> as Machine>⟧.view.out_numbers self.old) }
        ensures counts { SameCounts (⟦<FlatOver<'a, P> as Machine>⟧.view.counts self.old) (⟦<FlatOver<'a, P> as Machine>⟧.view.counts self.new) }
        ensures keeps { Keeps ⟦<FlatOver<'a, P> as Machine>⟧.view self.old self.new [] }
    {
        let flat = Flat::start(alloc, self.subject.program().code(), case)?;
        let number = self.numbers.give()?;
        Ok(FlatState { number, flat })
    }

    /// What a run shows that stopped in a state that is out: its ending, or that the budget was used
    /// up where it has none, and its output. It is refused only for want of memory.
    pub fn outcome(&self, alloc: Global, s: &FlatState) -> Result<Outcome, OutOfMemory>
        requires { ⟦<FlatOver<'a, P> as Machine>⟧.view.is_out self.now s.now }
        ensures { IfOk result (λ o. o ≡ outcome_at (⟦<FlatOver<'a, P> as Machine>⟧.view.stands self.now s.now)) }
    {
        s.flat.outcome(alloc)
    }
}
