//! `load`: a run over the workload that is built in.

ghost use Rattle.std.specs.Prelude.{◌≡◌, ℕ, ◌≤◌, ◌^◌, List};
ghost use Rattle.am_base.specs.Cause.{Rose};
ghost use Rattle.am_base.specs.Files.{Files};
ghost use Rattle.command_plan.specs.Answer.{Found};
ghost use Rattle.commands.specs.Alone.{counts_of};
ghost use Rattle.commands.specs.Plans.{load_plan};

use crate::run::run_found;
use am_base::{DEFAULT_BUDGET, OutOfMemory};
use am_lists::{Bytes, Items};
use change_set::Change;
use code_form::{Case, Code, PortSign, Variants};
use command_plan::Stop;
use exec_core::Meter;
use flat_machine::{Ports, run_by, try_by};
use flat_state::Flat;
use picker::Picker;
use plain_machine::{Alone, Program};
use std::alloc::Global;
use suite_analysis::Show;
use workload::{MODULE, MUTANTS, TESTS, Workload};

/// No ports at all.
#[derive(Drop)]
struct NoPorts;

impl Ports for NoPorts {
    ghost use Rattle.std.specs.Prelude.{[]};

    ghost outside = { λ none. record { signs = []; answers = []; asked = [] } };

    fn tries(
        &mut self,
        alloc: Global,
        program: &Program,
        table: &Variants,
        s: &Flat,
        variants: &[u32],
        out: &mut Vec<Change>,
    ) -> Result<(), OutOfMemory> {
        let mut none = Vec::new(alloc);
        try_by(alloc, program, table, s, variants, &mut none, out)
    }

    fn alone(
        &mut self,
        alloc: Global,
        code: &Code,
        table: &Variants,
        m: u32,
        case: &Case,
    ) -> Result<Alone, OutOfMemory> {
        let mut none = Vec::new(alloc);
        run_by(alloc, code, table, m, case, &mut none)
    }

    fn signs(&self, alloc: Global) -> Result<Items<PortSign>, OutOfMemory> {
        Ok(Items::new(alloc))
    }
}

/// Returns the summary of the workload of this number: what `run` shows over its three files,
/// without ports. No shelf is called. `OutOfMemory` is the one refusal that is seen in practice: no
/// file of it can't be read (`load_has_no_read_fault`).
pub fn load_found(
    alloc: Global,
    number: u64,
    picker: &mut Box<dyn Picker>,
    meter: &mut Meter,
) -> Result<Bytes, Stop>
    requires room { meter.old ≤ 2 ^ 62 }
    ensures found { (files : Files) (before after : List ℕ → ℕ) (asks : ℕ → ℕ) →
        Found files (λ name. Rose (before name) (after name)) (load_plan number)
        (counts_of meter.old asks) (counts_of meter.new asks) result }
{
    let Ok(mut shelf) = Workload::of(alloc, number) else {
        return Err(Stop::OutOfMemory);
    };
    let show = Show::Summary { number };
    let (_, found) = run_found(
        alloc,
        &mut shelf,
        MODULE,
        MUTANTS,
        TESTS,
        DEFAULT_BUDGET,
        show,
        &[],
        NoPorts,
        picker,
        meter,
    );
    found
}
