//! What a machine asks of boxed ports, over their vector.
ghost use Rattle.std.specs.Prelude.{◌≡◌, ℕ, ◌+◌, ◌*◌, ◌<◌, ◌≤◌, ◌^◌, true, [], length, map, All, sum_by, IfOk, OnOk};
ghost use Rattle.code_form.specs.Sound.{IsSound};
ghost use Rattle.code_form.specs.Fit.{FitsTable, FitsCase};
ghost use Rattle.code_form.specs.Variant.{instr_of, mutants_of};
ghost use Rattle.traces.specs.Trace.{trace};
ghost use Rattle.machine_form.specs.Machine.{next_by, toll_of, is_known, case_trial, outcome_of};
ghost use Rattle.ports.specs.Asks.{answers_in, asked_in, AskedBy, AskedAtMostBy};
ghost use Rattle.lane_eval.specs.Running.{IsRunning};
ghost use Rattle.plain_machine.specs.Tolls.{tolls_of};

use am_base::OutOfMemory;
use am_lists::Items;
use change_set::Change;
use code_form::{Case, Code, PortSign, Variants};
use lane_eval::{Program, View, try_variants};
use plain_machine::{Alone, run_alone};
use ports::Port;
use std::alloc::Global;

/// `lane_eval::try_variants` with the ports of a vector.
pub fn try_by<V: View>(
    alloc: Global,
    program: &Program,
    table: &Variants,
    s: &V,
    variants: &[u32],
    ports: &mut Vec<Box<dyn Port>>,
    out: &mut Vec<Change>,
) -> Result<(), OutOfMemory>
    requires sound { IsSound program.now }
    requires table { FitsTable program.now table.now }
    requires running { IsRunning program.now (V.state s.now) }
    requires known { All (λ v. is_known table.now (V.state s.now).running.place v ≡ true) variants.now }
    requires signs { map (λ q. sign q) ports.old.items ≡ program.now.signs }
    requires few { (p : ℕ) → asked_in (map (λ q. asked q) ports.old.items) p + length variants.now < 2 ^ 63 }
    requires empty { out.old.items ≡ [] }
    ensures changes { OnOk result (out.new.items
        ≡ map (λ v. next_by program.now table.now (answers_in (map (λ q. answers q) ports.old.items)) v (V.state s.now)) variants.now) }
    ensures signs { map (λ q. sign q) ports.new.items ≡ map (λ q. sign q) ports.old.items }
    ensures answers { map (λ q. answers q) ports.new.items ≡ map (λ q. answers q) ports.old.items }
    ensures asks { OnOk result (AskedBy (map (λ q. asked q) ports.old.items) (map (λ q. asked q) ports.new.items)
        (λ p. sum_by (λ v. toll_of p (V.state s.now) (instr_of program.now table.now (V.state s.now).running.place v)) variants.now)) }
    ensures asks_at_most { AskedAtMostBy (map (λ q. asked q) ports.old.items) (map (λ q. asked q) ports.new.items)
        (λ p. sum_by (λ v. toll_of p (V.state s.now) (instr_of program.now table.now (V.state s.now).running.place v)) variants.now) }
{
    try_variants(alloc, program, table, s, variants, ports, out)
}

/// `plain_machine::run_alone` with the ports of a vector.
pub fn run_by(
    alloc: Global,
    code: &Code,
    table: &Variants,
    m: u32,
    case: &Case,
    ports: &mut Vec<Box<dyn Port>>,
) -> Result<Alone, OutOfMemory>
    requires sound { IsSound code.now }
    requires table { FitsTable code.now table.now }
    requires case { FitsCase code.now case.now }
    requires mutant { m < mutants_of table.now }
    requires signs { map (λ q. sign q) ports.old.items ≡ code.now.signs }
    requires few { (p : ℕ) → asked_in (map (λ q. asked q) ports.old.items) p ≤ 3 * 2 ^ 61 }
    ensures outcome { let T = case_trial code.now table.now (answers_in (map (λ q. answers q) ports.old.items)) case.now in
        IfOk result (λ alone. alone.outcome ≡ outcome_of T m) }
    ensures length { let T = case_trial code.now table.now (answers_in (map (λ q. answers q) ports.old.items)) case.now in
        IfOk result (λ alone. alone.length ≡ length (trace T m)) }
    ensures signs { map (λ q. sign q) ports.new.items ≡ map (λ q. sign q) ports.old.items }
    ensures answers { map (λ q. answers q) ports.new.items ≡ map (λ q. answers q) ports.old.items }
    ensures asks { let T = case_trial code.now table.now (answers_in (map (λ q. answers q) ports.old.items)) case.now in
        OnOk result (AskedBy (map (λ q. asked q) ports.old.items) (map (λ q. asked q) ports.new.items) (tolls_of T m)) }
    ensures asks_at_most { let T = case_trial code.now table.now (answers_in (map (λ q. answers q) ports.old.items)) case.now in
        AskedAtMostBy (map (λ q. asked q) ports.old.items) (map (λ q. asked q) ports.new.items) (tolls_of T m) }
{
    run_alone(alloc, code, table, m, case, ports)
}

/// A copy of the sign of a port.
fn copied_sign(alloc: Global, port: &Box<dyn Port>) -> Result<PortSign, OutOfMemory>
    ensures { IfOk result (λ s. s ≡ sign port.now) }
{
    port.sign().copy(alloc)
}

/// Copies of the signs of ports, in order. It is refused only for want of memory.
pub fn copied_signs(alloc: Global, ports: &[Box<dyn Port>]) -> Result<Items<PortSign>, OutOfMemory>
    ensures { IfOk result (λ signs. signs ≡ map (λ q. sign q) ports.now) }
{
    let mut signs = Items::new(alloc);
    for port in ports {
        signs.push(copied_sign(alloc, port)?)?;
    }
    Ok(signs)
}
