//! The changes of variants in one state.
ghost use Rattle.std.specs.Prelude.{◌≡◌, ℕ, ◌+◌, ◌^◌, ◌<◌, ◌≤◌, true, [], length, map, All, sum_by, IfOk, OnOk};
ghost use Rattle.code_form.specs.Sound.{IsSound};
ghost use Rattle.code_form.specs.Variant.{replacements_at, instr_of};
ghost use Rattle.code_form.specs.Fit.{FitsTable};
ghost use Rattle.machine_form.specs.Machine.{next_by, toll_of, is_known};
ghost use Rattle.ports.specs.Asks.{answers_in, asked_in, AskedBy, AskedAtMostBy};
ghost use Rattle.lane_eval.specs.Running.{IsRunning};

use crate::port::change;
use crate::program::Program;
use crate::view::View;
use am_base::OutOfMemory;
use change_set::Change;
use code_form::{Place, Variants};
use flat_state::result_register;
use ports::Port;
use std::alloc::Global;

/// Makes `out`, whatever stood there, the change that a variant of the place of a state makes in it.
/// It is refused only for want of memory, and then `out` is some change.
pub fn fill_variant<V: View>(
    alloc: Global,
    program: &Program,
    table: &Variants,
    v: u32,
    s: &V,
    ports: &mut [Box<dyn Port>],
    out: &mut Change,
) -> Result<(), OutOfMemory>
    requires sound { IsSound program.now }
    requires table { FitsTable program.now table.now }
    requires running { IsRunning program.now (V.state s.now) }
    requires given { v ≤ length (replacements_at table.now (V.state s.now).running.place) }
    requires signs { map (λ q. sign q) ports.old ≡ program.now.signs }
    requires few { (p : ℕ) → asked_in (map (λ q. asked q) ports.old) p < 2 ^ 63 }
    ensures change { OnOk result (out.new ≡ next_by program.now table.now (answers_in (map (λ q. answers q) ports.old)) v (V.state s.now)) }
    ensures signs { map (λ q. sign q) ports.new ≡ map (λ q. sign q) ports.old }
    ensures answers { map (λ q. answers q) ports.new ≡ map (λ q. answers q) ports.old }
    ensures asks { OnOk result (AskedBy (map (λ q. asked q) ports.old) (map (λ q. asked q) ports.new)
        (λ p. toll_of p (V.state s.now) (instr_of program.now table.now (V.state s.now).running.place v))) }
    ensures asks_at_most { AskedAtMostBy (map (λ q. asked q) ports.old) (map (λ q. asked q) ports.new)
        (λ p. toll_of p (V.state s.now) (instr_of program.now table.now (V.state s.now).running.place v)) }
{
    let code = program.code();
    let place = s.place();
    let r = result_register(code, place);
    let i = table.instr(code, Place(place), v);
    change(alloc, program, s, r, i, ports, out)
}

/// The change that a variant of the place of a state makes in it.
pub fn try_variant<V: View>(
    alloc: Global,
    program: &Program,
    table: &Variants,
    v: u32,
    s: &V,
    ports: &mut [Box<dyn Port>],
) -> Result<Change, OutOfMemory>
    requires sound { IsSound program.now }
    requires table { FitsTable program.now table.now }
    requires running { IsRunning program.now (V.state s.now) }
    requires given { v ≤ length (replacements_at table.now (V.state s.now).running.place) }
    requires signs { map (λ q. sign q) ports.old ≡ program.now.signs }
    requires few { (p : ℕ) → asked_in (map (λ q. asked q) ports.old) p < 2 ^ 63 }
    ensures change { IfOk result (λ c. c ≡ next_by program.now table.now (answers_in (map (λ q. answers q) ports.old)) v (V.state s.now)) }
    ensures signs { map (λ q. sign q) ports.new ≡ map (λ q. sign q) ports.old }
    ensures answers { map (λ q. answers q) ports.new ≡ map (λ q. answers q) ports.old }
    ensures asks { OnOk result (AskedBy (map (λ q. asked q) ports.old) (map (λ q. asked q) ports.new)
        (λ p. toll_of p (V.state s.now) (instr_of program.now table.now (V.state s.now).running.place v))) }
    ensures asks_at_most { AskedAtMostBy (map (λ q. asked q) ports.old) (map (λ q. asked q) ports.new)
        (λ p. toll_of p (V.state s.now) (instr_of program.now table.now (V.state s.now).running.place v)) }
{
    let mut change = Change::new(alloc);
    fill_variant(alloc, program, table, v, s, ports, &mut change)?;
    Ok(change)
}

/// Puts into `out`, which is empty, the change that each of these variants of the place of a state
/// makes in it, in their order. Each port is asked once for each variant that calls it with its
/// arguments set. It is refused only for want of memory, and then `out` holds the changes of the
/// first of them, and each port was asked no more often than they would all have asked it.
pub fn try_variants<V: View>(
    alloc: Global,
    program: &Program,
    table: &Variants,
    s: &V,
    variants: &[u32],
    ports: &mut [Box<dyn Port>],
    out: &mut Vec<Change>,
) -> Result<(), OutOfMemory>
    requires sound { IsSound program.now }
    requires table { FitsTable program.now table.now }
    requires running { IsRunning program.now (V.state s.now) }
    requires known { All (λ v. is_known table.now (V.state s.now).running.place v ≡ true) variants.now }
    requires signs { map (λ q. sign q) ports.old ≡ program.now.signs }
    requires few { (p : ℕ) → asked_in (map (λ q. asked q) ports.old) p + length variants.now < 2 ^ 63 }
    requires empty { out.old.items ≡ [] }
    ensures changes { OnOk result (out.new.items
        ≡ map (λ v. next_by program.now table.now (answers_in (map (λ q. answers q) ports.old)) v (V.state s.now)) variants.now) }
    ensures signs { map (λ q. sign q) ports.new ≡ map (λ q. sign q) ports.old }
    ensures answers { map (λ q. answers q) ports.new ≡ map (λ q. answers q) ports.old }
    ensures asks { OnOk result (AskedBy (map (λ q. asked q) ports.old) (map (λ q. asked q) ports.new)
        (λ p. sum_by (λ v. toll_of p (V.state s.now) (instr_of program.now table.now (V.state s.now).running.place v)) variants.now)) }
    ensures asks_at_most { AskedAtMostBy (map (λ q. asked q) ports.old) (map (λ q. asked q) ports.new)
        (λ p. sum_by (λ v. toll_of p (V.state s.now) (instr_of program.now table.now (V.state s.now).running.place v)) variants.now) }
{
    for v in variants {
        let mut change = Change::new(alloc);
        fill_variant(alloc, program, table, *v, s, ports, &mut change)?;
        out.push(change)?;
    }
    Ok(())
}
