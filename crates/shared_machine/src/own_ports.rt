//! Boxed ports, as the ports that a machine owns.

use am_base::OutOfMemory;
use am_lists::Items;
use change_set::Change;
use code_form::{Case, Code, PortSign, Variants};
use lane_eval::{Program, View};
use machine_parts::{Ports, copied_signs, run_by, try_by};
use plain_machine::Alone;
use ports::Port;
use std::alloc::Global;

/// Boxed ports. A function that takes boxed ports and has a condition calls generic code only at a
/// type of its own crate like this one: the checker doesn't see into an impl of another crate for a
/// type that holds a `dyn`.
#[derive(Drop)]
pub struct OwnPorts {
    pub all: Vec<Box<dyn Port>>,
}

impl Ports for OwnPorts {
    ghost use Rattle.std.specs.Prelude.{map};

    ghost outside = { λ p. record {
      signs = map (λ q. (Port-box q).sign q.value) p.all.items;
      answers = map (λ q. (Port-box q).answers q.value) p.all.items;
      asked = map (λ q. (Port-box q).asked q.value) p.all.items;
    } };

    fn tries<V: View>(
        &mut self,
        alloc: Global,
        program: &Program,
        table: &Variants,
        s: &V,
        variants: &[u32],
        out: &mut Vec<Change>,
    ) -> Result<(), OutOfMemory> {
        try_by(alloc, program, table, s, variants, &mut self.all, out)
    }

    fn alone(
        &mut self,
        alloc: Global,
        code: &Code,
        table: &Variants,
        m: u32,
        case: &Case,
    ) -> Result<Alone, OutOfMemory> {
        run_by(alloc, code, table, m, case, &mut self.all)
    }

    fn signs(&self, alloc: Global) -> Result<Items<PortSign>, OutOfMemory> {
        copied_signs(alloc, &self.all)
    }
}
