//! The first change that each mutant makes by a variant other than 0.

ghost use Rattle.std.specs.Prelude.{◌≡◌, ℕ, ◌<◌, ◌≤◌, ◌^◌, ◌+◌, length, map, IfOk, IfSome, None, slice_index_or, option_map};
ghost use Rattle.code_form.specs.Variant.{mutants_of, variant_of};
ghost use Rattle.machine_form.specs.declared.change.Change.{Change};
ghost use Rattle.machine_form.specs.State.{State};
ghost use Rattle.traces.specs.Meanings.{IsSameTest};
ghost use Rattle.traces.specs.Trace.{Trial};
ghost use Rattle.reach_report.specs.Least.{AreLeast};
ghost use Rattle.reach_report.specs.Reach.{AreVisits, AreReaches};

use crate::table::lower_each;
use am_base::OutOfMemory;
use code_form::{Place, Variants};
use std::alloc::Global;

/// The number, from 1, of a change whose number from 0 is given.
fn from_one(visit: Option<u64>) -> Option<u64>
    requires { IfSome visit (λ n. n < 2 ^ 63) }
    ensures { result ≡ option_map (λ n. n + 1) visit }
{
    match visit {
        Some(n) => Some(n + 1),
        None => None,
    }
}

/// Returns for each mutant from 0 the number, from 1, of the first change that it makes by a variant
/// other than 0: none where it makes none. `visits` has for each place the number, from 0, of the
/// first change that mutant 0 makes there. Refuses for want of memory alone. O(n) in the places and
/// in the replacements.
pub fn reaches(
    alloc: Global,
    variants: &Variants,
    visits: &[Option<u64>],
) -> Result<Vec<Option<u64>>, OutOfMemory>
    requires few { length visits.now < 2 ^ 32 }
    requires small { (at : ℕ) → IfSome (slice_index_or visits.now at None) (λ n. n < 2 ^ 63) }
    ensures { IfOk result (λ list. (T : Trial State Change) → IsSameTest T.meanings → T.mutants ≡ mutants_of variants.now
        → ((m at : ℕ) → T.variant m at ≡ variant_of variants.now m at) → AreVisits T visits.now → AreReaches T list.items) }
{
    let mut table = vec![in alloc; None; variants.mutants() as usize]?;
    'places: for (at, visit) in visits.iter().enumerate() {
        let mutants = variants.mutants_at(Place(at as u32));
        lower_each(&mut table, mutants, from_one(*visit));
    }
    Ok(table)
}
