//! The table of the replacements of a list, and its rows.

ghost use Rattle.std.specs.Prelude.{◌≡◌, ◌≢◌, ℕ, ◌<◌, ◌≤◌, ◌∷◌, [], ◌++◌, false, length, IfOk, OnOk};
ghost use Rattle.am_base.specs.declared.limits.TheConstants.{MAX_REPLACEMENTS};
ghost use Rattle.code_form.specs.Fit.{FitsPlace, FitsTable};
ghost use Rattle.code_form.specs.Variant.{Adds, chosen_by, has_place, mutants_of, places_by};
ghost use Rattle.mutant_records.specs.Lists as spec;
ghost use Rattle.mutant_records.specs.Order.{AreInOrder};
ghost use Rattle.mutant_records.specs.Tables.{AllFit, IsListOf, row_of};

use crate::list::{Made, MutantList, MutantRow};
use am_base::OutOfMemory;
use am_lists::Items;
use code_form::{Code, Variants};
use std::alloc::Global;

/// Adds a replacement, and its row.
fn add_row(
    alloc: Global,
    code: &Code,
    variants: &mut Variants,
    rows: &mut Items<MutantRow>,
    made: Made,
) -> Result<(), OutOfMemory>
    requires some { 1 ≤ made.mutant }
    requires defined { made.mutant < mutants_of variants.old }
    requires free { has_place (places_by variants.old made.mutant) made.place.0 ≡ false }
    requires few { length (places_by variants.old made.mutant) < MAX_REPLACEMENTS }
    requires within { made.place.0 < length code.now.instrs }
    ensures added { OnOk result (Adds code.now variants.old variants.new made.mutant made.place.0 made.with) }
    ensures rows { OnOk result (rows.new ≡ rows.old ++ row_of variants.new made ∷ []) }
    ensures mutants { mutants_of variants.new ≡ mutants_of variants.old }
    ensures places { OnOk result (places_by variants.new made.mutant ≡ places_by variants.old made.mutant ++ made.place.0 ∷ []) }
    ensures others { (n : ℕ) → n ≢ made.mutant → chosen_by variants.new n ≡ chosen_by variants.old n }
    ensures fits { FitsTable code.now variants.old → FitsPlace code.now made.place.0 made.with → FitsTable code.now variants.new }
{
    let Made {
        mutant,
        function,
        place,
        with,
    } = made;
    variants.add(alloc, code, mutant, place, with)?;
    let variant = variants.variant(mutant, place);
    rows.push(MutantRow {
        mutant,
        function,
        place,
        variant,
    })?;
    Ok(())
}

/// How many mutants these are replacements of, which are in the order of the mutants.
fn mutants_in(all: &[Made]) -> u32
    ensures { result ≡ spec.last_mutant all.now }
{
    match all.last() {
        Some(made) => made.mutant,
        None => 0,
    }
}

/// Makes the list of these replacements.
pub(crate) fn list_of(
    alloc: Global,
    code: &Code,
    all: Items<Made>,
) -> Result<MutantList, OutOfMemory>
    requires order { AreInOrder [] all }
    requires fit { AllFit code.now all }
    ensures list { IfOk result (λ list. IsListOf code.now all list) }
    ensures fits { IfOk result (λ list. FitsTable code.now list.variants) }
{
    let mut variants = Variants::new(alloc, mutants_in(all.as_slice()) + 1)?;
    let mut rows = Items::new(alloc);
    let mut left = all.into_vec();
    left.reverse();
    'each: while let Some(made) = left.pop() {
        add_row(alloc, code, &mut variants, &mut rows, made)?;
    }
    Ok(MutantList { variants, rows })
}
