//! The table of the replacements of all mutants.

ghost use Rattle.std.specs.Prelude.{◌≡◌, ◌≢◌, ℕ, ◌<◌, ◌≤◌, false, [], ◌∷◌, ◌++◌, length, IfOk, OnOk, OnErr, Contains, ◌↔◌};
ghost use Rattle.am_base.specs.declared.limits.TheConstants.{MAX_REPLACEMENTS};
ghost use Rattle.code_form.specs.Variant.{mutants_of, chosen_by, places_by, has_place, variant_of, replacements_at, instr_of, Adds, AreDifferent, IsRising};
ghost use Rattle.code_form.specs.Fit.{FitsPlace, FitsTable};
ghost use Rattle.code_form.specs.Replacements.{mutants_in};

use crate::choices::{Choices, choice_of, nothing_chosen, number_in};
use crate::code::{Code, Place};
use crate::instr::Instr;
use crate::replacements::{Replacements, add_at};
use am_base::{MAX_MUTANTS, OutOfMemory};
use std::alloc::Global;
use std::marker::Model;

/// The replacements of the mutants: each mutant but mutant 0, the unchanged program, has at most
/// `MAX_REPLACEMENTS`, each at another place. Contracts see a `Table`.
#[derive(Drop)]
pub struct Variants {
    /// For each mutant its replacements: the place of each and its number there.
    chosen: Vec<Choices>,
    /// The replacements of each place up to the last one that was mentioned.
    places: Vec<Replacements>,
}

impl Model for Variants {
    ghost use Rattle.code_form.specs.Variant.{Table};

    ghost Value = { Table };

    ghost use Rattle.code_form.specs.Replacements.{table_of, IsFiled};

    ghost view = { λ v. table_of v.chosen.items v.places.items };

    ghost invariant = { λ v. IsFiled v.chosen.items v.places.items };
}

impl Variants {
    /// Returns a table of this many mutants, from 1 to `MAX_MUTANTS`, mutant 0 included, without a
    /// replacement.
    pub fn new(alloc: Global, mutants: u32) -> Result<Variants, OutOfMemory>
        requires some { 1 ≤ mutants }
        requires few { mutants ≤ MAX_MUTANTS }
        ensures mutants { IfOk result (λ table. mutants_of table ≡ mutants) }
        ensures nothing_chosen { IfOk result (λ table. (m : ℕ) → chosen_by table m ≡ []) }
        ensures nothing_mentioned { IfOk result (λ table. (at : ℕ) → replacements_at table at ≡ []) }
    {
        Ok(Variants {
            chosen: nothing_chosen(alloc, mutants)?,
            places: Vec::new(alloc),
        })
    }

    /// Returns the number of mutants, mutant 0 included.
    pub fn mutants(&self) -> u32
        ensures mutants { result ≡ mutants_of self.now }
        ensures some { 1 ≤ result }
        ensures few { result ≤ MAX_MUTANTS }
        ensures unchanged { chosen_by self.now 0 ≡ [] }
        ensures given { (m at : ℕ) → variant_of self.now m at ≤ length (replacements_at self.now at) }
    {
        self.chosen.len() as u32
    }

    /// Returns the number of the replacement that mutant `m` has at a place: 0 if it has none there,
    /// and 0 if it equals the original. Equal replacements of one place have one
    /// number, and numbers are given from 1 in order of first mention. O(1).
    pub fn variant(&self, m: u32, place: Place) -> u32
        ensures number { result ≡ variant_of self.now m place.0 }
        ensures given { result ≤ length (replacements_at self.now place.0) }
        ensures different { AreDifferent (replacements_at self.now place.0) }
    {
        number_in(choice_of(&self.chosen, m), place.0)
    }

    /// Adds a replacement, at a place of the code, of a mutant from 1 that has none there yet, and
    /// fewer than `MAX_REPLACEMENTS`. It gets number 0 if it equals the code's instruction, the number of an equal replacement of the
    /// place if there is one, and else the next number. O(1) amortized but for the hashing, where
    /// mutants come in rising order. After an error the table is as it was.
    pub fn add(
        &mut self,
        alloc: Global,
        code: &Code,
        m: u32,
        place: Place,
        with: Instr,
    ) -> Result<(), OutOfMemory>
        requires some { 1 ≤ m }
        requires defined { m < mutants_of self.old }
        requires free { has_place (places_by self.old m) place.0 ≡ false }
        requires few { length (places_by self.old m) < MAX_REPLACEMENTS }
        requires within { place.0 < length code.now.instrs }
        ensures added { OnOk result (Adds code.now self.old self.new m place.0 with) }
        ensures mutants { mutants_of self.new ≡ mutants_of self.old }
        ensures places { OnOk result (places_by self.new m ≡ places_by self.old m ++ place.0 ∷ []) }
        ensures others { (n : ℕ) → n ≢ m → chosen_by self.new n ≡ chosen_by self.old n }
        ensures fits { FitsTable code.now self.old → FitsPlace code.now place.0 with → FitsTable code.now self.new }
        ensures err { OnErr result (self.new ≡ self.old) }
    {
        let at = place.0 as usize;
        let original = &code.instrs.as_slice()[at];
        let number = add_at(alloc, &mut self.places, at, original, m, with)?;
        let choices = &mut self.chosen[m as usize];
        choices.push(place.0, number);
        Ok(())
    }

    /// Returns the mutants whose number at a place isn't 0, rising. O(1).
    pub fn mutants_at(&self, place: Place) -> &[u32]
        ensures rising { IsRising result.now }
        ensures exact { (m : ℕ) → Contains result.now m ↔ (0 < variant_of self.now m place.0) }
    {
        mutants_of_place(&self.places, place.0 as usize)
    }

    /// Returns the instruction with a number at a place of the code: for 0 the code's own. O(1).
    pub fn instr<'a>(&'a self, code: &'a Code, place: Place, v: u32) -> &'a Instr
        requires within { place.0 < length code.now.instrs }
        requires given { v ≤ length (replacements_at self.now place.0) }
        ensures { result.now ≡ instr_of code.now self.now place.0 v }
    {
        let at = place.0 as usize;
        if v == 0 {
            return &code.instrs.as_slice()[at];
        }
        &self.places[at].instrs.as_slice()[v as usize - 1]
    }
}

/// The mutants that have a replacement at a place: none at a place past the last in the list.
fn mutants_of_place(places: &[Replacements], at: usize) -> &[u32]
    ensures { result.now ≡ mutants_in places.now at }
{
    match places.get(at) {
        Some(place) => place.mutants.as_slice(),
        None => &[],
    }
}

#[cfg(test)]
mod tests {
    use super::*;
    use crate::instr::Operand;
    use am_base::Width;
    use am_lists::{Items, Same};
    use std::test::Fail;

    /// `freeze` of a word.
    fn freeze(word: u64) -> Instr {
        Instr::Freeze(Operand::Word(word))
    }

    /// A code of three instructions.
    fn three(alloc: Global) -> Result<Code, OutOfMemory>
        ensures { IfOk result (λ code. length code.instrs ≡ 3) }
    {
        Ok(Code {
            funcs: Items::new(alloc),
            instrs: Items::from_vec(vec![in alloc;
                freeze(0),
                Instr::Load(Width::W8, Operand::Word(1024)),
                Instr::Ret(None),
            ]?),
            results: Items::new(alloc),
            memory: Items::new(alloc),
            const_end: 1024,
            stack_base: 1024,
            signs: Items::new(alloc),
        })
    }

    /// A table of seven mutants, one of which has three replacements.
    fn filled(alloc: Global, code: &Code) -> Result<Variants, OutOfMemory>
        requires { length code.now.instrs ≡ 3 }
    {
        let mut table = Variants::new(alloc, 7)?;
        table.add(alloc, code, 5, Place(0), freeze(8))?;
        table.add(alloc, code, 2, Place(0), freeze(9))?;
        table.add(alloc, code, 4, Place(0), freeze(8))?;
        table.add(alloc, code, 1, Place(0), freeze(0))?;
        table.add(alloc, code, 3, Place(1), freeze(9))?;
        table.add(alloc, code, 5, Place(1), freeze(9))?;
        table.add(alloc, code, 5, Place(2), freeze(8))?;
        Ok(table)
    }

    #[test]
    fn numbers_replacements(rt: HostRuntime) -> Result<(), Fail> {
        let code = three(rt.alloc())?;
        let table = filled(rt.alloc(), &code)?;
        assert_eq!(rt; table.mutants(), 7);
        let rows = [
            // Mutant 5 mentions its replacement first, mutant 4 has the same, and that of mutant 1 is the original.
            (0, [0, 0, 2, 0, 1, 1, 0]),
            // Mutant 5 has that of mutant 3 here, and at the next place one that equals its first.
            (1, [0, 0, 0, 1, 0, 1, 0]),
            (2, [0, 0, 0, 0, 0, 1, 0]),
            (9, [0, 0, 0, 0, 0, 0, 0]),
        ];
        for (place, numbers) in rows {
            for m in 0..7 {
                assert_eq!(rt;
                    table.variant(m, Place(place)),
                    numbers[m as usize],
                    "of {m} at {place}"
                );
            }
        }
        assert_eq!(rt; table.mutants_at(Place(0)), [2, 4, 5].as_slice());
        assert_eq!(rt; table.mutants_at(Place(1)), [3, 5].as_slice());
        assert_eq!(rt; table.mutants_at(Place(2)), [5].as_slice());
        assert!(rt; table.mutants_at(Place(9)).is_empty());
        Ok(())
    }

    #[test]
    fn gives_instructions(rt: HostRuntime) -> Result<(), Fail> {
        let code = three(rt.alloc())?;
        let table = filled(rt.alloc(), &code)?;
        for (m, word) in [(0, 0), (1, 0), (2, 9), (3, 0), (4, 8), (5, 8), (6, 0)] {
            let number = table.variant(m, Place(0));
            assert!(rt;
                table.instr(&code, Place(0), number).same(&freeze(word)),
                "of {m}"
            );
        }
        Ok(())
    }
}
