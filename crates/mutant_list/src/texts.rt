//! What a text is as a replacement in a place of a module's code.
ghost use Rattle.std.specs.Prelude.{◌≡◌, IfOk};
ghost use Rattle.ir_rules.specs.Replacements.{replacement_by};
ghost use Rattle.mutant_list.specs.Texts.{judged};

use am_base::OutOfMemory;
use code_form::Place;
use ir_reader::{InstrError, read_instruction};
use ir_replacements::Checker;
use ir_tree::Item;
use mutant_records::{Replacement, Replaces};
use std::alloc::Global;

/// Reads the texts of replacements, and asks whether they can stand in their places.
#[derive(Drop)]
pub(crate) struct Texts<'a> {
    pub checker: Checker<'a>,
}

impl<'a> Replaces for Texts<'a> {
    ghost use Rattle.ir_rules.specs.Modules.{code_of};
    ghost use Rattle.ir_replacements.specs.Prepared.{Subject as Over};
    ghost use Rattle.mutant_list.specs.Texts.{Reads as WhatItReads};

    ghost Subject = { Over };

    ghost subject = { λ t. t.checker };

    ghost code = { λ s. code_of s.items s.signs };

    ghost Reads = { λ s. WhatItReads s.items s.signs };

    fn replacement(
        &mut self,
        alloc: Global,
        place: Place,
        text: &[u8],
    ) -> Result<Replacement, OutOfMemory> {
        match read_instruction(alloc, text) {
            Err(InstrError::OutOfMemory) => Err(OutOfMemory),
            Err(InstrError::NotAnInstruction) => Ok(Replacement::NoInstruction),
            Ok(item) => replacement_of(alloc, &mut self.checker, place, &item),
        }
    }
}

/// What an instruction is as a replacement.
fn replacement_of(
    alloc: Global,
    checker: &mut Checker<'_>,
    place: Place,
    item: &Item,
) -> Result<Replacement, OutOfMemory>
    ensures value { IfOk result (λ found.
        found ≡ judged (replacement_by checker.old.items checker.old.signs place.0 item.now)) }
    ensures kept { checker.new ≡ checker.old }
{
    match checker.replacement(alloc, place, item)? {
        Some(with) => Ok(Replacement::Fits(with)),
        None => Ok(Replacement::Misfit),
    }
}
