//! How far a list is read, and what the numbers of mutants look back to.

ghost use Rattle.std.specs.Prelude.{◌≡◌, ◌≤◌, ◌∷◌, [], ◌++◌, IfSome, OnOk};
ghost use Rattle.csv.specs.Records.{fields_of};
ghost use Rattle.mutant_records.specs.Lists as spec;
ghost use Rattle.mutant_records.specs.Progress.{Keeps};
ghost use Rattle.mutant_records.specs.Order.{Follows};

use crate::list::{ListForm, Made};
use am_base::{MAX_REPLACEMENTS, OutOfMemory};
use am_lists::Items;
use arrayvec::ArrayVec;
use csv::ByteRecord;
use list_records::{field, number_within};
use std::alloc::Global;

/// How far a list is read: its form, the replacements so far, the mutant of the last of them, and
/// the places of that mutant's.
#[derive(Drop)]
pub(crate) struct Progress {
    pub form: ListForm,
    pub all: Items<Made>,
    pub mutant: u32,
    pub places: ArrayVec<u32, MAX_REPLACEMENTS>,
}

impl Progress {
    /// Behind the header.
    pub(crate) fn new(alloc: Global, form: ListForm) -> Progress
        ensures form { result.form ≡ form }
        ensures nothing { result.all ≡ [] }
        ensures keeps { Keeps result }
    {
        Progress {
            form,
            all: Items::new(alloc),
            mutant: 0,
            places: ArrayVec::new(),
        }
    }

    /// How many fields stand before the function's.
    pub(crate) fn fields_before(&self) -> usize
        ensures { result ≡ spec.fields_before self.now.form }
    {
        match self.form {
            ListForm::Plain => 0,
            ListForm::Numbered => 1,
        }
    }

    /// Whether a mutant with this number may have one more replacement.
    fn takes(&self, m: u64) -> bool
        requires keeps { Keeps self.now }
        ensures { result ≡ spec.takes self.now.all m }
    {
        if m == u64::from(self.mutant) {
            return !self.places.is_full();
        }
        m > u64::from(self.mutant)
    }

    /// The number of the mutant that a record adds to; `None` where its first field gives none.
    pub(crate) fn mutant_of(&self, number: u32, row: &ByteRecord) -> Option<u32>
        requires keeps { Keeps self.now }
        requires next { self.now.mutant ≤ number }
        ensures value { result ≡ spec.mutant_called self.now.form self.now.all number (fields_of row.now) }
        ensures next { IfSome result (λ m. self.now.mutant ≤ m) }
    {
        match self.form {
            ListForm::Plain => Some(number),
            ListForm::Numbered => match number_within(u64::from(self.mutant) + 1, field(row, 0)) {
                Some(m) if self.takes(m) => Some(m as u32),
                _ => None,
            },
        }
    }

    /// Whether the mutant of the next record has a replacement at the place.
    pub(crate) fn is_taken(&self, m: u32, place: u32) -> bool
        requires keeps { Keeps self.now }
        requires next { self.now.mutant ≤ m }
        ensures { result ≡ spec.is_taken self.now.form self.now.all m place }
    {
        match self.form {
            ListForm::Plain => false,
            ListForm::Numbered => m == self.mutant && self.places.as_slice().contains(&place),
        }
    }

    /// Turns to the mutant of the next replacement.
    fn turn_to(&mut self, mutant: u32)
        requires keeps { Keeps self.old }
        requires later { self.old.mutant ≤ mutant }
        ensures form { self.new.form ≡ self.old.form }
        ensures all { self.new.all ≡ self.old.all }
        ensures mutant { self.new.mutant ≡ mutant }
        ensures places { self.new.places.items ≡ spec.places_of self.old.all mutant }
    {
        if mutant != self.mutant {
            self.mutant = mutant;
            self.places.clear();
        }
    }

    /// Keeps one more replacement.
    pub(crate) fn push(&mut self, made: Made) -> Result<(), OutOfMemory>
        requires keeps { Keeps self.old }
        requires follows { Follows self.old.all made }
        ensures form { self.new.form ≡ self.old.form }
        ensures all { OnOk result (self.new.all ≡ self.old.all ++ made ∷ []) }
        ensures keeps { OnOk result (Keeps self.new) }
    {
        let place = made.place.0;
        self.turn_to(made.mutant);
        self.all.push(made)?;
        self.places.push(place);
        Ok(())
    }

    /// The replacements.
    pub(crate) fn into_all(self) -> Items<Made>
        ensures { result ≡ self.all }
    {
        self.all
    }
}
