//! The records of a list file, as the kit's `csv` reads them, and the decimal numbers in its fields.
//! Both kinds of list, of mutants and of tests, are read through this crate.
#![tactic(auto)]

mod decimal;
mod record;

pub use decimal::{Decimal, decimal_of, number_within, word_within};
pub use record::{field, next_record, reader_of};
