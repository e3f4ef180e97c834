//! A cursor over the tokens of a module's text, and the values of single tokens: names, numbers,
//! words, and which part of an item a token starts.
#![tactic(auto)]

mod cursor;
mod error;
mod skipped_words;
mod starts;
mod texts;
mod words;

pub use cursor::Cursor;
pub use error::PartError;
