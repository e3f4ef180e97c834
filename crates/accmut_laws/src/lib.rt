//! The laws of the top call's clauses: the headline, composed over the machine of this language; which
//! status is due, and when a command is complete; and that what is written is a function of the
//! words, of the named files' bytes, and of the signs and answers of the ports.
#![tactic(auto)]

mod answers;
mod language;
mod laws;

pub use answers::{complete, due, lists_have_tables, same_bytes};
pub use language::{classes_at_a_step, headline, shared, steps_are_prefixes};
pub use laws::{one_end, one_text};
