//! The words of a command line: which words are a command, and which one.
#![tactic(auto)]

mod command;
mod laws;
mod number;
mod options;
mod read;

pub use command::{Command, Files, wanted};
pub use laws::{budgets_are_within, numbers_are_printed};
pub use read::command_of;
