//! A command as a plan: the files that it reads in order, what it wants of them, and the text that
//! is due. What each answer of a command says is defined once, for all plans.
#![tactic(auto)]

mod reading;
mod status;
mod stop;
mod writing;

pub use reading::read_file;
pub use status::{Input, Status};
pub use stop::Stop;
pub use writing::write_found;
