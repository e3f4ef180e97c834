//! The program as a library: files, standard output and standard error round the top call. A
//! program is a `main` of one line over it, so that there can be one for each stored run.
#![tactic(auto)]

mod adapters;
mod program;
mod said;
mod view;

pub use program::run_program;
pub use view::run_view;
