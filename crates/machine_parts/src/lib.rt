//! What the machines of the language have in common: what they run, the ports that they own, and how
//! they group changes.
#![tactic(auto)]

mod boxed;
mod classes;
mod keys;
mod owned;
mod subject;

pub use boxed::{copied_signs, run_by, try_by};
pub use classes::group;
pub use owned::Ports;
pub use subject::Subject;
