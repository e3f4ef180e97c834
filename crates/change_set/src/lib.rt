//! Changes compared and counted by pages, and the laws of the changes that instructions make. The
//! types and the definitions of their meaning are those of `machine_form`.
#![tactic(auto)]

mod change;
mod law;

pub use change::{pages, same};
pub use law::{changes_compared, changes_determined, changes_light, states_kept, variants_known};
pub use machine_form::{ByteWrites, Change, Control, RegisterWrites};
