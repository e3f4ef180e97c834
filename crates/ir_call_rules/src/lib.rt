//! Whether an item keeps the rules on calls, declarations, the cases of a `switch`, the entries of
//! a `phi` and names.
#![tactic(auto)]

mod calls;
mod laws;
mod numbers;
mod phis;
mod ports;
mod sources;
mod switches;

pub use calls::{call_differs, declare_differs, unknown_callee};
pub use laws::rules_need_no_more;
pub use phis::phi_entries;
pub use ports::{Ports, name_bytes};
pub use sources::{Sources, sources_of};
pub use switches::switch_case;
