//! The pass over the items of a module: what is known of the function in which an item stands, and
//! of the items before it.
#![tactic(auto)]

mod frame;
mod seen;

pub use frame::{Frame, closed_frame, enter, is_end, is_head, leave, step};
pub use seen::{Seen, note, nothing_seen, outer_double, passes_limit};
