//! Whether an item keeps the rules on labels, blocks, results and conversions.
#![tactic(auto)]

mod blocks;
mod labels;
mod laws;
mod values;

pub use blocks::{block_open, phi_place};
pub use labels::{entry_target, unknown_label};
pub use laws::rules_need_no_more;
pub use values::{cast_width, result_misplaced, return_differs};
