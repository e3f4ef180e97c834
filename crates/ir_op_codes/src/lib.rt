//! The instructions of a code: names replaced by registers, blocks, functions, ports and addresses.
#![tactic(auto)]

mod laws;
mod lists;
mod names;
mod ops;
mod paths;
mod reads;
mod words;

pub use laws::{code_needs_no_more, small_types_fit};
pub use lists::{cases, entries, indices};
pub use names::Names;
pub use ops::op_code;
pub use paths::{Move, Step, steps_of};
pub use reads::{operand, operands, two, typed};
pub use words::{constant_word, kind_width, literal_part};
