//! The meaning of the code: the state of a run, the change that each instruction makes, the state
//! after it, and which states fit a code. `specs/` has the definitions and `proofs/` their laws. The
//! code here is the change as a value, and the frame of a call.
#![tactic(auto)]

mod change;
mod frame;
mod same;
mod writes;

pub use change::{Change, Control};
pub use frame::Frame;
pub use writes::{ByteWrites, RegisterWrites};
