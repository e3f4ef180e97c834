//! Pure functions of the C library and of LLVM that Clang's text calls, as ports: tests and cases of
//! characters, and the intrinsic functions for absolute values, minima and maxima.
#![tactic(auto)]

mod answers;
mod function;
mod port;
mod signs;

pub use answers::answer;
pub use function::{CharCase, CharTest, Choice, PureFunction};
pub use port::PurePort;
